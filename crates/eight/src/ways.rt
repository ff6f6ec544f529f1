// The three ways to keep eight connections, which main.rt names.
use crate::units::{GAP, OPENING, STEPS, Tally, UNITS, id_of, settings_for, telegram};
use connection::Connection;
use open_end::answers::Due;
use open_end::shown;
use std::ops::Range;
use table::{PLACES, Table};
use text::reading;

// The bytes of a record's buffer.
const ROOM: usize = 1024;

#[derive(Clone, Copy)]
pub(crate) enum Way {
    Single,
    Table,
    Calls,
}

// What the units send: the message of each, and the frames that they are cut into.
#[derive(Clone, Copy)]
pub(crate) struct Sent<'a> {
    pub(crate) messages: &'a [u8],
    pub(crate) frames: &'a [u8],
}

// A record, and what came and went. That of a table has other functions, so the two have no type in common.
#[derive(Clone, Copy)]
struct One {
    connection: Connection,
    tally: Tally,
}

// A table, and what came and went.
#[derive(Clone, Copy)]
struct All {
    table: Table,
    tally: Tally,
}

pub(crate) fn play(way: Way, rounds: u64, sent: Sent<'_>, buffers: &mut [u8]) -> Tally {
    match way {
        Way::Single => apart(rounds, sent, buffers),
        Way::Table => together::<InPlace>(rounds, sent, buffers),
        Way::Calls => together::<ByCalls>(rounds, sent, buffers),
    }
}

// One unit after another, the record at work being lent all of the buffers.
fn apart(rounds: u64, sent: Sent<'_>, buffer: &mut [u8]) -> Tally {
    let mut tally = Tally::default();
    for unit in 0..UNITS {
        tally = exchange(tally, unit, rounds, sent, buffer);
    }
    tally
}

// All that a unit and we have to say: the opening, and then its message, over and over.
fn exchange(tally: Tally, unit: usize, rounds: u64, sent: Sent<'_>, buffer: &mut [u8]) -> Tally {
    let connection = Connection::closed().open(settings_for(unit)).left;
    let mut one = alone(
        One { connection, tally },
        unit,
        0..OPENING,
        sent.frames,
        buffer,
    );
    for _ in 0..rounds {
        one = alone(one, unit, OPENING..STEPS, sent.frames, buffer);
        one = taken(one, unit, sent.messages, buffer);
    }
    one.tally
}

// The steps of one unit from one up to another.
fn alone(begun: One, unit: usize, steps: Range<usize>, frames: &[u8], buffer: &mut [u8]) -> One {
    let One {
        mut connection,
        mut tally,
    } = begun;
    for step in steps {
        let bytes = telegram(frames, unit, step);
        let d = turn(connection, id_of(unit, step), bytes, buffer);
        connection = d.left;
        tally = tally.with_turn(step, bytes.len(), d.frame);
    }
    One { connection, tally }
}

// A record's turn, single or in the table: the time between two frames passes, a frame arrives, and what is due is handed over.
fn turn(c: Connection, id: u16, bytes: &[u8], buffer: &mut [u8]) -> Due<Connection> {
    let c = c.elapse(GAP).left;
    let c = c.arrive(id, bytes, buffer).left;
    c.due(b"")
}

// A record's message is taken, and compared with what its unit sent.
fn taken(begun: One, unit: usize, messages: &[u8], buffer: &[u8]) -> One {
    let One { connection, tally } = begun;
    let t = connection.take_step(ROOM);
    One {
        connection: t.left,
        tally: tally.with_message(unit, t.flags, shown(buffer, t.len), messages),
    }
}

// The units in turns, their records in a table, driven one way or the other.
fn together<D: Driven>(rounds: u64, sent: Sent<'_>, buffers: &mut [u8]) -> Tally {
    let mut all = D::turns(opening(), 0..UNITS * OPENING, sent.frames, buffers);
    for _ in 0..rounds {
        all = D::turns(all, UNITS * OPENING..UNITS * STEPS, sent.frames, buffers);
        all = all_taken::<D>(all, sent.messages, buffers);
    }
    all.tally
}

// A table with every place opening.
fn opening() -> All {
    let mut table = Table::empty();
    for unit in 0..UNITS {
        table = table.open(settings_for(unit)).left;
    }
    All {
        table,
        tally: Tally::default(),
    }
}

// The message at every place is taken.
fn all_taken<D: Driven>(begun: All, messages: &[u8], buffers: &[u8]) -> All {
    let mut all = begun;
    for place in 0..PLACES {
        let buffer = reading::part(buffers, ROOM * place, ROOM * place + ROOM);
        all = D::taken(all, place, messages, buffer);
    }
    all
}

// How the records of a table are driven: each in its place, or by the table's own calls.
trait Driven {
    // The frames of all units from one up to another: frame k is of step k / 8, from unit k % 8.
    fn turns(begun: All, turns: Range<usize>, frames: &[u8], buffers: &mut [u8]) -> All;

    // The message at a place is taken, and compared with what its unit sent.
    fn taken(begun: All, place: usize, messages: &[u8], buffer: &[u8]) -> All;
}

struct InPlace;

struct ByCalls;

impl Driven for InPlace {
    // Each frame at the place of its owner. It ends at a frame that has none or whose buffer is not there: the messages are then
    // not handed out as they were sent.
    fn turns(begun: All, turns: Range<usize>, frames: &[u8], buffers: &mut [u8]) -> All {
        let All {
            mut table,
            mut tally,
        } = begun;
        for k in turns {
            let unit = k % UNITS;
            let step = k / UNITS;
            let bytes = telegram(frames, unit, step);
            let id = id_of(unit, step);
            let Some(place) = table.owner(id) else {
                break;
            };
            let place = place as usize;
            let Some(buffer) = buffers.get_mut(ROOM * place..ROOM * place + ROOM) else {
                break;
            };
            let d = turn(table.places[place], id, bytes, buffer);
            table.places[place] = d.left;
            tally = tally.with_turn(step, bytes.len(), d.frame);
        }
        All { table, tally }
    }

    fn taken(begun: All, place: usize, messages: &[u8], buffer: &[u8]) -> All {
        let All { mut table, tally } = begun;
        let connection = table.places[place % PLACES];
        let one = taken(One { connection, tally }, place, messages, buffer);
        table.places[place % PLACES] = one.connection;
        All {
            table,
            tally: one.tally,
        }
    }
}

impl Driven for ByCalls {
    // A frame finds its owner in arrive, and the place of elapse and due is the unit's number, since the units were opened in
    // their order. Each table has a name of its own, which saves copies (docs/PERFORMANCE.md).
    fn turns(begun: All, turns: Range<usize>, frames: &[u8], buffers: &mut [u8]) -> All {
        let All {
            mut table,
            mut tally,
        } = begun;
        for k in turns {
            let unit = k % UNITS;
            let step = k / UNITS;
            let bytes = telegram(frames, unit, step);
            let Some(buffer) = buffers.get_mut(ROOM * unit..ROOM * unit + ROOM) else {
                break;
            };
            let place = unit as u8;
            let e = table.elapse(place, GAP);
            let t = e.left;
            let r = t.arrive(id_of(unit, step), bytes, buffer);
            let t = r.left;
            let d = t.due(place, b"");
            table = d.left;
            tally = tally.with_turn(step, bytes.len(), d.frame);
        }
        All { table, tally }
    }

    fn taken(begun: All, place: usize, messages: &[u8], buffer: &[u8]) -> All {
        let All { table, tally } = begun;
        let t = table.take_step((place % PLACES) as u8, ROOM);
        All {
            table: t.left,
            tally: tally.with_message(place, t.flags, shown(buffer, t.len), messages),
        }
    }
}
