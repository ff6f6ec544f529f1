// Eight connections in one table, each found by the ID that it listens on: a table goes in by value and comes back with an
// answer, one place of it changed at most.
//
// Every call is good on every table and for every byte. A frame that is for none gives 3, and a place over 7 gives 4.
#![tactic(auto)]

ghost use Rattle.std.specs.Prelude.{◌≡◌, length};
ghost use Rattle.telegram.specs.Cutting.{longest};
ghost use Rattle.table.specs.Table.{empty, owner_of, named, free_of, uses_either, is_used, reserved};
ghost use Rattle.table.specs.Calls.{opens, arrives, buffers, elapses, hands, sends, takes, shows, closes};
ghost use Rattle.open_end.specs.Answers.{looked};

use connection::{CLOSED, Connection};
use open_end::answers::{Answer, Answered, Due, Record, TakeStep, Taken, Told, tell};
use open_end::shown;
use settings::Settings;

// How many places a table has.
pub const PLACES: usize = 8;

// The records, one a place. A call reads one and stores what it leaves: after a write behind `get_mut` a proof would know none.
#[derive(Clone, Copy)]
pub struct Table {
    pub places: [Connection; PLACES],
}

// An opening and an arrival have results of their own, since they tell a place beside what `Answered` and `Arrived` of a record do.

// What an opening tells, the place that it took, if it took one, and the table that it leaves.
#[derive(Clone, Copy)]
pub struct Opened {
    pub told: Told,
    pub place: Option<u8>,
    pub left: Table,
}

// What a frame that arrives tells, whether its telegram is padded, its owner's place, if it has one, and the table that it leaves.
#[derive(Clone, Copy)]
pub struct Arrived {
    pub told: Told,
    pub padded: bool,
    pub place: Option<u8>,
    pub left: Table,
}

// Whether replies to a C0, which come from 0x200 + unit, may come on this ID.
#[tactic(auto, using(laws::proofs::Branches::branches), unfolding(crate::specs::Table::reserved))]
fn reserved(receive: u16) -> bool
    ensures { result ≡ reserved receive }
{
    matches!(receive, 0x200..=0x2EF)
}

// Whether a record that is open or opening has this unit or this receive ID.
#[tactic(auto, using(laws::proofs::Branches::branches), unfolding(crate::specs::Table::uses_either))]
fn uses_either(c: Connection, unit: u8, receive: u16) -> bool
    ensures { result ≡ uses_either unit receive c }
{
    c.phase != CLOSED && (c.settings.unit == unit || c.settings.receive == receive)
}

impl Record for Table {}

impl Table {
    // A table with every place closed, and nothing due.
    pub fn empty() -> Table
        ensures { result ≡ empty }
    {
        Table {
            places: [Connection::closed(); PLACES],
        }
    }

    // The lowest place whose record listens on an ID.
    fn owner_of(self, id: u16) -> Option<usize>
        ensures { result ≡ named (owner_of self id) }
    {
        self.places.iter().position(|c| c.hears(id))
    }

    // The lowest closed place.
    fn free(self) -> Option<usize>
        ensures { result ≡ named (free_of self) }
    {
        self.places.iter().position(|c| c.phase == CLOSED)
    }

    // Whether a unit or a receive ID is in use at some place.
    fn is_used(self, unit: u8, receive: u16) -> bool
        ensures { result ≡ is_used self unit receive }
    {
        self.places.iter().any(|&c| uses_either(c, unit, receive))
    }

    // The place that owns an ID.
    pub fn owner(self, id: u16) -> Option<u8>
        ensures { result ≡ named (owner_of self id) }
    {
        let p = self.owner_of(id)?;
        Some(p as u8)
    }

    // Opens the lowest closed place.
    pub fn open(mut self, settings: Settings) -> Opened
        ensures { result ≡ opens self settings }
    {
        let Some(p) = self.free() else {
            return Opened {
                told: tell(Answer::Full),
                place: None,
                left: self,
            };
        };
        if reserved(settings.receive)
            || self.is_used(settings.unit, settings.receive)
            || !settings.in_range()
        {
            return Opened {
                told: tell(Answer::OutOfRange),
                place: None,
                left: self,
            };
        }
        let r = self.places[p].open(settings);
        self.places[p] = r.left;
        Opened {
            told: r.told,
            place: Some(p as u8),
            left: self,
        }
    }

    // A CAN frame arrives, and its owner's buffer is lent.
    pub fn arrive(mut self, id: u16, bytes: &[u8], buffer: &mut [u8]) -> Arrived
        ensures value { result ≡ arrives longest self id bytes.now (length buffer.old) }
        ensures buffer_after { buffer.new ≡ buffers longest self id bytes.now buffer.old }
    {
        let Some(p) = self.owner_of(id) else {
            return Arrived {
                told: tell(Answer::OtherId),
                padded: false,
                place: None,
                left: self,
            };
        };
        let r = self.places[p].arrive(id, bytes, buffer);
        self.places[p] = r.left;
        Arrived {
            told: r.told,
            padded: r.padded,
            place: Some(p as u8),
            left: self,
        }
    }

    // Time passes at a place.
    pub fn elapse(mut self, place: u8, tenths: u64) -> Answered<Table>
        ensures { result ≡ elapses self place tenths }
    {
        let p = place as usize;
        let Some(c) = self.places.get(p) else {
            return self.gives(channel::Answer::NotDue);
        };
        let r = c.elapse(tenths);
        self.places[p] = r.left;
        Answered {
            told: r.told,
            left: self,
        }
    }

    // What a place has due: at most one frame, the message in sending there being lent.
    pub fn due(mut self, place: u8, message: &[u8]) -> Due<Table>
        ensures { result ≡ hands self place message.now }
    {
        let p = place as usize;
        let Some(c) = self.places.get(p) else {
            return Due {
                told: tell(Answer::Channel(channel::Answer::NotDue)),
                frame: None,
                left: self,
            };
        };
        let d = c.due(message);
        self.places[p] = d.left;
        Due {
            told: d.told,
            frame: d.frame,
            left: self,
        }
    }

    // A message to send at a place.
    pub fn send(mut self, place: u8, message: &[u8]) -> Answered<Table>
        ensures { result ≡ sends longest self place (length message.now) }
    {
        let p = place as usize;
        let Some(c) = self.places.get(p) else {
            return self.gives(channel::Answer::NotDue);
        };
        let r = c.send(message);
        self.places[p] = r.left;
        Answered {
            told: r.told,
            left: self,
        }
    }

    // What taking a message at a place comes to, in a lent buffer of room bytes.
    pub fn take_step(mut self, place: u8, room: usize) -> TakeStep<Table>
        ensures { result ≡ takes self place room }
    {
        let p = place as usize;
        let Some(c) = self.places.get(p) else {
            return TakeStep {
                told: tell(Answer::Channel(channel::Answer::NotDue)),
                len: 0,
                flags: 0,
                left: self,
            };
        };
        let t = c.take_step(room);
        self.places[p] = t.left;
        TakeStep {
            told: t.told,
            len: t.len,
            flags: t.flags,
            left: self,
        }
    }

    // Takes the complete message of a place: it is shown as the first part of the lent buffer, that connection's own.
    pub fn take<'a>(self, place: u8, buffer: &'a [u8]) -> Taken<'a, Table>
        ensures { looked result ≡ shows self place buffer.entry }
    {
        let TakeStep {
            told,
            len,
            flags,
            left,
        } = self.take_step(place, buffer.len());
        Taken {
            told,
            flags,
            left,
            message: shown(buffer, len),
        }
    }

    // Closes a place.
    pub fn close(mut self, place: u8) -> Answered<Table>
        ensures { result ≡ closes self place }
    {
        let p = place as usize;
        let Some(c) = self.places.get(p) else {
            return self.gives(channel::Answer::NotDue);
        };
        let r = c.close();
        self.places[p] = r.left;
        Answered {
            told: r.told,
            left: self,
        }
    }
}
