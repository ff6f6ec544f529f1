// A table of eight connections driven by hand: each line of standard input is a call of the table or of one of its places, and
// each answer is a line of standard output, written before the next line is waited for. A line that is no call answers
// "error line N" and changes nothing. An answer that cannot be written ends the program.
#![tactic(auto)]

use channel::Answer::NotDue;
use dialogue::answers::Carried;
use dialogue::calls::Call;
use dialogue::lines::read_line;
use dialogue::numbers::read_opening;
use dialogue::places::{Asked, read_asked};
use dialogue::session::{Session, clear};
use dialogue::words::{behind_word, only_id};
use open_end::answers::{Answer, Answered, Due, Said, TakeStep, tell};
use open_end::shown;
use settings::Settings;
use table::{Arrived, Opened, PLACES, Table};
use text::reading::NumberError;
use text::{reading, writing};

// What is kept from line to line, beside what is lent.
#[derive(Clone, Copy)]
struct Console {
    table: Table,
    session: Session,
    places: [Kept; PLACES],
}

// What is kept for a place.
#[derive(Clone, Copy, Default)]
struct Kept {
    // How many bytes of its buffer are lent.
    room: u16,
    // The length of the message last accepted there.
    length: u16,
}

// The length of a place's part of the buffers, and of the messages.
const PART: usize = 4096;

// The names of the calls that a table alone has, as the numbers that the letters make.
const OPEN: u64 = 0x6F70656E;

const OWNER: u64 = 0x6F776E6572;

// What every call is lent.
#[derive(Drop)]
struct Lent {
    // A line, one character too many, and a CR behind it; its answer takes its place.
    text: [u8; 16002],
    // The bytes that a line gives.
    bytes: [u8; 8192],
    // The buffer of each place, and the message last accepted there.
    buffers: [u8; 32768],
    messages: [u8; 32768],
}

fn main(rt: HostRuntime) {
    talk(&rt);
}

// Reads and answers until the input ends or an answer cannot be written. The count of turns is more than any run uses up.
fn talk<R: Input + Print + Eprint>(rt: &R) {
    let mut lent = Lent {
        text: [0; 16002],
        bytes: [0; 8192],
        buffers: [0; 32768],
        messages: [0; 32768],
    };
    let mut c = anew(Session::fresh());
    for _ in 0..u64::MAX {
        c = c.turn(rt, &mut lent);
        if c.session.is_over() {
            return;
        }
    }
}

// An empty table, the first 1,024 bytes of each buffer lent, and no message.
fn anew(session: Session) -> Console {
    let fresh = Kept {
        room: 1024,
        length: 0,
    };
    Console {
        table: Table::empty(),
        session,
        places: [fresh; PLACES],
    }
}

// A place's part of the buffers or the messages.
fn part(s: &[u8], place: u8) -> &[u8] {
    let start = place as usize * PART;
    reading::part(s, start, start + PART)
}

impl Console {
    fn with(mut self, session: Session) -> Console {
        self.session = session;
        self
    }

    // With what an answer leaves.
    fn leaving(mut self, table: Table, session: Session) -> Console {
        self.table = table;
        self.session = session;
        self
    }

    // What is kept for a place; for one that the table does not have, no room and no message.
    fn kept(self, place: u8) -> Kept {
        self.places.get(place as usize).copied().unwrap_or_default()
    }

    // Reads a line and answers it; it is understood whole before anything is done.
    fn turn<R: Input + Print + Eprint>(self, rt: &R, lent: &mut Lent) -> Console {
        let line = read_line(rt, &mut lent.text);
        let asked = read_asked(shown(&lent.text, line.fill), &mut lent.bytes);
        let session = self.session;
        self.with(session.next_line(line.ended))
            .run(rt, asked, line.fill, lent)
    }

    // Runs the call that a line of fill characters asks for.
    fn run<R: Print + Eprint>(self, rt: &R, asked: Asked, fill: usize, lent: &mut Lent) -> Console {
        let Lent {
            text,
            bytes,
            buffers,
            messages,
        } = lent;
        let table = self.table;
        let session = self.session;
        let Asked { place: named, call } = asked;
        let place = named.unwrap_or(0);
        match call {
            Call::Nothing => self,
            Call::Wrong => self.with(session.wrong(rt, text)),
            Call::New => self.renewed(rt, buffers),
            Call::Frame { id, count } => {
                self.arrived(rt, self.arriving(id, shown(bytes, count), buffers), text)
            }
            Call::Time(tenths) => self.elapsed(rt, named, tenths, text),
            Call::Due => {
                let message = shown(part(messages, place), self.kept(place).length as usize);
                self.handed(rt, table.due(place, message), text)
            }
            Call::DueOf(count) => self.handed(rt, table.due(place, shown(bytes, count)), text),
            Call::Send(count) => self.sending(rt, place, shown(bytes, count), messages, text),
            Call::Take => {
                let step = table.take_step(place, self.kept(place).room as usize);
                self.taken(rt, step, part(buffers, place), text)
            }
            Call::Close => self.answered(rt, table.close(place), text),
            Call::Room(room) => self.lending(rt, place, room, text),
            Call::Buffer => self.showing(rt, place, buffers, text),
            Call::Other(name) => self.own(rt, name, fill, text),
        }
    }

    // A call that a table alone has.
    fn own<R: Print + Eprint>(self, rt: &R, name: u64, fill: usize, text: &mut [u8]) -> Console {
        let rest = behind_word(shown(text, fill));
        match name {
            OPEN => self.opened(rt, read_opening(rest), text),
            OWNER => self.owned(rt, only_id(rest), text),
            _ => {
                let session = self.session;
                self.with(session.wrong(rt, text))
            }
        }
    }

    fn opened<R: Print + Eprint>(
        self,
        rt: &R,
        opening: Option<Settings>,
        text: &mut [u8],
    ) -> Console {
        let Some(settings) = opening else {
            return self.with(self.session.wrong(rt, text));
        };
        let Opened { told, place, left } = self.table.open(settings);
        self.telling_at(rt, left, Carried::marked(told.said, false), place, text)
    }

    fn owned<R: Print + Eprint>(
        self,
        rt: &R,
        id: Result<u64, NumberError>,
        text: &mut [u8],
    ) -> Console {
        let Ok(n) = id else {
            return self.with(self.session.wrong(rt, text));
        };
        let owner = self.table.owner((n % 65536) as u16);
        self.with(self.session.tell_owner(rt, owner, text))
    }

    fn renewed<R: Print + Eprint>(self, rt: &R, buffers: &mut [u8]) -> Console {
        clear(buffers);
        let session = self.session;
        anew(session.renew(rt))
    }

    // A frame arrives, the room of its owner's buffer being lent.
    fn arriving(self, id: u16, bytes: &[u8], buffers: &mut [u8]) -> Arrived {
        let table = self.table;
        let Some(p) = table.owner(id) else {
            return table.arrive(id, bytes, &mut []);
        };
        let start = p as usize * PART;
        match buffers.get_mut(start..start + self.kept(p).room as usize) {
            Some(lent) => table.arrive(id, bytes, lent),
            None => table.arrive(id, bytes, buffers),
        }
    }

    // Time passes at one place, or at each.
    fn elapsed<R: Print + Eprint>(
        self,
        rt: &R,
        place: Option<u8>,
        tenths: u64,
        text: &mut [u8],
    ) -> Console {
        let Some(place) = place else {
            return self.each_elapsed(rt, tenths, text);
        };
        self.answered(rt, self.table.elapse(place, tenths), text)
    }

    fn each_elapsed<R: Print + Eprint>(self, rt: &R, tenths: u64, text: &mut [u8]) -> Console {
        let session = self.session;
        let mut table = self.table;
        let nothing = Said {
            number: 0,
            done: false,
            opcode: 0,
        };
        let mut said = [nothing; PLACES];
        for p in 0..PLACES {
            let passed = table.elapse(p as u8, tenths);
            said[p] = passed.told.said;
            table = passed.left;
        }
        self.leaving(table, session.tell_each(rt, said, text))
    }

    // A message that is accepted is kept, to be lent from now on.
    fn sending<R: Print + Eprint>(
        self,
        rt: &R,
        place: u8,
        bytes: &[u8],
        messages: &mut [u8],
        text: &mut [u8],
    ) -> Console {
        let table = self.table;
        let sent = table.send(place, bytes);
        let told = sent.told;
        let said = told.said;
        if said.number != 0 {
            return self.answered(rt, sent, text);
        }
        writing::bytes(messages, place as usize * PART, bytes);
        self.keeping(place, bytes.len()).answered(rt, sent, text)
    }

    fn keeping(mut self, place: u8, length: usize) -> Console {
        if let Some(kept) = self.places.get_mut(place as usize) {
            kept.length = (length % 65536) as u16;
        }
        self
    }

    fn lending<R: Print + Eprint>(
        mut self,
        rt: &R,
        place: u8,
        room: usize,
        text: &mut [u8],
    ) -> Console {
        let Some(kept) = self.places.get_mut(place as usize) else {
            return self.nowhere(rt, text);
        };
        kept.room = (room % 65536) as u16;
        let session = self.session;
        self.with(session.grant(rt))
    }

    fn showing<R: Print + Eprint>(
        self,
        rt: &R,
        place: u8,
        buffers: &[u8],
        text: &mut [u8],
    ) -> Console {
        let Some(kept) = self.places.get(place as usize) else {
            return self.nowhere(rt, text);
        };
        let session = self.session;
        self.with(session.show(rt, shown(part(buffers, place), kept.room as usize), text))
    }

    // Answers a call that names no place of the table, and asks for what the table does not keep.
    fn nowhere<R: Print + Eprint>(self, rt: &R, text: &mut [u8]) -> Console {
        let table = self.table;
        let told = tell(Answer::Channel(NotDue));
        self.telling(rt, table, Carried::marked(told.said, false), &[], text)
    }

    fn answered<R: Print + Eprint>(
        self,
        rt: &R,
        answered: Answered<Table>,
        text: &mut [u8],
    ) -> Console {
        let told = answered.told;
        let next = answered.left;
        self.telling(rt, next, Carried::marked(told.said, false), &[], text)
    }

    fn arrived<R: Print + Eprint>(self, rt: &R, arrived: Arrived, text: &mut [u8]) -> Console {
        let told = arrived.told;
        let place = arrived.place;
        let next = arrived.left;
        self.telling_at(
            rt,
            next,
            Carried::marked(told.said, arrived.padded),
            place,
            text,
        )
    }

    fn handed<R: Print + Eprint>(self, rt: &R, due: Due<Table>, text: &mut [u8]) -> Console {
        let told = due.told;
        let frame = due.frame;
        let next = due.left;
        self.telling(rt, next, Carried::handing(told.said, frame), &[], text)
    }

    fn taken<R: Print + Eprint>(
        self,
        rt: &R,
        taken: TakeStep<Table>,
        buffer: &[u8],
        text: &mut [u8],
    ) -> Console {
        let told = taken.told;
        let next = taken.left;
        let len = taken.len;
        self.telling(
            rt,
            next,
            Carried::showing(told.said, taken.flags),
            shown(buffer, len),
            text,
        )
    }

    // Says an answer, and goes on with the table that it leaves.
    fn telling<R: Print + Eprint>(
        self,
        rt: &R,
        next: Table,
        carried: Carried,
        message: &[u8],
        text: &mut [u8],
    ) -> Console {
        let session = self.session;
        self.leaving(next, session.tell(rt, carried, message, text))
    }

    // The same, with the place that the call came to, if it came to one.
    fn telling_at<R: Print + Eprint>(
        self,
        rt: &R,
        next: Table,
        carried: Carried,
        place: Option<u8>,
        text: &mut [u8],
    ) -> Console {
        let session = self.session;
        match place {
            None => self.telling(rt, next, carried, &[], text),
            Some(p) => self.leaving(next, session.tell_at(rt, carried, p, text)),
        }
    }
}
