// A connection driven by hand: each line of standard input is a call of the record, and each answer is a line of standard
// output, written before the next line is waited for. A line that is no call answers "error line N" and changes nothing.
// An answer that cannot be written ends the program.
#![tactic(auto)]

ghost use Rattle.std.specs.Prelude.{◌≡◌};
ghost use Rattle.console.specs.Tester.{tester_calls, answers, opens, opens_16};

use connection::Connection;
use dialogue::answers::Carried;
use dialogue::driven::{Record, Reply, talk};
use dialogue::numbers::read_opening;
use dialogue::rows::{Opening16, read_opening_16};
use open_end::answers::{Answered, Arrived, Due, TakeStep};
use settings::Settings;

// The names of the calls that a connection alone has, as the numbers that their letters make.
const OPEN: u64 = 0x6F70656E;

const OPEN16: u64 = 0x6F70656E3136;

// The record that is driven.
#[derive(Clone, Copy)]
struct Tester {
    connection: Connection,
}

fn main(rt: HostRuntime) {
    talk::<Tester, HostRuntime>(&rt);
}

impl Record for Tester {
    ghost calls = { tester_calls };

    fn closed() -> Tester {
        Tester {
            connection: Connection::closed(),
        }
    }

    fn arrive(self, id: u16, bytes: &[u8], buffer: &mut [u8]) -> Reply<Tester> {
        let Arrived { told, padded, left } = self.connection.arrive(id, bytes, buffer);
        Reply {
            carried: Carried::marked(told.said, padded),
            len: 0,
            next: Tester { connection: left },
        }
    }

    fn elapse(self, tenths: u64) -> Reply<Tester> {
        answers(self.connection.elapse(tenths))
    }

    fn due(self, message: &[u8]) -> Reply<Tester> {
        let Due { told, frame, left } = self.connection.due(message);
        Reply {
            carried: Carried::handing(told.said, frame),
            len: 0,
            next: Tester { connection: left },
        }
    }

    fn send(self, message: &[u8]) -> Reply<Tester> {
        answers(self.connection.send(message))
    }

    // The number 0 is done as asked.
    fn accepted(number: u8) -> bool {
        number == 0
    }

    fn take(self, room: usize) -> Reply<Tester> {
        let TakeStep {
            told,
            len,
            flags,
            left,
        } = self.connection.take_step(room);
        Reply {
            carried: Carried::showing(told.said, flags),
            len,
            next: Tester { connection: left },
        }
    }

    fn close(self) -> Reply<Tester> {
        answers(self.connection.close())
    }

    fn own(self, name: u64, words: &[u8]) -> Option<Reply<Tester>> {
        match name {
            OPEN => self.open(read_opening(words)),
            OPEN16 => self.open_16(read_opening_16(words)),
            _ => None,
        }
    }
}

impl Tester {
    fn open(self, opening: Option<Settings>) -> Option<Reply<Tester>>
        ensures { result ≡ opens self opening }
    {
        Some(answers(self.connection.open(opening?)))
    }

    // The same in a row of TP 1.6.
    fn open_16(self, opening: Option<Opening16>) -> Option<Reply<Tester>>
        ensures { result ≡ opens_16 self opening }
    {
        let Opening16 { profile, settings } = opening?;
        Some(answers(self.connection.open_as(profile, settings)))
    }
}

// An answer that carries nothing. It is no `From`, as neither type is this program's.
fn answers(answered: Answered<Connection>) -> Reply<Tester>
    ensures { result ≡ answers answered }
{
    let Answered { told, left } = answered;
    Reply {
        carried: Carried::marked(told.said, false),
        len: 0,
        next: Tester { connection: left },
    }
}
