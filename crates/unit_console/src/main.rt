// A stand-in control unit driven by hand: each line of standard input is a call of the record, and each answer is a line of
// standard output, written before the next line is waited for. A line that is no call answers "error line N" and changes
// nothing. An answer that cannot be written ends the program.
#![tactic(auto)]

ghost use Rattle.std.specs.Prelude.{◌≡◌};
ghost use Rattle.unit_console.specs.Car.{car_calls, answers, sets, setting_read};

use dialogue::answers::Carried;
use dialogue::driven::{Record, Reply, talk};
use dialogue::numbers;
use open_end::answers::{Answered, Arrived, Due, TakeStep};
use settings::Settings;
use unit::ControlUnit;

// The name of the call that a control unit alone has, as the number that the letters make.
const SET: u64 = 0x736574;

// What that call sets.
#[derive(Clone, Copy)]
struct Setting {
    settings: Settings,
    reply: u8,
}

// The record that is driven.
#[derive(Clone, Copy)]
struct Car {
    unit: ControlUnit,
}

fn main(rt: HostRuntime) {
    talk::<Car, HostRuntime>(&rt);
}

impl Record for Car {
    ghost calls = { car_calls };

    fn closed() -> Car {
        Car {
            unit: ControlUnit::closed(),
        }
    }

    fn arrive(self, id: u16, bytes: &[u8], buffer: &mut [u8]) -> Reply<Car> {
        let Arrived { told, padded, left } = self.unit.arrive(id, bytes, buffer);
        Reply {
            carried: Carried::marked(told.said, padded),
            len: 0,
            next: Car { unit: left },
        }
    }

    fn elapse(self, tenths: u64) -> Reply<Car> {
        answers(self.unit.elapse(tenths))
    }

    fn due(self, message: &[u8]) -> Reply<Car> {
        let Due { told, frame, left } = self.unit.due(message);
        Reply {
            carried: Carried::handing(told.said, frame),
            len: 0,
            next: Car { unit: left },
        }
    }

    fn send(self, message: &[u8]) -> Reply<Car> {
        answers(self.unit.send(message))
    }

    // The number 0 is done as asked.
    fn accepted(number: u8) -> bool {
        number == 0
    }

    fn take(self, room: usize) -> Reply<Car> {
        let TakeStep {
            told,
            len,
            flags,
            left,
        } = self.unit.take_step(room);
        Reply {
            carried: Carried::showing(told.said, flags),
            len,
            next: Car { unit: left },
        }
    }

    fn close(self) -> Reply<Car> {
        answers(self.unit.close())
    }

    fn own(self, name: u64, words: &[u8]) -> Option<Reply<Car>> {
        if name != SET {
            return None;
        }
        self.set(read_setting(words))
    }
}

impl Car {
    fn set(self, setting: Option<Setting>) -> Option<Reply<Car>>
        ensures { result ≡ sets self setting }
    {
        let Setting { settings, reply } = setting?;
        Some(answers(self.unit.set(settings, reply)))
    }
}

// An answer that carries nothing. It is no `From`, as neither type is this program's.
fn answers(answered: Answered<ControlUnit>) -> Reply<Car>
    ensures { result ≡ answers answered }
{
    let Answered { told, left } = answered;
    Reply {
        carried: Carried::marked(told.said, false),
        len: 0,
        next: Car { unit: left },
    }
}

// A closed unit's own where no word is given. The twelfth word is the reply; a number too large for it is read as 0, which is
// no reply.
fn read_setting(words: &[u8]) -> Option<Setting>
    ensures { result ≡ setting_read words.now }
{
    if words.len() == 0 {
        let ControlUnit {
            settings,
            reply,
            ..
        } = ControlUnit::closed();
        return Some(Setting { settings, reply });
    }
    let given = numbers::settings(words);
    let read = given.numbers.next(words, 255);
    if read.are_all(words) {
        return Some(Setting {
            settings: given.settings,
            reply: (read.value % 256) as u8,
        });
    }
    None
}
