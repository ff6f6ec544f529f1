// What a call of a record is answered with, on the side that opens and on the car's side alike, and what an answer says.
ghost use Rattle.std.specs.Prelude.{◌≡◌};
ghost use Rattle.open_end.specs.Answers.{plain, said, told, gives, marked, hand_over, hand_nothing, shows};

use crate::Frame;
use telegram::cutting::Message;

// What a call is answered with.
#[derive(Clone, Copy)]
pub enum Answer {
    // What an open channel answers with.
    Channel(channel::Answer),
    // A frame on an ID that is not listened on.
    OtherId,
    // Settings out of their range.
    OutOfRange,
    // The reply's opcode, D6, D7 or D8.
    Refused(u8),
    // On the car's side: a C0 or an A0 ended a message in sending.
    Ended,
    // Of a table: every place is in use.
    Full,
}

// What an answer says: its number in the protocol's table, whether the message in sending is done, and the opcode of a
// refusal, else 0. The number is the table's own, which rows and programs name, so it is no enum.
#[derive(Clone, Copy)]
pub struct Said {
    pub number: u8,
    pub done: bool,
    pub opcode: u8,
}

// An answer, and what it says.
#[derive(Clone, Copy)]
pub struct Told {
    pub answer: Answer,
    pub said: Said,
}

// An answer that carries its number alone.
fn plain(number: u8) -> Said
    ensures { result ≡ plain number }
{
    Said {
        number,
        done: false,
        opcode: 0,
    }
}

// An answer's number, and the values that it carries.
pub fn say(answer: Answer) -> Said
    ensures { result ≡ said answer }
{
    match answer {
        Answer::Channel(inner) => {
            let s = channel::say(inner);
            Said {
                number: s.number,
                done: s.done,
                opcode: 0,
            }
        }
        Answer::OtherId => plain(3),
        Answer::OutOfRange => plain(10),
        Answer::Refused(opcode) => Said {
            number: 11,
            done: false,
            opcode,
        },
        Answer::Ended => plain(8),
        Answer::Full => plain(13),
    }
}

// An answer, with what it says.
pub fn tell(answer: Answer) -> Told
    ensures { result ≡ told answer }
{
    Told {
        answer,
        said: say(answer),
    }
}

// What a call tells, and the record that it leaves.
#[derive(Clone, Copy)]
pub struct Answered<R> {
    pub told: Told,
    pub left: R,
}

// What a frame that arrives tells, whether its telegram is padded, and the record that it leaves.
#[derive(Clone, Copy)]
pub struct Arrived<R> {
    pub told: Told,
    pub padded: bool,
    pub left: R,
}

// A frame to hand over, if there is one.
#[derive(Clone, Copy)]
pub struct Due<R> {
    pub told: Told,
    pub frame: Option<Frame>,
    pub left: R,
}

// What taking a message comes to: where it is shown, len is its declared length and flags are its flags, and else both are 0.
#[derive(Clone, Copy)]
pub struct TakeStep<R> {
    pub told: Told,
    pub len: usize,
    pub flags: u16,
    pub left: R,
}

// A message taken: the first part of the lent buffer, and nothing of it where none is shown; its flags, and 0 there.
#[derive(Clone, Copy)]
pub struct Taken<'a, R> {
    pub told: Told,
    pub flags: u16,
    pub left: R,
    pub message: &'a [u8],
}

impl<R> Answered<R> {
    // The answer to a frame that arrives, with its telegram's mark.
    pub fn marked(self, padded: bool) -> Arrived<R>
        ensures { result ≡ marked padded self }
    {
        Arrived {
            told: self.told,
            padded,
            left: self.left,
        }
    }
}

// A record that calls leave.
pub trait Record: Sized {
    // An answer that an open channel gives too, with this record left.
    fn gives(self, answer: channel::Answer) -> Answered<Self>
        ensures { result ≡ gives answer self }
    {
        Answered {
            told: tell(Answer::Channel(answer)),
            left: self,
        }
    }

    // A frame is handed over, with this record left.
    fn hand_over(self, frame: Frame) -> Due<Self>
        ensures { result ≡ hand_over frame self }
    {
        Due {
            told: tell(Answer::Channel(channel::Answer::Good)),
            frame: Some(frame),
            left: self,
        }
    }

    // No frame is handed over, with this record left.
    fn hand_nothing(self) -> Due<Self>
        ensures { result ≡ hand_nothing self }
    {
        Due {
            told: tell(Answer::Channel(channel::Answer::Good)),
            frame: None,
            left: self,
        }
    }

    // What a take comes to, with this record left.
    fn shows(self, answer: channel::Answer, message: Message) -> TakeStep<Self>
        ensures { result ≡ shows answer message self }
    {
        TakeStep {
            told: tell(Answer::Channel(answer)),
            len: message.length as usize,
            flags: message.flags,
            left: self,
        }
    }
}
