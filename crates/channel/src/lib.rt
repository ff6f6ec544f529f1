// An open channel: both halves, the tests that keep it alive, and what is handed over first. The same at either end.
//
// It gives payloads and knows no CAN identifier, no padding and no opening. What a telegram that arrives does to it is
// `arrival::arrive`, a free function in a crate of its own, so that each of the two is checked in a short time. Where the
// repeats or tests are used up (`UsedUp`) or the peer leaves (`Disconnected`) the answer says so, for the record above to
// close.
#![tactic(auto)]

ghost use Rattle.std.specs.Prelude.{◌≡◌};
ghost use Rattle.telegram.specs.Cutting.{longest};
ghost use Rattle.channel.specs.Numbers.{plain, said};
ghost use Rattle.channel.specs.Opened.{fresh, restarted, offer_answer, wait_ends, later, repeats_used_up, went, elapsed, test_due, hand_over, hand_nothing, hand_accept, hand_test, hand_ack, hand_data, due, sent};

use receiver::{Cause, Receiver};
use sender::{Handed, Handing, OfferError, Offered, Passed, Passing, Sender, Terms};
use telegram::kinds::{write_accept, write_ack, write_test};
use telegram::payload::Payload;
use telegram::time::less;

// What was agreed and set: the test interval (0 is no tests) in tenths of a millisecond, the terms of sending, the unanswered
// tests allowed, and the fields of our own A0 and A1.
#[derive(Clone, Copy)]
pub struct Parameters {
    pub interval: u32,
    pub terms: Terms,
    pub allowed: u8,
    pub own: telegram::kinds::Parameters,
}

// The state of the tests. A timer at 0 does not run. Each flag is a fact of its own.
#[derive(Clone, Copy)]
pub struct Tests {
    // What is left of the wait for an A1 (own T1).
    pub wait: u32,
    // What is left of the test interval.
    pub interval: u32,
    // A test was handed over and no A1 has come since.
    pub out: bool,
    // Its wait ran out, and another is due.
    pub again: bool,
    // Waits that ran out since the last A1.
    pub unanswered: u8,
}

// The channel. Its calls stand below, but for the arrival of a telegram: `arrival::arrive`.
#[derive(Clone, Copy)]
pub struct Channel {
    pub sender: Sender,
    pub tests: Tests,
    pub parameters: Parameters,
    pub receiver: Receiver,
    // Our A1 is due, in answer to a test.
    pub accept: bool,
}

// What a call is answered with.
#[derive(Clone, Copy)]
pub enum Answer {
    // As asked.
    Good,
    // An Ack that finished the message in sending.
    Done,
    // The peer disconnected.
    Disconnected,
    Malformed,
    BlockSize,
    NotDue,
    // A message is unfinished, or one waits untaken.
    Busy,
    BadLength,
    // The lent buffer is shorter than the declared length.
    ShortBuffer,
    // The lent message is not of the accepted length.
    OtherLength,
    // Repeats or tests are used up.
    UsedUp,
    Broken(Cause),
    // Data out of place, or an Ack that changes nothing.
    NoChange,
}

// What an answer says: its number in the protocol's table, whether it says that the message in sending is done, and whether
// the peer has disconnected. The number is the table's own, which rows and programs name, so it is no enum.
#[derive(Clone, Copy)]
pub struct Said {
    pub number: u8,
    pub done: bool,
    pub disconnected: bool,
}

// What a call answers, and the channel that it leaves.
#[derive(Clone, Copy)]
pub struct Answered {
    pub answer: Answer,
    pub channel: Channel,
}

// A telegram to hand over, if there is one.
#[derive(Clone, Copy)]
pub struct Due {
    pub answer: Answer,
    pub payload: Option<Payload>,
    pub channel: Channel,
}

// A number of the table with nothing more to say: `open_end` says more of an answer, so its `plain` is of another type.
fn plain(number: u8) -> Said
    ensures { result ≡ plain number }
{
    Said {
        number,
        done: false,
        disconnected: false,
    }
}

// An answer's number and the values that it carries.
pub fn say(answer: Answer) -> Said
    ensures { result ≡ said answer }
{
    match answer {
        Answer::Good => plain(0),
        Answer::Done => Said {
            number: 0,
            done: true,
            disconnected: false,
        },
        Answer::Disconnected => Said {
            number: 0,
            done: false,
            disconnected: true,
        },
        Answer::Malformed => plain(1),
        Answer::BlockSize => plain(2),
        Answer::NotDue => plain(4),
        Answer::Busy => plain(5),
        Answer::BadLength => plain(6),
        Answer::ShortBuffer => plain(7),
        Answer::OtherLength => plain(7),
        Answer::UsedUp => plain(8),
        Answer::Broken(_) => plain(9),
        Answer::NoChange => plain(12),
    }
}

fn offer_answer(note: Result<(), OfferError>) -> Answer
    ensures { result ≡ offer_answer note }
{
    match note {
        Ok(()) => Answer::Good,
        Err(OfferError::Busy) => Answer::Busy,
        Err(OfferError::BadLength) => Answer::BadLength,
    }
}

fn repeats_used_up(note: Passing) -> bool
    ensures { result ≡ repeats_used_up note }
{
    matches!(note, Passing::UsedUp)
}

impl Tests {
    // Whether the wait for an A1 runs out.
    fn wait_ends(self, tenths: u64) -> bool
        ensures { result ≡ wait_ends self tenths }
    {
        (self.wait != 0) & (self.wait as u64 <= tenths)
    }

    // The timers run on.
    fn later(mut self, tenths: u64) -> Tests
        ensures { result ≡ later self tenths }
    {
        self.wait = less(self.wait, tenths);
        self.interval = less(self.interval, tenths);
        self
    }
}

impl Channel {
    // What the A1 that opens a channel leaves.
    pub fn fresh(parameters: Parameters) -> Channel
        ensures { result ≡ fresh parameters }
    {
        Channel {
            parameters,
            sender: Sender::fresh(),
            receiver: Receiver::fresh(),
            tests: Tests {
                out: false,
                again: false,
                wait: 0,
                unanswered: 0,
                interval: parameters.interval,
            },
            accept: false,
        }
    }

    // The interval starts again.
    pub fn restarted(mut self) -> Channel
        ensures { result ≡ restarted self }
    {
        self.tests.interval = self.parameters.interval;
        self
    }

    // Time passes.
    pub fn elapse(self, tenths: u64) -> Answered
        ensures { result ≡ elapsed self tenths }
    {
        let mut tests = self.tests;
        let Passed { note, sender } = self.sender.pass(self.parameters.terms, tenths);
        if repeats_used_up(note) {
            return Answered {
                answer: Answer::UsedUp,
                channel: self,
            };
        }
        if !tests.wait_ends(tenths) {
            return self.went(sender, tests.later(tenths));
        }
        if tests.unanswered < self.parameters.allowed {
            tests.again = true;
            tests.wait = 0;
            tests.unanswered += 1;
            tests.interval = less(tests.interval, tenths);
            return self.went(sender, tests);
        }
        Answered {
            answer: Answer::UsedUp,
            channel: self,
        }
    }

    // The timers ran on.
    fn went(mut self, sender: Sender, tests: Tests) -> Answered
        ensures { result ≡ went self sender tests }
    {
        self.sender = sender;
        self.tests = tests;
        Answered {
            answer: Answer::Good,
            channel: self,
        }
    }

    // A message of len bytes is offered.
    #[tactic(auto, unfolding(crate::specs::Opened::sent))]
    pub fn send(mut self, len: usize) -> Answered
        ensures { result ≡ sent longest self len }
    {
        let Offered { note, sender } = self.sender.offer(len);
        self.sender = sender;
        Answered {
            answer: offer_answer(note),
            channel: self,
        }
    }

    // Whether a test is due.
    fn test_due(self) -> bool
        ensures { result ≡ test_due self }
    {
        let tests = self.tests;
        !self.sender.has_unacknowledged()
            & (tests.again | (!tests.out & (0 < self.parameters.interval) & (tests.interval == 0)))
    }

    // A telegram is asked for, and the message in sending is lent.
    #[tactic(auto, using(laws::proofs::Branches::branches), unfolding(crate::specs::Opened::due))]
    pub fn due(self, message: &[u8]) -> Due
        ensures { result ≡ due self message.now }
    {
        if self.accept {
            return self.hand_accept();
        }
        if self.test_due() {
            return self.hand_test();
        }
        if self.receiver.ack.due {
            return self.hand_ack();
        }
        self.hand_data(message)
    }

    // Our A1 is handed over.
    fn hand_accept(mut self) -> Due
        ensures { result ≡ hand_accept self }
    {
        self.accept = false;
        self.hand_over(write_accept(self.parameters.own))
    }

    // A test is handed over.
    fn hand_test(mut self) -> Due
        ensures { result ≡ hand_test self }
    {
        self.tests.out = true;
        self.tests.again = false;
        self.tests.wait = self.parameters.terms.t1;
        self.hand_over(write_test())
    }

    // The due Ack is handed over.
    fn hand_ack(mut self) -> Due
        ensures { result ≡ hand_ack self }
    {
        let ack = self.receiver.ack;
        self.receiver = self.receiver.hand_ack();
        self.hand_over(write_ack(ack.ready, ack.number))
    }

    // Data is handed over, if it is due.
    fn hand_data(mut self, message: &[u8]) -> Due
        ensures { result ≡ hand_data self message.now }
    {
        let Handed { note, sender } = self.sender.hand(self.parameters.terms, message);
        match note {
            Handing::Frame(payload) => {
                self.sender = sender;
                self.hand_over(payload)
            }
            Handing::Nothing => self.hand_nothing(Answer::Good),
            Handing::OtherLength => self.hand_nothing(Answer::OtherLength),
        }
    }

    // A telegram is handed over.
    fn hand_over(self, payload: Payload) -> Due
        ensures { result ≡ hand_over self payload }
    {
        Due {
            answer: Answer::Good,
            payload: Some(payload),
            channel: self.restarted(),
        }
    }

    // Nothing is handed over.
    fn hand_nothing(self, answer: Answer) -> Due
        ensures { result ≡ hand_nothing self answer }
    {
        Due {
            answer,
            payload: None,
            channel: self,
        }
    }
}
