// The sending half of an open channel, by itself: one message at a time, in blocks, each block acknowledged.
//
// What it answers: to a message offered, accepted, busy or a length it does not send; to an Ack, what it did; to time,
// whether a wait ran out; to a call for a frame, the frame, nothing, or that another length was lent.
// Where repeats are used up it says so and leaves itself as it was: the channel is lost then.
#![tactic(auto)]

ghost use Rattle.std.specs.Prelude.{◌≡◌, ◌<◌};
ghost use Rattle.telegram.specs.Cutting.{longest};
ghost use Rattle.sender.specs.Sending.{fresh, offered, on_ack, heard, passed, quiet, frame_due, first_number, advanced, no_frame, handed, unacknowledged};

use telegram::cutting::{LONGEST, asks_at, frame, frames};
use telegram::kinds::Telegram;
use telegram::payload::Payload;
use telegram::time::less;

// What was agreed and set for sending: the block size, our own T1 and the peer's T3 in tenths of a millisecond, the
// repeats allowed to a block, and how long a peer that is not ready holds the data back (T_WAIT).
#[derive(Clone, Copy)]
pub struct Terms {
    pub t1: u32,
    pub t3: u32,
    pub t_wait: u32,
    pub block: u8,
    pub repeats: u8,
}

// The state of sending. Frames are counted from the start of the message; a timer at 0 does not run. No option holds them: each call is
// promised on every record, with a timer beside no message too.
#[derive(Clone, Copy)]
pub struct Sender {
    // Length of the message in sending; 0 is none.
    pub length: u16,
    // Frames ever handed over.
    pub high: u16,
    // The next frame to hand over.
    pub next: u16,
    // Frames acknowledged.
    pub acked: u16,
    // The number of the oldest unacknowledged frame.
    pub oldest: u8,
    // Repeats of the present block since its last progress.
    pub count: u8,
    // What is left of the wait for an Ack (own T1).
    pub wait: u32,
    // What is left of the hold that a not-ready Ack began (T_WAIT).
    pub hold: u32,
    // What is left of the gap between data frames (the peer's T3).
    pub gap: u32,
}

// Why an offered message is refused.
#[derive(Clone, Copy)]
pub enum OfferError {
    // One is in sending.
    Busy,
    // It has no byte, or more than the longest.
    BadLength,
}

#[derive(Clone, Copy)]
pub struct Offered {
    pub note: Result<(), OfferError>,
    pub sender: Sender,
}

// What an Ack did. No result: what it did to the sending has four names of its own, and beside them are two refusals.
#[derive(Clone, Copy)]
pub enum Hearing {
    // It acknowledged some frames, and the message goes on.
    Part,
    // It acknowledged the last frame.
    Done,
    // Not ready, and nothing acknowledged: data is held.
    Held,
    // It changed nothing.
    Nothing,
    // Not ready once more than the repeats allow.
    UsedUp,
    // The telegram is no Ack.
    NoAck,
}

#[derive(Clone, Copy)]
pub struct Heard {
    pub note: Hearing,
    pub sender: Sender,
}

// What passing time did. No result: that a block is sent again is no refusal, though its wait ran out.
#[derive(Clone, Copy)]
pub enum Passing {
    Quiet,
    // The wait for an Ack ran out, and the block is sent again from the oldest unacknowledged frame.
    Again,
    // It ran out once more than the repeats allow.
    UsedUp,
}

#[derive(Clone, Copy)]
pub struct Passed {
    pub note: Passing,
    pub sender: Sender,
}

// What a call for a frame found. It is no `Result<Option<Payload>, _>`, which would say the same three things without their names.
#[derive(Clone, Copy)]
pub enum Handing {
    Frame(Payload),
    // No data is due now.
    Nothing,
    // Data is due, and the lent message is not of the accepted length.
    OtherLength,
}

#[derive(Clone, Copy)]
pub struct Handed {
    pub note: Handing,
    pub sender: Sender,
}

impl Sender {
    // What the A1 that opens a channel leaves.
    pub fn fresh() -> Sender
        ensures { result ≡ fresh }
    {
        Sender {
            length: 0,
            acked: 0,
            high: 0,
            next: 0,
            oldest: 0,
            count: 0,
            wait: 0,
            hold: 0,
            gap: 0,
        }
    }

    // A message of len bytes is offered.
    #[tactic(auto, using(laws::proofs::Branches::branches), unfolding(crate::specs::Sending::offered))]
    pub fn offer(mut self, len: usize) -> Offered
        ensures { result ≡ offered longest self len }
    {
        if self.length != 0 {
            return Offered {
                note: Err(OfferError::Busy),
                sender: self,
            };
        }
        if len == 0 || (LONGEST as usize) < len {
            return Offered {
                note: Err(OfferError::BadLength),
                sender: self,
            };
        }
        self.length = len as u16;
        self.acked = 0;
        self.high = 0;
        self.next = 0;
        self.count = 0;
        self.wait = 0;
        Offered {
            note: Ok(()),
            sender: self,
        }
    }

    // A sorted telegram arrives.
    #[tactic(auto, unfolding(crate::specs::Sending::heard))]
    pub fn hear(self, terms: Terms, telegram: Telegram) -> Heard
        ensures { result ≡ heard terms self telegram }
    {
        let Telegram::Ack { ready, number } = telegram else {
            return Heard {
                note: Hearing::NoAck,
                sender: self,
            };
        };
        self.on_ack(terms, ready, number)
    }

    // An Ack, ready or not, with its number.
    #[tactic(auto, using(laws::proofs::Branches::branches), unfolding(crate::specs::Sending::on_ack, crate::specs::Sending::distance))]
    fn on_ack(mut self, terms: Terms, ready: bool, number: u8) -> Heard
        ensures { result ≡ on_ack terms self ready number }
    {
        let length = self.length;
        let acked = self.acked;
        let high = self.high;
        let oldest = self.oldest;
        let count = self.count;
        let repeats = terms.repeats;
        if length == 0 || 0 < self.hold {
            return Heard {
                note: Hearing::Nothing,
                sender: self,
            };
        }
        let d = (number % 16 + 16 - oldest % 16) % 16;
        if d == 0 {
            if ready {
                return Heard {
                    note: Hearing::Nothing,
                    sender: self,
                };
            }
            if count < repeats {
                self.next = acked;
                self.count = count + 1;
                self.wait = 0;
                self.hold = terms.t_wait;
                return Heard {
                    note: Hearing::Held,
                    sender: self,
                };
            }
            return Heard {
                note: Hearing::UsedUp,
                sender: self,
            };
        }
        let reached = acked as usize + d as usize;
        if (high as usize) < reached {
            return Heard {
                note: Hearing::Nothing,
                sender: self,
            };
        }
        self.oldest = ((oldest as u16 + d as u16) % 16) as u8;
        self.count = 0;
        self.wait = 0;
        self.hold = if ready { 0 } else { terms.t_wait };
        if reached == frames(length as usize) {
            self.length = 0;
            self.acked = 0;
            self.high = 0;
            self.next = 0;
            return Heard {
                note: Hearing::Done,
                sender: self,
            };
        }
        self.acked = reached as u16;
        self.next = reached as u16;
        Heard {
            note: Hearing::Part,
            sender: self,
        }
    }

    // Time passes.
    #[tactic(auto, using(laws::proofs::Branches::branches), unfolding(crate::specs::Sending::passed))]
    pub fn pass(mut self, terms: Terms, tenths: u64) -> Passed
        ensures { result ≡ passed terms self tenths }
    {
        if self.wait == 0 || tenths < self.wait as u64 {
            return self.quiet(tenths);
        }
        if self.count < terms.repeats {
            self.next = self.acked;
            self.count += 1;
            self.wait = 0;
            self.hold = less(self.hold, tenths);
            self.gap = less(self.gap, tenths);
            return Passed {
                note: Passing::Again,
                sender: self,
            };
        }
        Passed {
            note: Passing::UsedUp,
            sender: self,
        }
    }

    // The timers run on.
    fn quiet(mut self, tenths: u64) -> Passed
        ensures { result ≡ quiet self tenths }
    {
        self.wait = less(self.wait, tenths);
        self.hold = less(self.hold, tenths);
        self.gap = less(self.gap, tenths);
        Passed {
            note: Passing::Quiet,
            sender: self,
        }
    }

    // A frame is asked for, and the message in sending is lent.
    #[tactic(auto, using(laws::proofs::Branches::branches), unfolding(crate::specs::Sending::handed))]
    pub fn hand(self, terms: Terms, message: &[u8]) -> Handed
        ensures { result ≡ handed terms self message.now }
    {
        if !self.frame_due() {
            return self.no_frame(Handing::Nothing);
        }
        if message.len() != self.length as usize {
            return self.no_frame(Handing::OtherLength);
        }
        let payload = frame(message, terms.block, self.first_number(), self.next);
        Handed {
            note: Handing::Frame(payload),
            sender: self.advanced(terms),
        }
    }

    // Whether a frame is due.
    #[tactic(auto, unfolding(crate::specs::Sending::frame_due))]
    fn frame_due(self) -> bool
        ensures { result ≡ frame_due self }
    {
        (self.length != 0)
            & (self.wait == 0)
            & (self.hold == 0)
            & (self.gap == 0)
            & ((self.next as usize) < frames(self.length as usize))
    }

    // No frame, and nothing changes.
    fn no_frame(self, why: Handing) -> Handed
        ensures { result ≡ no_frame self why }
    {
        Handed {
            note: why,
            sender: self,
        }
    }

    // The number of the message's first frame.
    #[tactic(auto, unfolding(crate::specs::Sending::first_number))]
    fn first_number(self) -> u8
        ensures { result ≡ first_number self }
    {
        (self.oldest % 16 + 16 - (self.acked % 16) as u8) % 16
    }

    // The next frame handed over.
    fn advanced(mut self, terms: Terms) -> Sender
        requires { self.next < 65535 }
        ensures { result ≡ advanced terms self }
    {
        let length = self.length;
        let next = self.next;
        let asks = asks_at(terms.block, length as usize, next);
        self.high = self.high.max(next + 1);
        self.next = next + 1;
        self.wait = if asks { terms.t1 } else { 0 };
        self.gap = terms.t3;
        self
    }

    // Whether a frame was handed over and is not acknowledged.
    pub fn has_unacknowledged(self) -> bool
        ensures { result ≡ unacknowledged self }
    {
        self.acked < self.high
    }
}
