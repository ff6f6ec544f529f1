// The receiving half of an open channel, by itself: frames in their order become messages in the lent buffer.
//
// What it answers to a data telegram is finer than the protocol's number: used, complete, thrown away, out of place, one
// waits untaken, buffer short (on a first or a later frame), broken and by which of five causes.
// Only a frame that is used writes to the buffer, behind what already stands there.
#![tactic(auto)]

ghost use Rattle.std.specs.Prelude.{◌≡◌, ◌+◌, ◌≤◌, length, false};
ghost use Rattle.telegram.specs.Cutting.{longest};
ghost use Rattle.receiver.specs.Inside.{in_order, brought_by, receiver_after};
ghost use Rattle.receiver.specs.Receiving.{fresh, waiting, following, settled, kept, numbered, discarded, filled, on_data, received, pasted, is_used, buffered, returned, ack_handed, took};

use telegram::cutting::{LONGEST, Message, NONE, declared};
use telegram::kinds::Telegram;

// Where the receiver stands between two frames.
#[derive(Clone, Copy)]
pub struct Standing {
    // Throwing away, up to and including the next EOM.
    pub discarding: bool,
    // The expected number.
    pub expected: u8,
    // How many bytes of the message begun are in the buffer.
    pub fill: u16,
    // The message begun.
    pub begun: Message,
}

// An Ack that is due, fixed when it became due. A flag and no option, since every call is promised of a record that has
// a number beside a flag that is off, and `reachable` bounds that number too (`Receives`).
#[derive(Clone, Copy)]
pub struct AckDue {
    pub due: bool,
    pub ready: bool,
    pub number: u8,
}

#[derive(Clone, Copy)]
pub struct Receiver {
    pub at: Standing,
    // The place that a break returns to.
    pub back: Standing,
    // The complete message that was not taken yet.
    pub complete: Message,
    pub ack: AckDue,
}

// Why a message is broken.
#[derive(Clone, Copy)]
pub enum Cause {
    // A first frame of two bytes.
    TooShort,
    // Declared length 0 or over the limit.
    BadLength,
    // Bytes beyond the declared length.
    TooMany,
    // No EOM though the bytes have reached the declared length.
    NoEnd,
    // EOM with too few bytes.
    EarlyEnd,
}

// What became of a data telegram. No result: a frame that is not used can ask for an Ack as one that is.
#[derive(Clone, Copy)]
pub enum Receipt {
    Used,
    Complete,
    ThrownAway,
    // The expected number.
    OutOfPlace(u8),
    Untaken,
    ShortFirst,
    ShortLater,
    Broken(Cause),
    // The telegram is no data.
    NoData,
}

#[derive(Clone, Copy)]
pub struct Received {
    pub note: Receipt,
    pub receiver: Receiver,
}

// What a frame brings: its message, and how many bytes of that are then there.
#[derive(Clone, Copy)]
struct Brought {
    message: Message,
    fill: usize,
}

// Why no message is taken.
#[derive(Clone, Copy)]
pub enum TakeError {
    NoneComplete,
    // The lent buffer is shorter than the declared length.
    ShortBuffer,
}

#[derive(Clone, Copy)]
pub struct Took {
    // The message shown.
    pub message: Result<Message, TakeError>,
    pub receiver: Receiver,
}

// The number behind a number.
fn following(number: u8) -> u8
    ensures { result ≡ following number }
{
    (number % 16 + 1) % 16
}

// Copies bytes into the buffer from a place on: that part of it is lent to the copying function.
fn paste(payload: &[u8], buffer: &mut [u8], at: usize)
    requires { at + length payload.now ≤ length buffer.old }
    ensures { buffer.new ≡ pasted buffer.old at payload.now }
{
    let part = &mut buffer[at..at + payload.len()];
    part.copy_from_slice(payload);
}

// What becomes of a frame that brings a message to fill bytes, in a buffer of room bytes.
fn outcome(last: bool, message: Message, fill: usize, room: usize) -> Receipt
    ensures { result ≡ (filled fresh false last message fill room).note }
{
    let length = message.length as usize;
    if length < fill {
        Receipt::Broken(Cause::TooMany)
    } else if !last & (fill == length) {
        Receipt::Broken(Cause::NoEnd)
    } else if last & (fill < length) {
        Receipt::Broken(Cause::EarlyEnd)
    } else if room < length {
        Receipt::ShortFirst
    } else if last {
        Receipt::Complete
    } else {
        Receipt::Used
    }
}

impl Receipt {
    // Whether the frame was used: only then its bytes go into the buffer.
    pub fn is_used(self) -> bool
        ensures { result ≡ is_used self }
    {
        matches!(self, Receipt::Used | Receipt::Complete)
    }
}

impl Receiver {
    // What the A1 that opens a channel leaves.
    pub fn fresh() -> Receiver
        ensures { result ≡ fresh }
    {
        let idle = Standing {
            expected: 0,
            discarding: false,
            begun: NONE,
            fill: 0,
        };
        Receiver {
            at: idle,
            back: idle,
            complete: NONE,
            ack: AckDue {
                due: false,
                ready: false,
                number: 0,
            },
        }
    }

    // Whether a complete message waits untaken.
    pub fn is_waiting(self) -> bool
        ensures { result ≡ waiting self }
    {
        let complete = self.complete;
        0 < complete.length
    }

    // A sorted telegram arrives, with the bytes behind its first one; a used frame's go into the lent buffer.
    pub fn receive(self, telegram: Telegram, payload: &[u8], buffer: &mut [u8]) -> Received
        ensures value { result ≡ received longest self telegram payload.now (length buffer.old) }
        ensures buffer_after { buffer.new ≡ buffered self (received longest self telegram payload.now (length buffer.old)).note payload.now buffer.old }
    {
        let received = self.judge(telegram, payload, buffer.len());
        let note = received.note;
        if !note.is_used() {
            return received;
        }
        let at = self.at;
        let begun = at.begun;
        if begun.length == 0 {
            paste(&payload[2..], buffer, 0);
            return received;
        }
        paste(payload, buffer, at.fill as usize);
        received
    }

    // What becomes of a telegram, in a buffer of room bytes.
    #[tactic(auto, unfolding(crate::specs::Receiving::received))]
    fn judge(self, telegram: Telegram, payload: &[u8], room: usize) -> Received
        ensures { result ≡ received longest self telegram payload.now room }
    {
        let Telegram::Data { asks, last, number } = telegram else {
            return Received {
                note: Receipt::NoData,
                receiver: self,
            };
        };
        self.on_data(asks, last, number, payload, room)
    }

    // Data, in the order of the checks: out of place, one waits untaken, thrown away, a first or a later frame.
    #[tactic(auto, using(laws::proofs::Branches::branches), unfolding(crate::specs::Receiving::on_data))]
    fn on_data(self, asks: bool, last: bool, number: u8, payload: &[u8], room: usize) -> Received
        ensures { result ≡ on_data longest self asks last number payload.now room }
    {
        let at = self.at;
        let kept = self.kept(asks);
        if number != at.expected {
            return Received {
                note: Receipt::OutOfPlace(at.expected),
                receiver: kept,
            };
        }
        if self.is_waiting() {
            return Received {
                note: Receipt::Untaken,
                receiver: kept,
            };
        }
        if at.discarding {
            return Received {
                note: Receipt::ThrownAway,
                receiver: self.discard(asks, last),
            };
        }
        self.in_order(asks, last, payload, room)
    }

    // A first or a later frame: what becomes of it is judged first, over numbers alone, and then one receiver is built. Whole
    // records that meet from many branches are slow.
    fn in_order(self, asks: bool, last: bool, payload: &[u8], room: usize) -> Received
        ensures { result ≡ in_order longest self asks last payload.now room }
    {
        let brought = self.brought(payload);
        let note = self.verdict(last, brought, payload, room);
        Received {
            note,
            receiver: self.after(note, asks, last, brought),
        }
    }

    // What a frame brings to the message begun, or to the one that it begins.
    #[tactic(auto, using(laws::proofs::Branches::branches), unfolding(crate::specs::Inside::brought_by))]
    fn brought(self, payload: &[u8]) -> Brought
        ensures { result ≡ brought_by self payload.now }
    {
        let at = self.at;
        let begun = at.begun;
        if begun.length != 0 {
            return Brought {
                message: begun,
                fill: at.fill as usize + payload.len(),
            };
        }
        if payload.len() < 2 {
            return Brought {
                message: NONE,
                fill: 0,
            };
        }
        Brought {
            message: declared(payload[0], payload[1]),
            fill: payload.len() - 2,
        }
    }

    // What becomes of a first or a later frame, in the order of the checks.
    fn verdict(self, last: bool, brought: Brought, payload: &[u8], room: usize) -> Receipt
        requires { brought ≡ brought_by self payload.now }
        ensures { result ≡ (in_order longest self false last payload.now room).note }
    {
        let at = self.at;
        let begun = at.begun;
        let first = begun.length == 0;
        let message = brought.message;
        let length = message.length;
        let size = payload.len();
        if first & (size < 2) {
            return Receipt::Broken(Cause::TooShort);
        }
        if first & ((length == 0) | (LONGEST < length)) {
            return Receipt::Broken(Cause::BadLength);
        }
        if !first & (room < length as usize) {
            return Receipt::ShortLater;
        }
        outcome(last, message, brought.fill, room)
    }

    // The receiver after a first or a later frame, by what became of it.
    #[tactic(auto, using(laws::proofs::Branches::branches), unfolding(crate::specs::Inside::receiver_after))]
    fn after(self, note: Receipt, asks: bool, last: bool, brought: Brought) -> Receiver
        ensures { result ≡ receiver_after self note asks last brought }
    {
        let complete = self.complete;
        let m = brought.message;
        match note {
            Receipt::Used => {
                self.numbered(
                    asks,
                    false,
                    false,
                    m,
                    (brought.fill % 65536) as u16,
                    complete,
                )
            }
            Receipt::Complete => self.numbered(asks, true, false, NONE, 0, m),
            Receipt::ShortFirst | Receipt::Broken(_) => self.discard(asks, last),
            Receipt::ThrownAway
            | Receipt::OutOfPlace(_)
            | Receipt::Untaken
            | Receipt::ShortLater
            | Receipt::NoData => self,
        }
    }

    // A frame whose message is thrown away.
    fn discard(self, asks: bool, last: bool) -> Receiver
        ensures { result ≡ discarded self asks last }
    {
        let complete = self.complete;
        self.numbered(asks, last, !last, NONE, 0, complete)
    }

    // A frame that is numbered: the number behind it is expected.
    #[tactic(auto, unfolding(crate::specs::Receiving::numbered))]
    fn numbered(
        self,
        asks: bool,
        last: bool,
        discarding: bool,
        begun: Message,
        fill: u16,
        complete: Message,
    ) -> Receiver
        ensures { result ≡ numbered self asks last discarding begun fill complete }
    {
        let at = self.at;
        let standing = Standing {
            expected: following(at.expected),
            discarding,
            begun,
            fill,
        };
        self.settled(asks, last, standing, complete)
    }

    // A frame that is not used.
    fn kept(self, asks: bool) -> Receiver
        ensures { result ≡ kept self asks }
    {
        let at = self.at;
        let complete = self.complete;
        self.settled(asks, false, at, complete)
    }

    // What a frame leaves: an Ack that becomes due, or a message that ends, moves the place that a break returns to.
    #[tactic(auto, using(laws::proofs::Branches::branches), unfolding(crate::specs::Receiving::settled))]
    fn settled(mut self, asks: bool, last: bool, standing: Standing, complete: Message) -> Receiver
        ensures { result ≡ settled self asks last standing complete }
    {
        let waits = self.is_waiting();
        self.at = standing;
        self.complete = complete;
        if asks {
            self.ack = AckDue {
                due: true,
                ready: !waits,
                number: standing.expected,
            };
        }
        if asks || last {
            self.back = standing;
        }
        self
    }

    // A break: back to where an Ack last became due or a message last ended.
    pub fn on_break(mut self) -> Receiver
        ensures { result ≡ returned self }
    {
        let back = self.back;
        self.at = back;
        self
    }

    // The due Ack was handed over.
    pub fn hand_ack(mut self) -> Receiver
        ensures { result ≡ ack_handed self }
    {
        let ack = AckDue {
            due: false,
            ready: false,
            number: 0,
        };
        self.ack = ack;
        self
    }

    // Takes the complete message, in a lent buffer of room bytes.
    #[tactic(auto, using(laws::proofs::Branches::branches), unfolding(crate::specs::Receiving::took))]
    pub fn take(mut self, room: usize) -> Took
        ensures { result ≡ took self room }
    {
        let complete = self.complete;
        if !self.is_waiting() {
            return Took {
                message: Err(TakeError::NoneComplete),
                receiver: self,
            };
        }
        if room < complete.length as usize {
            return Took {
                message: Err(TakeError::ShortBuffer),
                receiver: self,
            };
        }
        self.complete = NONE;
        Took {
            message: Ok(complete),
            receiver: self,
        }
    }
}
