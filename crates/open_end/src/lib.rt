// An open end: a channel with the two CAN identifiers that it goes by. It is the same on the side that opened it and on the
// car's side; opening, closing and who is listened to belong to the record above.
//
// Every call is good for every byte. What an answer means for the record above is said by `course_of`.
#![tactic(auto)]

ghost use Rattle.std.specs.Prelude.{◌≡◌, length, take, drop};
ghost use Rattle.telegram.specs.Cutting.{longest};
ghost use Rattle.open_end.specs.OpenEnd.{no_channel, unopened, fresh_end, course_of, arrived_at, buffered_at, elapsed_at, frame_on, due_at, sent_at, take_answer, taken_at};

use channel::{Channel, Parameters};
use receiver::{TakeError, Took};
use sender::Terms;
use telegram::cutting::{Message, NONE};
use telegram::kinds::{Parameters as Fields, Telegram};
use telegram::payload::Payload;

pub mod answers;

// A CAN frame to hand over.
#[derive(Clone, Copy)]
pub struct Frame {
    pub id: u16,
    pub payload: Payload,
}

// The ID that we transmit on, the one that we receive on, and the channel.
#[derive(Clone, Copy)]
pub struct OpenEnd {
    pub transmit: u16,
    pub receive: u16,
    pub channel: Channel,
}

// What an answer of the channel means for the record above.
#[derive(Clone, Copy)]
pub enum Course {
    GoesOn,
    // Repeats or tests are used up: it is closed, with nothing due.
    GivenUp,
    // The peer disconnected: it is closed, with one A8 due.
    Leaves,
}

// What a call answers, and the end that it leaves.
#[derive(Clone, Copy)]
pub struct Answered {
    pub answer: channel::Answer,
    pub end: OpenEnd,
}

// A frame to hand over, if there is one.
#[derive(Clone, Copy)]
pub struct Due {
    pub answer: channel::Answer,
    pub frame: Option<Frame>,
    pub end: OpenEnd,
}

// What taking a message comes to: the message shown, its length and its flags, and none with a refusal.
#[derive(Clone, Copy)]
pub struct TakeStep {
    pub answer: channel::Answer,
    pub message: Message,
    pub end: OpenEnd,
}

// The bytes behind the first.
fn behind_first(bytes: &[u8]) -> &[u8]
    ensures { result.now ≡ drop 1 bytes.now }
{
    if bytes.len() == 0 {
        return bytes;
    }
    &bytes[1..]
}

// The first len bytes of a buffer, where they lie; of a shorter one, all.
pub fn shown<'a>(buffer: &'a [u8], len: usize) -> &'a [u8]
    ensures { (result.ref_ptr ≡ buffer.entry.ref_ptr) × (result.now ≡ take len buffer.now) }
{
    if buffer.len() < len {
        return buffer;
    }
    &buffer[..len]
}

// A telegram, if there is one, as a frame on an ID.
fn frame_on(id: u16, payload: Option<Payload>) -> Option<Frame>
    ensures { result ≡ frame_on id payload }
{
    payload.map(|payload| Frame { id, payload })
}

fn take_answer(taking: Result<Message, TakeError>) -> channel::Answer
    ensures { result ≡ take_answer taking }
{
    match taking {
        Ok(_) => channel::Answer::Good,
        Err(TakeError::NoneComplete) => channel::Answer::Busy,
        Err(TakeError::ShortBuffer) => channel::Answer::ShortBuffer,
    }
}

// The channel of an end that is not open.
fn no_channel() -> Channel
    ensures { result ≡ no_channel }
{
    Channel::fresh(Parameters {
        terms: Terms {
            block: 0,
            t1: 0,
            t3: 0,
            repeats: 0,
            t_wait: 0,
        },
        interval: 0,
        allowed: 0,
        own: Fields {
            block: 0,
            t1: 0,
            t3: 0,
        },
    })
}

// What an answer of the channel means for the record above.
pub fn course_of(answer: channel::Answer) -> Course
    ensures { result ≡ course_of answer }
{
    let said = channel::say(answer);
    let number = said.number;
    let disconnected = said.disconnected;
    if number == 8 {
        return Course::GivenUp;
    }
    if disconnected {
        return Course::Leaves;
    }
    Course::GoesOn
}

impl OpenEnd {
    // An end that is not open, with the IDs that are known of it.
    pub fn unopened(transmit: u16, receive: u16) -> OpenEnd
        ensures { result ≡ unopened transmit receive }
    {
        OpenEnd {
            transmit,
            receive,
            channel: no_channel(),
        }
    }

    // An end that has just been opened.
    pub fn fresh(transmit: u16, receive: u16, parameters: Parameters) -> OpenEnd
        ensures { result ≡ fresh_end transmit receive parameters }
    {
        OpenEnd {
            transmit,
            receive,
            channel: Channel::fresh(parameters),
        }
    }

    // A sorted telegram arrives, with all its bytes, and a buffer is lent.
    pub fn arrive(mut self, telegram: Telegram, bytes: &[u8], buffer: &mut [u8]) -> Answered
        ensures value { result ≡ arrived_at longest self telegram bytes.now (length buffer.old) }
        ensures buffer_after { buffer.new ≡ buffered_at longest self telegram bytes.now buffer.old }
    {
        let channel::Answered { answer, channel } = arrival::arrive(
            self.channel,
            telegram,
            behind_first(bytes),
            buffer,
        );
        self.channel = channel;
        Answered { answer, end: self }
    }

    // Time passes.
    pub fn elapse(mut self, tenths: u64) -> Answered
        ensures { result ≡ elapsed_at self tenths }
    {
        let channel::Answered { answer, channel } = self.channel.elapse(tenths);
        self.channel = channel;
        Answered { answer, end: self }
    }

    // What is due, on the transmit ID: at most one frame, the message in sending being lent.
    pub fn due(mut self, message: &[u8]) -> Due
        ensures { result ≡ due_at self message.now }
    {
        let channel::Due {
            answer,
            payload,
            channel,
        } = self.channel.due(message);
        self.channel = channel;
        Due {
            answer,
            frame: frame_on(self.transmit, payload),
            end: self,
        }
    }

    // A message of len bytes to send.
    pub fn send(mut self, len: usize) -> Answered
        ensures { result ≡ sent_at longest self len }
    {
        let channel::Answered { answer, channel } = self.channel.send(len);
        self.channel = channel;
        Answered { answer, end: self }
    }

    // What taking a message comes to, in a lent buffer of room bytes.
    #[tactic(auto, unfolding(crate::specs::OpenEnd::taken_at))]
    pub fn take_step(mut self, room: usize) -> TakeStep
        ensures { result ≡ taken_at self room }
    {
        let Took { message, receiver } = self.channel.receiver.take(room);
        self.channel.receiver = receiver;
        TakeStep {
            answer: take_answer(message),
            message: message.unwrap_or(NONE),
            end: self,
        }
    }
}
