// One of two ends that both send, and what is known of the messages that it sends.
//
// Message number k (from 0) that an end sends depends on the end's key and on k alone, so that none has to be kept:
// with m = (key + 379 * k) mod 1000 it has 1 + m bytes if m < 100, else 1 + m mod 12, and its byte at i (from 0) is
// (key + 101 * k + 37 * i) mod 256.
use crate::queue::Queue;
use channel::{Answer, Answered, Channel, Parameters};
use sender::{Passing, Terms};
use std::{array, fmt};
use telegram::cutting::Message;
use telegram::kinds;
use telegram::payload::Payload;
use text::reading;

// The times, in tenths of a millisecond.
pub(crate) const GAP: u32 = 50;

const HOLD: u32 = 200;

const INTERVAL: u32 = 400;

pub(crate) const WAIT: u32 = 1000;

// The size of a buffer, which has room for every message.
const ROOM: usize = 128;

// What becomes of the first frame of a link.
#[derive(Clone, Copy)]
pub(crate) enum Fate {
    // It arrives and goes.
    Goes,
    // It arrives and stays.
    Stays,
    Lost,
}

// A call at an end.
#[derive(Clone, Copy)]
pub(crate) enum Call {
    // The next message is offered.
    Offer,
    // A frame is asked for, and goes into the link.
    Ask,
    // A time passes.
    Pass(u32),
    Take,
    // The first frame on its way to the end.
    Frame(Fate),
}

// What is claimed of the messages of an end, by number.
#[derive(Clone, Copy)]
pub(crate) enum Claim {
    // What a take shows is the next message accepted at the other end, with flags 0.
    Shown = 1,
    // So is what an arrival makes wait; complete is handed out or one more, and at most accepted.
    Complete = 2,
    // Done is at most complete.
    Done = 3,
    // While the receiving end is open, a take would show what is complete and not handed out, or nothing.
    Taken = 4,
    // Accepted is at most one more than done.
    Accepted = 5,
}

// How many messages of an end were accepted, have been complete at the other end, were handed out there, are done, were given
// up, and were given up and handed out.
#[derive(Clone, Copy, Default)]
pub(crate) struct Sent {
    accepted: u64,
    complete: u64,
    handed: u64,
    done: u64,
    given: u64,
    whole: u64,
}

// What became of an end's frames, and how it was lost.
#[derive(Clone, Copy, Default)]
pub(crate) struct Tally {
    lost: u64,
    repeated: u64,
    tests: u64,
    accepts: u64,
    not_ready: u64,
    // By repeats, by tests with a message in sending, by tests with none.
    repeats: u64,
    sending: u64,
    idle: u64,
}

#[derive(Clone, Copy)]
pub(crate) struct End {
    channel: Channel,
    // 8 was not answered yet.
    pub(crate) live: bool,
    buffer: [u8; ROOM],
    // The link to the other end.
    link: Queue,
    // What its messages depend on.
    key: u64,
    // The length and the first byte of the message last accepted.
    length: usize,
    start: usize,
    sent: Sent,
    // The first claim about its messages that did not hold.
    pub(crate) broken: Option<Claim>,
    // What was sent over earlier ends at this side, and what became of the frames of all.
    sums: Sent,
    pub(crate) tally: Tally,
}

// One more.
fn count(n: &mut u64) {
    *n = n.wrapping_add(1);
}

impl Call {
    // The call that a number below 1024 draws (both.rt).
    pub(crate) fn drawn(n: u64) -> Call {
        match n {
            0..=79 => Call::Offer,
            80..=359 => Call::Ask,
            360..=583 => Call::Pass(GAP),
            584..=586 => Call::Pass(HOLD),
            587..=589 => Call::Pass(INTERVAL),
            590..=593 => Call::Pass(WAIT),
            594..=693 => Call::Take,
            694..=983 => Call::Frame(Fate::Goes),
            984..=1013 => Call::Frame(Fate::Stays),
            _ => Call::Frame(Fate::Lost),
        }
    }

    // The call at this end; while it is quiet no message is offered.
    pub(crate) fn make(self, quiet: bool, this: &mut End, other: &mut End) {
        match self {
            Call::Offer => {
                if !quiet {
                    this.offer();
                }
            }
            Call::Ask => this.ask(),
            Call::Pass(tenths) => this.elapse(tenths),
            Call::Take => {
                other.hand_out(this);
                this.take();
            }
            Call::Frame(fate) => {
                let waited = this.shown().is_some();
                this.hear(other.link.head(), fate);
                other.complete(waited, this);
                other.meet(fate);
            }
        }
    }
}

impl fmt::Display for Claim {
    fn fmt<W: fmt::Write>(&self, f: &mut fmt::Formatter<W>) -> fmt::Result {
        let number = *self as u8;
        write!(f, "{number}")
    }
}

impl Tally {
    pub(crate) fn add(&mut self, more: Tally) {
        self.lost = self.lost.wrapping_add(more.lost);
        self.repeated = self.repeated.wrapping_add(more.repeated);
        self.tests = self.tests.wrapping_add(more.tests);
        self.accepts = self.accepts.wrapping_add(more.accepts);
        self.not_ready = self.not_ready.wrapping_add(more.not_ready);
        self.repeats = self.repeats.wrapping_add(more.repeats);
        self.sending = self.sending.wrapping_add(more.sending);
        self.idle = self.idle.wrapping_add(more.idle);
    }

    // A frame is handed over, its first byte given.
    fn count_frame(&mut self, first: u8) {
        match first {
            0xA3 => count(&mut self.tests),
            0xA1 => count(&mut self.accepts),
            0x90..=0x9F => count(&mut self.not_ready),
            _ => {}
        }
    }

    fn count_fate(&mut self, fate: Fate) {
        match fate {
            Fate::Goes => {}
            Fate::Stays => count(&mut self.repeated),
            Fate::Lost => count(&mut self.lost),
        }
    }

    // The end is lost.
    fn count_loss(&mut self, by_repeats: bool, in_sending: bool) {
        if by_repeats {
            count(&mut self.repeats);
        } else if in_sending {
            count(&mut self.sending);
        } else {
            count(&mut self.idle);
        }
    }
}

impl fmt::Display for Tally {
    fn fmt<W: fmt::Write>(&self, f: &mut fmt::Formatter<W>) -> fmt::Result {
        let Tally {
            lost,
            repeated,
            tests,
            accepts,
            not_ready,
            repeats,
            sending,
            idle,
        } = *self;
        write!(
            f,
            "frames: {lost} lost, {repeated} repeated, {tests} tests, {accepts} A1s, {not_ready} Acks not ready"
        )?;
        write!(
            f,
            "; 8: {repeats} by repeats, {sending} by tests in sending, {idle} by tests idle"
        )
    }
}

impl Sent {
    // How many of those given up were handed out: given up is at most the last one accepted.
    fn whole_of(&self) -> u64 {
        if self.handed == self.accepted {
            self.given
        } else {
            0
        }
    }

    fn add(&mut self, more: Sent) {
        self.accepted = self.accepted.wrapping_add(more.accepted);
        self.complete = self.complete.wrapping_add(more.complete);
        self.handed = self.handed.wrapping_add(more.handed);
        self.done = self.done.wrapping_add(more.done);
        self.given = self.given.wrapping_add(more.given);
        self.whole = self.whole.wrapping_add(more.whole);
    }

    // What does not hold of the counts by themselves.
    fn broken(&self) -> Option<Claim> {
        if self.accepted < self.handed {
            return Some(Claim::Shown);
        }
        if self.complete < self.handed
            || self.handed.wrapping_add(1) < self.complete
            || self.accepted < self.complete
        {
            return Some(Claim::Complete);
        }
        if self.complete < self.done {
            return Some(Claim::Done);
        }
        if self.done.wrapping_add(1) < self.accepted {
            return Some(Claim::Accepted);
        }
        None
    }
}

impl fmt::Display for Sent {
    fn fmt<W: fmt::Write>(&self, f: &mut fmt::Formatter<W>) -> fmt::Result {
        let Sent {
            accepted,
            complete,
            handed,
            done,
            given,
            whole,
        } = *self;
        write!(
            f,
            "{accepted} accepted, {complete} complete, {handed} handed out, {done} done"
        )?;
        write!(f, ", {given} given up ({whole} of these handed out)")
    }
}

// The length of message k.
fn length_of(key: u64, k: u64) -> usize {
    let m = ((key % 65536 + 379 * (k % 1000)) % 1000) as usize;
    if m < 100 { 1 + m } else { 1 + m % 12 }
}

// The first byte of message k.
fn start_of(key: u64, k: u64) -> usize {
    ((key % 256 + 101 * (k % 256)) % 256) as usize
}

fn byte_at(start: usize, i: usize) -> u8 {
    ((start % 256 + 37 * (i % 256)) % 256) as u8
}

// Whether bytes are those of message k.
fn is_message(bytes: &[u8], key: u64, k: u64) -> bool {
    let start = start_of(key, k);
    bytes.len() == length_of(key, k)
        && bytes
            .iter()
            .enumerate()
            .all(|(i, b)| *b == byte_at(start, i))
}

// Whether the repeats are used up when this time has passed.
fn repeats_end(channel: Channel, tenths: u64) -> bool {
    let passed = channel.sender.pass(channel.parameters.terms, tenths);
    matches!(passed.note, Passing::UsedUp)
}

// A telegram arrives at an end.
pub(crate) fn arrived(end: Channel, payload: Payload, buffer: &mut [u8]) -> Answered {
    let telegram = payload.as_slice();
    let kind = kinds::sort(telegram).kind;
    arrival::arrive(end, kind, reading::part(telegram, 1, 8), buffer)
}

// Block size 2 and one repeat allowed.
pub(crate) fn parameters(t_wait: u32, interval: u32, allowed: u8) -> Parameters {
    Parameters {
        terms: Terms {
            block: 2,
            t1: WAIT,
            t3: GAP,
            repeats: 1,
            t_wait,
        },
        interval,
        allowed,
        own: kinds::Parameters {
            block: 2,
            t1: 0x8A,
            t3: 0x32,
        },
    }
}

impl End {
    // The first end at a side.
    pub(crate) fn first(key: u64) -> End {
        End::fresh(key, Sent::default(), Tally::default())
    }

    // A fresh end, with one unanswered test allowed.
    fn fresh(key: u64, sums: Sent, tally: Tally) -> End {
        End {
            channel: Channel::fresh(parameters(HOLD, INTERVAL, 1)),
            live: true,
            buffer: [0; ROOM],
            link: Queue::default(),
            key,
            length: 0,
            start: 0,
            sent: Sent::default(),
            broken: None,
            sums,
            tally,
        }
    }

    // A fresh end at the same side.
    pub(crate) fn renew(&mut self, key: u64) {
        *self = End::fresh(key, self.total(), self.tally);
    }

    // What was sent over this end and over earlier ones.
    pub(crate) fn total(&self) -> Sent {
        let mut total = self.sums;
        let whole = self.sent.whole_of();
        total.add(Sent { whole, ..self.sent });
        total
    }

    // The message that a take would show.
    fn shown(&self) -> Option<Message> {
        if !self.live {
            return None;
        }
        self.channel.receiver.take(ROOM).message.ok()
    }

    // The next message is offered.
    fn offer(&mut self) {
        if !self.live {
            return;
        }
        let k = self.sent.accepted;
        let length = length_of(self.key, k);
        let r = self.channel.send(length);
        self.channel = r.channel;
        if let Answer::Good = r.answer {
            count(&mut self.sent.accepted);
            self.length = length;
            self.start = start_of(self.key, k);
        }
    }

    // The complete message is taken.
    fn take(&mut self) {
        if self.live {
            self.channel.receiver = self.channel.receiver.take(ROOM).receiver;
        }
    }

    // A frame is asked for, and goes into the link.
    fn ask(&mut self) {
        if !self.live || self.link.is_full() {
            return;
        }
        let start = self.start;
        let message: [u8; ROOM] = array::from_fn(|i| byte_at(start, i));
        let d = self.channel.due(reading::part(&message, 0, self.length));
        self.channel = d.channel;
        if let Some(payload) = d.payload {
            self.link.push(payload);
            self.tally.count_frame(payload.bytes[0]);
        }
    }

    // The first frame of the other end's link arrives, unless it is lost.
    fn hear(&mut self, frame: Option<Payload>, fate: Fate) {
        let Some(payload) = frame else {
            return;
        };
        if !self.live || matches!(fate, Fate::Lost) {
            return;
        }
        let r = arrived(self.channel, payload, &mut self.buffer);
        self.channel = r.channel;
        match r.answer {
            Answer::UsedUp => self.close(true),
            Answer::Done => count(&mut self.sent.done),
            _ => {}
        }
    }

    // Time passes.
    fn elapse(&mut self, tenths: u32) {
        if !self.live {
            return;
        }
        let tenths = tenths as u64;
        let by_repeats = repeats_end(self.channel, tenths);
        let r = self.channel.elapse(tenths);
        self.channel = r.channel;
        if let Answer::UsedUp = r.answer {
            self.close(by_repeats);
        }
    }

    // 8 was answered.
    fn close(&mut self, by_repeats: bool) {
        let in_sending = self.sent.accepted == self.sent.done.wrapping_add(1);
        self.live = false;
        self.tally.count_loss(by_repeats, in_sending);
        if in_sending {
            self.sent.given = 1;
        }
    }

    // The first frame of the link, if there is one, has arrived or is lost: it stays or goes.
    fn meet(&mut self, fate: Fate) {
        if self.link.head().is_none() {
            return;
        }
        self.tally.count_fate(fate);
        if !matches!(fate, Fate::Stays) {
            self.link.pop();
        }
    }

    // What a take at the other end shows, before it is made.
    fn hand_out(&mut self, to: &End) {
        let Some(message) = to.shown() else {
            return;
        };
        if self.is_next(to, message, self.sent.handed) {
            count(&mut self.sent.handed);
        } else {
            self.broken = Some(Claim::Shown);
        }
    }

    // What an arrival at the other end made wait there, if nothing did before.
    fn complete(&mut self, waited: bool, to: &End) {
        if waited {
            return;
        }
        let Some(message) = to.shown() else {
            return;
        };
        if self.is_next(to, message, self.sent.complete) {
            count(&mut self.sent.complete);
        } else {
            self.broken = Some(Claim::Complete);
        }
    }

    // Whether what the other end would show is message k of this one, with flags 0, and it was accepted.
    fn is_next(&self, to: &End, message: Message, k: u64) -> bool {
        let bytes = reading::part(&to.buffer, 0, message.length as usize);
        k < self.sent.accepted && message.flags == 0 && is_message(bytes, self.key, k)
    }

    // The claims about the messages of this end, to being the other one.
    pub(crate) fn check(&mut self, to: &End) {
        if self.broken.is_none() {
            self.broken = self.sent.broken().or(self.broken_shown(to));
        }
    }

    // A take at the open other end would show the message that is complete there and not handed out, or nothing.
    fn broken_shown(&self, to: &End) -> Option<Claim> {
        if !to.live {
            return None;
        }
        let waits = self.sent.handed != self.sent.complete;
        let holds = match to.shown() {
            Some(message) => waits && self.is_next(to, message, self.sent.handed),
            None => !waits,
        };
        if holds { None } else { Some(Claim::Taken) }
    }
}
