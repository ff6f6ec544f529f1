// Runs two ends of a channel over links that lose and repeat frames.
//
// Standard input has a run a line. A line that starts with the word `both` is a run of both ends at random, which both.rt describes;
// standard output has one line for it. Any other is a letter a call, and standard output has a line for each: the letter, the
// answer's number, and what was handed over or handed out (a message's flags, if they are not 0, and its bytes); and an empty line
// for the line's end.
//
//     f        two fresh ends: block size 2, one repeat allowed; each link holds at most one frame
//     s m      the near end is offered a message of 5, of 120 bytes
//     d D      the near end, the far end is asked for a frame, which goes into the link to the other
//     a r x    the frame on its way to the far end arrives and goes, arrives and stays, is lost
//     A R X    the same of the frame on its way to the near end
//     g w p    at the near end T3, T1, T_WAIT passes
//     t        the far end's message is taken
//
// Any other letter acts as f.
#![tactic(auto)]

use crate::end::{Fate, GAP, WAIT, arrived, parameters};
use channel::{Answer, Channel};
use receiver::TakeError;
use std::fmt::Write;
use std::{array, mem};
use telegram::cutting::Message;
use telegram::payload::Payload;
use text::input::read_full;
use text::line::Line;
use text::output::Output;
use text::reading;

mod both;
mod end;
mod queue;

// T_WAIT, in tenths of a millisecond.
const HOLD: u32 = 2000;

// The longest message, and the buffer of either end.
const ROOM: usize = 120;

// A line of output, which has room for the longest: what is said of a run.
type Text = Line<1024>;

// The two ends, and the link from either to the other, which holds at most one frame.
#[derive(Clone, Copy)]
struct Ends {
    near: Channel,
    far: Channel,
    forward: Option<Payload>,
    backward: Option<Payload>,
    // The length of the message last accepted.
    length: usize,
}

// What the lines act on, which stays from line to line.
#[derive(Clone, Copy)]
struct Bench {
    ends: Ends,
    // The bytes 0, 1, 2 and so on.
    message: [u8; ROOM],
    // What either end writes to.
    buffer: [u8; ROOM],
    line: Text,
    output: Output,
}

// Runs the lines one by one, until one cannot be written.
fn main(rt: HostRuntime) {
    let mut text = [0u8; 65536];
    let n = read_full(&rt, &mut text);
    let mut bench = Bench::fresh();
    for line in text[..n].split_inclusive(|c| *c == b'\n') {
        bench.play(&rt, line);
        if bench.output.failed {
            return;
        }
    }
}

impl Ends {
    fn fresh() -> Ends {
        let parameters = parameters(HOLD, 0, 0);
        Ends {
            near: Channel::fresh(parameters),
            far: Channel::fresh(parameters),
            forward: None,
            backward: None,
            length: 0,
        }
    }

    // The far end is the near one.
    fn turn(&mut self) {
        mem::swap(&mut self.near, &mut self.far);
        mem::swap(&mut self.forward, &mut self.backward);
    }
}

impl Bench {
    fn fresh() -> Bench {
        Bench {
            ends: Ends::fresh(),
            message: array::from_fn(|i| (i % 256) as u8),
            buffer: [0; ROOM],
            line: Text::default(),
            output: Output::fresh(),
        }
    }

    // Runs a line.
    fn play<R: Print + Eprint>(&mut self, rt: &R, text: &[u8]) {
        let run = text.strip_suffix(b"\n").unwrap_or(text);
        if both::is_run(run) {
            self.line = Text::default();
            both::answer(run, &mut self.line);
            self.say(rt);
            return;
        }
        for c in text {
            self.letter(rt, *c);
            if self.output.failed {
                return;
            }
        }
    }

    // The line is written out.
    fn say<R: Print + Eprint>(&mut self, rt: &R) {
        self.output = self.output.say(rt, self.line.text());
    }

    // A call, and its line.
    fn letter<R: Print + Eprint>(&mut self, rt: &R, c: u8) {
        self.line = Text::default();
        self.line.put(&[c]);
        if c != b'\n' {
            self.call(c);
            self.line.put(b"\n");
        }
        self.say(rt);
    }

    fn call(&mut self, c: u8) {
        match c {
            b's' => self.offer(5),
            b'm' => self.offer(ROOM),
            b'd' => self.ask(self.ends.length),
            b'D' => self.ask_far(),
            b'a' => self.meet(Fate::Goes),
            b'r' => self.meet(Fate::Stays),
            b'x' => self.meet(Fate::Lost),
            b'A' => self.meet_back(Fate::Goes),
            b'R' => self.meet_back(Fate::Stays),
            b'X' => self.meet_back(Fate::Lost),
            b'g' => self.pass(GAP),
            b'w' => self.pass(WAIT),
            b'p' => self.pass(HOLD),
            b't' => self.take(),
            _ => self.ends = Ends::fresh(),
        }
    }

    fn offer(&mut self, len: usize) {
        let r = self.ends.near.send(len);
        self.ends.near = r.channel;
        if let Answer::Good = r.answer {
            self.ends.length = len;
        }
        self.tell(r.answer);
    }

    // The near end is asked for a frame, and lent the message's first bytes.
    fn ask(&mut self, len: usize) {
        let d = self.ends.near.due(reading::part(&self.message, 0, len));
        self.ends.near = d.channel;
        self.tell(d.answer);
        if let Some(payload) = d.payload {
            self.ends.forward = Some(payload);
            put_pairs(&mut self.line, payload.as_slice());
        }
    }

    // The far end has no message to lend.
    fn ask_far(&mut self) {
        self.ends.turn();
        self.ask(0);
        self.ends.turn();
    }

    // What becomes of the frame on its way to the far end.
    fn meet(&mut self, fate: Fate) {
        if let Fate::Lost = fate {
            self.ends.forward = None;
            return;
        }
        let Some(payload) = self.ends.forward else {
            self.line.put(b" -");
            return;
        };
        let r = arrived(self.ends.far, payload, &mut self.buffer);
        self.ends.far = r.channel;
        if let Fate::Goes = fate {
            self.ends.forward = None;
        }
        self.tell(r.answer);
    }

    fn meet_back(&mut self, fate: Fate) {
        self.ends.turn();
        self.meet(fate);
        self.ends.turn();
    }

    fn pass(&mut self, tenths: u32) {
        let r = self.ends.near.elapse(tenths as u64);
        self.ends.near = r.channel;
        self.tell(r.answer);
    }

    fn take(&mut self) {
        let t = self.ends.far.receiver.take(ROOM);
        self.ends.far.receiver = t.receiver;
        match t.message {
            Ok(Message { length, flags }) => {
                put_flags(&mut self.line, flags);
                put_pairs(
                    &mut self.line,
                    reading::part(&self.buffer, 0, length as usize),
                );
            }
            Err(TakeError::NoneComplete) => self.line.put(b" none"),
            Err(TakeError::ShortBuffer) => self.line.put(b" short"),
        }
    }

    fn tell(&mut self, answer: Answer) {
        let number = channel::say(answer).number;
        let _ = write!(self.line, " {number}");
        if let Answer::Done = answer {
            self.line.put(b" done");
        }
    }
}

// Bytes as pairs of digits, a blank before each.
fn put_pairs(line: &mut Text, bytes: &[u8]) {
    for b in bytes {
        let _ = write!(line, " {b:02X}");
    }
}

// A message's flags, if they are not 0.
fn put_flags(line: &mut Text, flags: u16) {
    let flags = flags % 16;
    if flags != 0 {
        let _ = write!(line, " flags {flags:X}");
    }
}
