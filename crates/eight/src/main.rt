// Eight units answer, and each of their connections is a record: three ways to keep them, for the speed of each
// (docs/PERFORMANCE.md). It prints how many messages were taken, how many frames came and went, how many bytes the frames had,
// and a checksum, which are the same whichever way it goes.
//
// Standard input has one line, `WAY ROUNDS`: two words with blanks between them, and at most one line end behind them. ROUNDS is
// 1 to 1,000,000; in a round each unit's message comes once. WAY is one of
//
//     single   eight single records, one after another, each through its whole exchange in its own loop
//     table    the records stand in one table, and the units take turns: a frame's place is found by its ID, the record there
//              is read, its own calls are made, and it is stored
//     calls    the same, every call through the table's own function for it
//
// With no input one round is played each way, its name before its lines.
#![tactic(auto)]

use crate::units::Tally;
use crate::ways::{Sent, Way};
use std::fmt::Write;
use text::input::read_full;
use text::line::Line;
use text::output::Output;
use text::reading;

mod units;
mod ways;

const MOST_ROUNDS: u64 = 1000000;

// A text of so many bytes fills the buffer that it is read to, and may go on.
const TOO_LONG: usize = 4096;

// Each way for one round, or one way for so many.
#[derive(Clone, Copy)]
enum Asked {
    Each,
    One { way: Way, rounds: u64 },
}

fn main(rt: HostRuntime) {
    let mut text = [0u8; TOO_LONG];
    let n = read_full(&rt, &mut text);
    let mut messages = [0; 8048];
    let mut frames = [0; 9408];
    let mut buffers = [0; 8192];
    units::compose(&mut messages);
    units::cut(&messages, &mut frames);
    let sent = Sent {
        messages: &messages,
        frames: &frames,
    };
    match read(&text[..n]) {
        Some(Asked::Each) => each(&rt, sent, &mut buffers),
        Some(Asked::One { way, rounds }) => tell(&rt, ways::play(way, rounds, sent, &mut buffers)),
        None => wrong(&rt),
    }
}

fn wrong<R: Print + Eprint>(rt: &R) {
    Output::fresh().say(
        rt,
        b"error: standard input is not WAY ROUNDS: single, table or calls, and a number from 1 to 1000000\n",
    );
}

// One round each way.
fn each<R: Print + Eprint>(rt: &R, sent: Sent<'_>, buffers: &mut [u8]) {
    named(rt, b"single\n", Way::Single, sent, buffers);
    named(rt, b"table\n", Way::Table, sent, buffers);
    named(rt, b"calls\n", Way::Calls, sent, buffers);
}

// One round of a way, its name before its lines.
fn named<R: Print + Eprint>(rt: &R, name: &[u8], way: Way, sent: Sent<'_>, buffers: &mut [u8]) {
    Output::fresh().say(rt, name);
    tell(rt, ways::play(way, 1, sent, buffers));
}

// What a text asks for, and none for one that asks for nothing.
fn read(text: &[u8]) -> Option<Asked> {
    if TOO_LONG <= text.len() {
        return None;
    }
    let Some((last, line)) = text.split_last() else {
        return Some(Asked::Each);
    };
    read_line(if *last == b'\n' { line } else { text })
}

fn read_line(line: &[u8]) -> Option<Asked> {
    let first = reading::word(line, 0);
    let second = reading::word(line, first.end);
    let more = reading::word(line, second.end);
    if more.start < line.len() {
        return None;
    }
    let way = way_of(reading::part(line, first.start, first.end))?;
    let rounds = rounds_of(reading::part(line, second.start, second.end))?;
    Some(Asked::One { way, rounds })
}

fn way_of(name: &[u8]) -> Option<Way> {
    match name {
        b"single" => Some(Way::Single),
        b"table" => Some(Way::Table),
        b"calls" => Some(Way::Calls),
        _ => None,
    }
}

fn rounds_of(digits: &[u8]) -> Option<u64> {
    match reading::decimal(digits) {
        Ok(n @ 1..=MOST_ROUNDS) => Some(n),
        _ => None,
    }
}

fn tell<R: Print + Eprint>(rt: &R, tally: Tally) {
    if tally.wrong {
        Output::fresh().say(rt, b"error: a message was not handed out as it was sent\n");
        return;
    }
    let Tally {
        messages,
        frames,
        bytes,
        checksum,
        ..
    } = tally;
    let mut text = Line::<256>::default();
    let _ = writeln!(
        text,
        "messages {messages}\nframes {frames}\nbytes {bytes}\nchecksum {checksum}"
    );
    Output::fresh().say(rt, text.text());
}
