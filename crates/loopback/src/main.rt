// Two ends of an open connection over perfect links in memory: a message of every length from 1 to 1,024 goes from the one to
// the other and another one back, and each frame handed over arrives at once. It prints how many messages and frames arrived,
// how many bytes the frames had, and a checksum over those bytes.
//
// The ends start as an A1 leaves them. Each call of the record stands here at one place only, and the loop around the calls is
// left as soon as a record is not open: the compiler then takes the calls up into the loop, without what only an opening or a
// closed record needs of them (docs/PERFORMANCE.md).
//
// Standard input has the number of rounds, 1 to 1,000,000; with no input one is played.
#![tactic(auto)]

ghost use Rattle.std.specs.Prelude.{◌≡◌};
ghost use Rattle.settings.specs.Agreed.{own_fields};
ghost use Rattle.connection.specs.Record.{requesting, agreeing, opened};

use connection::{Connection, OPEN};
use open_end::{OpenEnd, shown};
use settings::Settings;
use settings::agreed::{agree, own_fields};
use std::fmt::Write;
use std::mem;
use text::input::read_full;
use text::line::Line;
use text::output::Output;
use text::reading;

// The IDs that the two ends receive on.
const ONE: u16 = 0x300;

const OTHER: u16 = 0x740;

// The time between two data frames, in tenths of a millisecond: what the default T3 asks for.
const GAP: u64 = 50;

// The block size of both ends, whatever the default is: the counts printed hang on it.
const BLOCK: u8 = 15;

// The turns of a run: one for each frame of a block, and one that finds nothing due.
const TURNS: usize = BLOCK as usize + 1;

const LONGEST: usize = 1024;

// The frames of the longest message: it and its two length bytes in sevens, rounded up.
const FRAMES: usize = (LONGEST + 8) / 7;

// The runs that a message may take: at least one there and one back for each block of the longest.
const RUNS: usize = 2 * (FRAMES / BLOCK as usize + 1);

const MOST_ROUNDS: u64 = 1000000;

// What went over both links. The checksum is the sum of all sums of the bytes so far.
#[derive(Clone, Copy, Default)]
struct Tally {
    messages: u64,
    frames: u64,
    bytes: u64,
    sum: u64,
    checksum: u64,
}

#[derive(Clone, Copy)]
struct Ends {
    // The end that hands over what it has due, and the one where it arrives.
    from: Connection,
    to: Connection,
    // The message in sending was acknowledged to its end.
    done: bool,
    tally: Tally,
}

// A message was not handed out as it was sent.
#[derive(Clone, Copy)]
struct Altered;

fn main(rt: HostRuntime) {
    let mut text = [0u8; 4096];
    let n = read_full(&rt, &mut text);
    let Some(rounds) = read_rounds(&text[..n]) else {
        Output::fresh().say(
            &rt,
            b"error: standard input is not a number of rounds from 1 to 1000000\n",
        );
        return;
    };
    let mut message = [0; LONGEST];
    let mut buffer = [0; LONGEST];
    match play(rounds, &mut message, &mut buffer) {
        Ok(tally) => tell(&rt, tally),
        Err(Altered) => {
            Output::fresh().say(&rt, b"error: a message was not handed out as it was sent\n");
        }
    }
}

// The number of rounds: 1 for no text. The text may end in a line end.
fn read_rounds(text: &[u8]) -> Option<u64> {
    if text.is_empty() {
        return Some(1);
    }
    match reading::decimal(text.strip_suffix(b"\n").unwrap_or(text)) {
        Ok(n @ 1..=MOST_ROUNDS) => Some(n),
        _ => None,
    }
}

// Every length once each way, in each round.
fn play(rounds: u64, message: &mut [u8], buffer: &mut [u8]) -> Result<Tally, Altered> {
    let mut ends = fresh();
    for _ in 0..rounds {
        for len in 1..=LONGEST {
            ends = one_way(ends, len, 3, message, buffer)?;
            ends = one_way(ends, len, 5, message, buffer)?;
        }
    }
    Ok(ends.tally)
}

// A message is sent, and taken at the other end.
fn one_way(
    ends: Ends,
    len: usize,
    step: u8,
    message: &mut [u8],
    buffer: &mut [u8],
) -> Result<Ends, Altered> {
    fill(message, len, step);
    let message = shown(message, len);
    carry(ends.offered(message), message, buffer).taken(message, buffer)
}

// Bytes that hang on the message's length and their place.
fn fill(message: &mut [u8], len: usize, step: u8) {
    let mut b = (len % 256) as u8;
    for byte in message.iter_mut() {
        *byte = b;
        b = b.wrapping_add(step);
    }
}

// A run of frames there, a run of Acks back, and so on until the message is done.
fn carry(start: Ends, message: &[u8], buffer: &mut [u8]) -> Ends {
    let mut ends = start;
    let mut sends = true;
    for _ in 0..RUNS {
        ends = run(ends, lent(message, sends), buffer);
        if ends.done {
            return ends;
        }
        ends = ends.swapped();
        sends = !sends;
    }
    ends
}

// A run: what the one end has due arrives at the other, frame by frame, until nothing is due, the message is done, or an end is
// not open. Before each frame the time between two data frames passes.
fn run(start: Ends, message: &[u8], buffer: &mut [u8]) -> Ends {
    let mut ends = start;
    if ends.from.phase != OPEN || ends.to.phase != OPEN {
        return ends;
    }
    for _ in 0..TURNS {
        ends.from = ends.from.elapse(GAP).left;
        if ends.from.phase != OPEN {
            return ends;
        }
        let d = ends.from.due(message);
        ends.from = d.left;
        if ends.from.phase != OPEN {
            return ends;
        }
        let Some(frame) = d.frame else {
            return ends;
        };
        // Copied first: through the payload's own slice a frame takes some hundredths longer.
        let bytes = frame.payload.bytes;
        let bytes = shown(&bytes, frame.payload.len);
        let r = ends.to.arrive(frame.id, bytes, buffer);
        ends.to = r.left;
        if ends.to.phase != OPEN {
            return ends;
        }
        ends.tally = ends.tally.with_frame(bytes);
        if r.told.said.done {
            ends.done = true;
            return ends;
        }
    }
    ends
}

// The message, for the end that sends it.
fn lent(message: &[u8], sends: bool) -> &[u8] {
    if sends { message } else { shown(message, 0) }
}

// Two open ends, and nothing over the links yet.
fn fresh() -> Ends {
    Ends {
        from: opened(ONE, OTHER),
        to: opened(OTHER, ONE),
        done: false,
        tally: Tally::default(),
    }
}

// An end with the default settings but for its receive ID and its block size, as the A1 of a peer with the same settings
// leaves it.
fn opened(receive: u16, transmit: u16) -> Connection
    ensures { result ≡ opened (agreeing (requesting result.settings) transmit) (own_fields result.settings) }
{
    let mut settings = Settings::DEFAULT;
    settings.receive = receive;
    settings.block = BLOCK;
    Connection {
        phase: OPEN,
        settings,
        end: OpenEnd::fresh(transmit, receive, agree(settings, own_fields(settings))),
        ..Connection::closed()
    }
}

impl Ends {
    // A message is sent.
    fn offered(mut self, message: &[u8]) -> Ends {
        self.from = self.from.send(message).left;
        self.done = false;
        self
    }

    fn swapped(mut self) -> Ends {
        mem::swap(&mut self.from, &mut self.to);
        self
    }

    // The message is taken at the end that handed over the last Ack, and compared with what was sent: its bytes, and flags 0.
    fn taken(mut self, message: &[u8], buffer: &[u8]) -> Result<Ends, Altered> {
        let t = self.from.take_step(buffer.len());
        self.from = t.left;
        self.tally = self.tally.with_message(t.len);
        if t.flags != 0 || shown(buffer, t.len) != message {
            return Err(Altered);
        }
        Ok(self)
    }
}

impl Tally {
    // A message of len bytes, if there is one.
    fn with_message(mut self, len: usize) -> Tally {
        if len == 0 {
            return self;
        }
        self.messages = self.messages.wrapping_add(1);
        self
    }

    fn with_frame(mut self, bytes: &[u8]) -> Tally {
        self.frames = self.frames.wrapping_add(1);
        for b in bytes {
            self = self.with_byte(*b);
        }
        self
    }

    fn with_byte(mut self, b: u8) -> Tally {
        self.bytes = self.bytes.wrapping_add(1);
        self.sum = self.sum.wrapping_add(b as u64);
        self.checksum = self.checksum.wrapping_add(self.sum);
        self
    }
}

// As `eight` tells it: one for both would be a public function of `text`, for no more than these four names.
fn tell<R: Print + Eprint>(rt: &R, tally: Tally) {
    let Tally {
        messages,
        frames,
        bytes,
        checksum,
        ..
    } = tally;
    let mut text = Line::<256>::default();
    let _ = writeln!(
        text,
        "messages {messages}\nframes {frames}\nbytes {bytes}\nchecksum {checksum}"
    );
    Output::fresh().say(rt, text.text());
}
