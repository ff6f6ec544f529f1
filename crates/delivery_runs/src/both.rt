// A run of two ends that both send, with tests on, over links that lose and repeat frames: calls at random, and what request 14
// claims, asked for both directions after every call. A line of standard input, `both SEED CALLS`, is a run.
//
// The generator: x is SEED mod 2^31, and before each call x becomes (1103515245 * x + 12345) mod 2^31; with d = x / 65536, rounded
// down, the call is at the near end if d is even, else at the far end, and d / 2 mod 1024 says which:
//
//        0 .. 79     the end's next message is offered; not where the call's number (from 1) divided by 512, rounded down, is odd, so that the
//                    ends fall silent and their tests run
//       80 .. 359    the end is asked for a frame, the message last accepted there being lent; not while its link holds eight
//      360 .. 583    T3 passes at the end
//      584 .. 586    T_WAIT
//      587 .. 589    the test interval
//      590 .. 593    T1
//      594 .. 693    take
//      694 .. 983    the first frame on its way to the end arrives and goes
//      984 .. 1013   it arrives and stays
//     1014 .. 1023   it is lost
//
// An end that answered 8 is closed: it does nothing more, and frames that arrive there change nothing. When both are closed, the
// next call comes to two fresh ends with empty links, a restart. With r restarts before it the near end's key is
// (777 + SEED + 4999 * r) mod 65536, and the far end's is 12345 more, mod 65536: end.rt has the messages.
use crate::Text;
use crate::end::{Call, End, Sent, Tally};
use std::fmt;
use std::fmt::Write;
use text::reading;

// The most calls of a run.
const MOST: u64 = 1000000;

// What a line asks for.
#[derive(Clone, Copy)]
struct Asked {
    seed: u64,
    calls: u64,
}

// Two ends, and the calls to them.
#[derive(Clone, Copy)]
struct Bench {
    near: End,
    far: End,
    asked: Asked,
    // The generator's x.
    state: u64,
    // How many calls were made.
    number: u64,
    restarts: u64,
}

// Whether a line is a run: it starts with the word both.
pub(crate) fn is_run(line: &[u8]) -> bool {
    match line.strip_prefix(b"both") {
        Some(rest) => rest.first().is_none_or(|c| reading::is_blank(*c)),
        None => false,
    }
}

// Plays the run that a line asks for, and writes what is said of it.
pub(crate) fn answer(line: &[u8], text: &mut Text) {
    match read(line) {
        Some(asked) => {
            let bench = play(asked);
            let _ = writeln!(text, "{bench}");
        }
        None => text.put(
            b"error: a run is both SEED CALLS, two decimal numbers, at most 18446744073709551615 and 1000000\n",
        ),
    }
}

fn read(line: &[u8]) -> Option<Asked> {
    let first = reading::word(line, 4);
    let second = reading::word(line, first.end);
    let more = reading::word(line, second.end);
    if more.start < line.len() {
        return None;
    }
    let seed = reading::decimal(reading::part(line, first.start, first.end)).ok()?;
    let calls = reading::decimal(reading::part(line, second.start, second.end)).ok()?;
    if MOST < calls {
        return None;
    }
    Some(Asked { seed, calls })
}

// Plays the calls, until a claim does not hold.
fn play(asked: Asked) -> Bench {
    let mut bench = Bench::fresh(asked);
    for _ in 0..asked.calls {
        bench.turn();
        if bench.is_broken() {
            break;
        }
    }
    bench
}

// The key of a side's end after so many restarts.
fn key_of(seed: u64, restarts: u64, side: u64) -> u64 {
    (777 + seed % 65536 + 4999 * (restarts % 65536) + 12345 * (side % 2)) % 65536
}

impl Bench {
    fn fresh(asked: Asked) -> Bench {
        Bench {
            near: End::first(key_of(asked.seed, 0, 0)),
            far: End::first(key_of(asked.seed, 0, 1)),
            asked,
            state: asked.seed,
            number: 0,
            restarts: 0,
        }
    }

    fn is_broken(&self) -> bool {
        self.near.broken.is_some() || self.far.broken.is_some()
    }

    // The next call, and the claims of either direction.
    fn turn(&mut self) {
        self.draw();
        self.renew();
        let d = self.state / 65536;
        let call = Call::drawn(d / 2 % 1024);
        let quiet = self.number / 512 % 2 == 1;
        if d % 2 == 0 {
            call.make(quiet, &mut self.near, &mut self.far);
        } else {
            call.make(quiet, &mut self.far, &mut self.near);
        }
        self.near.check(&self.far);
        self.far.check(&self.near);
    }

    fn draw(&mut self) {
        self.state = (1103515245 * (self.state % 2147483648) + 12345) % 2147483648;
        self.number = self.number.wrapping_add(1);
    }

    // Two fresh ends where both are closed.
    fn renew(&mut self) {
        if self.near.live || self.far.live {
            return;
        }
        self.restarts = self.restarts.wrapping_add(1);
        self.near.renew(key_of(self.asked.seed, self.restarts, 0));
        self.far.renew(key_of(self.asked.seed, self.restarts, 1));
    }

    // The frames of both ends.
    fn tally(&self) -> Tally {
        let mut tally = self.near.tally;
        tally.add(self.far.tally);
        tally
    }
}

// Whether all claims held, or the first that did not; of each direction the counts; and what both have in common.
impl fmt::Display for Bench {
    fn fmt<W: fmt::Write>(&self, f: &mut fmt::Formatter<W>) -> fmt::Result {
        let Asked { seed, calls } = self.asked;
        write!(f, "both {seed} {calls}: ")?;
        self.verdict(f)?;
        let near = self.near.total();
        let far = self.far.total();
        let tally = self.tally();
        let restarts = self.restarts;
        write!(
            f,
            "; near to far {near}; far to near {far}; {tally}; {restarts} restarts"
        )
    }
}

impl Bench {
    fn verdict<W: fmt::Write>(&self, f: &mut fmt::Formatter<W>) -> fmt::Result {
        let number = self.number;
        match (self.near.broken, self.far.broken) {
            (Some(claim), _) => write!(
                f,
                "claim {claim} does not hold, near to far, at call {number}"
            ),
            (None, Some(claim)) => write!(
                f,
                "claim {claim} does not hold, far to near, at call {number}"
            ),
            (None, None) => write!(f, "held"),
        }
    }
}
