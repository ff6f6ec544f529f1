// Runs the worked values of the telegram layer and says what it finds. Standard input has a value a line: a letter for what is run,
// what the value is, a colon, and bytes. Standard output has, for each, what the value is and what was found.
//
//     t  a time code
//     m  the longest message
//     f  how many frames a message makes: its length, high byte first
//     l  what two length bytes declare: a length, and behind it the flags if they are not 0
//     s  a telegram is sorted
//     q  a request is read
//     r  a reply is read: our own receive ID, high byte first, and the reply
//     w  a telegram is written: its opcode, and what it carries
//     c  a frame is cut: block size, first number, how many frames stand before it, and the message
//     z  the same of 1,024 zeros
#![tactic(auto)]

use opening::{ReplyError, Request};
use telegram::cutting::Message;
use telegram::kinds::{Parameters, Sorted, Telegram};
use telegram::payload::Payload;
use telegram::{cutting, kinds, time};
use text::input::read_full;
use text::line::Line;
use text::output::Output;
use text::{reading, writing};

// What is said of a value. Its numbers are written by `writing`: with `write!` a run took up to twice as long.
type Found = Line<256>;

fn main(rt: HostRuntime) {
    let mut text = [0u8; 65536];
    let n = read_full(&rt, &mut text);
    lines(&rt, &text[..n]);
}

// Answers line by line, until one cannot be written.
fn lines<R: Print + Eprint>(rt: &R, text: &[u8]) {
    let mut output = Output::fresh();
    let mut found = Found::default();
    for text in text.split(|c| *c == b'\n') {
        output = line(rt, output, &mut found, text);
        if output.failed {
            return;
        }
    }
}

fn line<R: Print + Eprint>(rt: &R, output: Output, found: &mut Found, text: &[u8]) -> Output {
    let Some(colon) = text.iter().position(|c| *c == b':') else {
        return output;
    };
    if colon < 2 {
        return output;
    }
    let rest = colon + 1;
    found.len = 0;
    found.put(&text[2..rest]);
    run(found, text[0], &text[rest..]);
    found.put(b"\n");
    output.say(rt, found.text())
}

// Runs a value of pairs of digits.
fn run(found: &mut Found, what: u8, pairs: &[u8]) {
    let mut value = [0u8; 32];
    let Ok(n) = reading::pairs(pairs, &mut value) else {
        found.put(b" no bytes");
        return;
    };
    find(found, what, reading::part(&value, 0, n));
}

fn find(found: &mut Found, what: u8, s: &[u8]) {
    match what {
        b't' => number(found, time::tenths(byte_at(s, 0)) as u64),
        b'm' => number(found, cutting::limit() as u64),
        b'f' => number(found, cutting::frames(pair(s) as usize) as u64),
        b'l' => declared(found, cutting::declared(byte_at(s, 0), byte_at(s, 1))),
        b's' => sorted(found, kinds::sort(s)),
        b'q' => request(found, opening::read_request(s)),
        b'r' => reply(found, opening::read_reply(behind(s, 2), pair(s))),
        b'w' => payload(found, write(s)),
        b'c' => payload(found, cut(behind(s, 3), s)),
        _ => payload(found, cut(&[0u8; 1024], s)),
    }
}

// A frame of a message: block size, first number, and how many frames stand before it.
fn cut(message: &[u8], s: &[u8]) -> Payload {
    cutting::frame(message, byte_at(s, 0), byte_at(s, 1), byte_at(s, 2) as u16)
}

// Zero past the end.
fn byte_at(s: &[u8], i: usize) -> u8 {
    s.get(i).copied().unwrap_or(0)
}

// The number that the first two bytes make, high first.
fn pair(s: &[u8]) -> u16 {
    u16::from_be_bytes([byte_at(s, 0), byte_at(s, 1)])
}

// What stands behind so many bytes, and all of it where there are fewer.
fn behind(s: &[u8], i: usize) -> &[u8] {
    s.get(i..).unwrap_or(s)
}

fn write(s: &[u8]) -> Payload {
    let p = Parameters {
        block: byte_at(s, 1),
        t1: byte_at(s, 2),
        t3: byte_at(s, 3),
    };
    match byte_at(s, 0) {
        0x90 => kinds::write_ack(false, byte_at(s, 1)),
        0xB0 => kinds::write_ack(true, byte_at(s, 1)),
        0xA0 => kinds::write_setup(p),
        0xA1 => kinds::write_accept(p),
        0xA3 => kinds::write_test(),
        0xA8 => kinds::write_disconnect(),
        0xC0 => opening::write_request(byte_at(s, 1), pair(behind(s, 2))),
        opcode => opening::write_reply(opcode, pair(behind(s, 1)), pair(behind(s, 3))),
    }
}

fn number(found: &mut Found, n: u64) {
    found.put(b" ");
    found.len = writing::decimal(&mut found.text, found.len, n);
}

fn byte(found: &mut Found, b: u8) {
    found.put(b" ");
    found.len = writing::pair(&mut found.text, found.len, b);
}

fn id(found: &mut Found, i: u16) {
    found.put(b" ");
    found.len = writing::id(&mut found.text, found.len, i);
}

fn declared(found: &mut Found, message: Message) {
    let Message { length, flags } = message;
    number(found, length as u64);
    found.len = writing::flags(&mut found.text, found.len, (flags % 16) as u8);
}

fn sorted(found: &mut Found, sorted: Sorted) {
    kind(found, sorted.kind);
    if sorted.padded {
        found.put(b", padded");
    }
}

fn kind(found: &mut Found, kind: Telegram) {
    match kind {
        Telegram::Data {
            asks,
            last,
            number: n,
        } => {
            found.put(b" data, number");
            number(found, n as u64);
            if asks {
                found.put(b", asks for an Ack");
            }
            if last {
                found.put(b", last");
            }
        }
        Telegram::Ack { ready, number: n } => {
            found.put(b" Ack, number");
            number(found, n as u64);
            if ready {
                found.put(b", ready");
            } else {
                found.put(b", not ready");
            }
        }
        Telegram::Test => found.put(b" test"),
        Telegram::Break => found.put(b" break"),
        Telegram::Disconnect => found.put(b" disconnect"),
        Telegram::Setup(p) => {
            found.put(b" set-up");
            parameters(found, p);
        }
        Telegram::Accept(p) => {
            found.put(b" acceptance");
            parameters(found, p);
        }
        Telegram::Malformed => found.put(b" malformed"),
    }
}

fn parameters(found: &mut Found, parameters: Parameters) {
    let Parameters { block, t1, t3 } = parameters;
    found.put(b", block size");
    number(found, block as u64);
    found.put(b", T1");
    byte(found, t1);
    found.put(b", T3");
    byte(found, t3);
}

fn request(found: &mut Found, request: Option<Request>) {
    let Some(Request { unit, receive }) = request else {
        found.put(b" malformed");
        return;
    };
    found.put(b" unit");
    byte(found, unit);
    found.put(b", receive ID");
    id(found, receive);
}

fn reply(found: &mut Found, reply: Result<u16, ReplyError>) {
    match reply {
        Ok(transmit) => {
            found.put(b" positive, transmit ID");
            id(found, transmit);
        }
        Err(ReplyError::Refused(opcode)) => {
            found.put(b" refused by");
            byte(found, opcode);
        }
        Err(ReplyError::Malformed) => found.put(b" malformed"),
    }
}

fn payload(found: &mut Found, payload: Payload) {
    found.len = writing::pairs(&mut found.text, found.len, payload.as_slice());
}
