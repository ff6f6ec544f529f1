// The calls that a line can ask for.
ghost use Rattle.std.specs.Prelude.{◌≡◌, length};
ghost use Rattle.dialogue.specs.Calls.{alone_of, time_of, room_of, due_of, send_of, frame_of, followed_of, followed_into, call_of, call_into};
ghost use Rattle.dialogue.specs.Words.{word_at, behind_word, only_number, id_read, octets_read, octets_into};

use crate::words::{behind_word, can_id, letters, octets, only_number, word};

// What a line asks for. Bytes that it gives stand at the start of a lent buffer, and here is their count: `call_of` says it so.
#[derive(Clone, Copy)]
pub enum Call {
    // A blank line or a comment.
    Nothing,
    Wrong,
    New,
    Frame { id: u16, count: usize },
    Time(u64),
    // What is due, the message last accepted being lent; or the bytes of the line.
    Due,
    DueOf(usize),
    Send(usize),
    Take,
    Close,
    Room(usize),
    Buffer,
    // A call that not every record has: the letters of its name.
    Other(u64),
}

// The longest line, without its end.
pub(crate) const LONGEST: usize = 16000;

// The most bytes that can be lent.
const MOST_ROOM: u64 = 4096;

// The names of the calls, as the numbers that their letters make. No byte strings: `call_of` compares words as these numbers, by
// which NULs before a name change nothing, and `Call::Other` hands such a number on.
const NEW: u64 = 0x6E6577;

const FRAME: u64 = 0x6672616D65;

const TIME: u64 = 0x74696D65;

const DUE: u64 = 0x647565;

const SEND: u64 = 0x73656E64;

const TAKE: u64 = 0x74616B65;

const CLOSE: u64 = 0x636C6F7365;

const ROOM: u64 = 0x726F6F6D;

const BUFFER: u64 = 0x627566666572;

// What a line asks for; bytes that it gives are written to the start of bytes.
#[tactic(auto, using(laws::proofs::Branches::branches, crate::proofs::Handed::handed), unfolding(crate::specs::Calls::call_of, crate::specs::Calls::call_into))]
pub fn read_call(line: &[u8], bytes: &mut [u8]) -> Call
    ensures value { result ≡ call_of (length bytes.old) line.now }
    ensures bytes_after { bytes.new ≡ call_into bytes.old line.now }
{
    if LONGEST < line.len() {
        return Call::Wrong;
    }
    let first = word(line);
    if first.is_empty() || line[0] == b'#' {
        return Call::Nothing;
    }
    let name = letters(first);
    let words = behind_word(line);
    if words.is_empty() {
        return alone(name);
    }
    followed(name, words, bytes)
}

// A call of one word.
#[tactic(auto, using(laws::proofs::Branches::branches), unfolding(crate::specs::Calls::alone_of))]
fn alone(name: u64) -> Call
    ensures { result ≡ alone_of name }
{
    match name {
        NEW => Call::New,
        DUE => Call::Due,
        TAKE => Call::Take,
        CLOSE => Call::Close,
        BUFFER => Call::Buffer,
        _ => Call::Other(name),
    }
}

// A call with further words.
#[tactic(auto, using(laws::proofs::Branches::branches, crate::proofs::Handed::another), unfolding(crate::specs::Calls::followed_of, crate::specs::Calls::followed_into))]
fn followed(name: u64, words: &[u8], bytes: &mut [u8]) -> Call
    ensures value { result ≡ followed_of (length bytes.old) name words.now }
    ensures bytes_after { bytes.new ≡ followed_into bytes.old name words.now }
{
    match name {
        TIME => time(words),
        ROOM => room(words),
        FRAME => frame(words, bytes),
        DUE => due(words, bytes),
        SEND => send(words, bytes),
        _ => Call::Other(name),
    }
}

// time, due and send differ in the call that they make; one function that takes it would be no shorter than they are.
#[tactic(auto, using(laws::proofs::Branches::branches), unfolding(crate::specs::Calls::time_of))]
fn time(words: &[u8]) -> Call
    ensures { result ≡ time_of (only_number words.now) }
{
    match only_number(words) {
        Ok(n) => Call::Time(n),
        Err(_) => Call::Wrong,
    }
}

#[tactic(auto, using(laws::proofs::Branches::branches), unfolding(crate::specs::Calls::room_of))]
fn room(words: &[u8]) -> Call
    ensures { result ≡ room_of (only_number words.now) }
{
    match only_number(words) {
        Ok(n) if n <= MOST_ROOM => Call::Room(n as usize),
        _ => Call::Wrong,
    }
}

#[tactic(auto, using(laws::proofs::Branches::branches), unfolding(crate::specs::Calls::frame_of))]
fn frame(words: &[u8], bytes: &mut [u8]) -> Call
    ensures value { result ≡ frame_of (id_read (word_at words.now 0)) (octets_read (length bytes.old) (behind_word words.now)) }
    ensures bytes_after { bytes.new ≡ octets_into bytes.old (behind_word words.now) }
{
    let id = can_id(word(words));
    let count = octets(behind_word(words), bytes);
    match (id, count) {
        (Ok(id), Ok(count)) => Call::Frame {
            id: (id % 65536) as u16,
            count,
        },
        _ => Call::Wrong,
    }
}

#[tactic(auto, using(laws::proofs::Branches::branches), unfolding(crate::specs::Calls::due_of))]
fn due(words: &[u8], bytes: &mut [u8]) -> Call
    ensures value { result ≡ due_of (octets_read (length bytes.old) words.now) }
    ensures bytes_after { bytes.new ≡ octets_into bytes.old words.now }
{
    match octets(words, bytes) {
        Ok(n) => Call::DueOf(n),
        Err(_) => Call::Wrong,
    }
}

#[tactic(auto, using(laws::proofs::Branches::branches), unfolding(crate::specs::Calls::send_of))]
fn send(words: &[u8], bytes: &mut [u8]) -> Call
    ensures value { result ≡ send_of (octets_read (length bytes.old) words.now) }
    ensures bytes_after { bytes.new ≡ octets_into bytes.old words.now }
{
    match octets(words, bytes) {
        Ok(n) => Call::Send(n),
        Err(_) => Call::Wrong,
    }
}
