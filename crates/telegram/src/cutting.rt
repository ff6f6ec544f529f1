// Cutting: a message as the data telegrams that carry it, one telegram a call.
ghost use Rattle.std.specs.Prelude.{◌≡◌, ◌+◌, ◌-◌, ◌*◌, min, max, ◌∷◌, ltb, length, take, drop, get_or, if◌then◌else◌};
ghost use Rattle.telegram.specs.Outgoing.{payload_of};
ghost use Rattle.telegram.specs.Cutting.{frames_of, stream_of, header_of, asks_at, frame_at, declared_of, longest};

use crate::payload::Payload;

// A message as its first frame declares it: its length in bytes, and four flags, 0 to 15. Length 0 is none, and no option stands for
// it: a first frame can declare 0, and each call is promised on records with flags beside it. Flags are as wide as a length, so that a
// message has no gap between its fields.
#[derive(Clone, Copy)]
pub struct Message {
    pub length: u16,
    pub flags: u16,
}

// No message.
pub const NONE: Message = Message {
    length: 0,
    flags: 0,
};

// The longest message, in bytes.
pub const LONGEST: u16 = 1024;

// The longest message, for the contracts: a constant of the code has no name there.
pub fn limit() -> u16
    ensures { result ≡ longest }
{
    LONGEST
}

// What a first frame's two length bytes declare: twelve bits of length, and four flags above them.
pub fn declared(high: u8, low: u8) -> Message
    ensures { result ≡ declared_of high low }
{
    Message {
        length: 256 * ((high % 16) as u16) + low as u16,
        flags: (high / 16) as u16,
    }
}

// How many telegrams a message of len bytes makes: (len + 8) / 7, in an order that cannot overflow.
#[tactic(auto, unfolding(crate::specs::Cutting::frames_of))]
pub fn frames(len: usize) -> usize
    ensures { result ≡ frames_of len }
{
    len / 7 + (len % 7 + 8) / 7
}

// Byte i of the seven that the telegram behind `place` others takes of the length bytes and the message; zero past their end.
#[tactic(auto, unfolding(crate::specs::Cutting::stream_of))]
fn byte_at(message: &[u8], place: u16, i: u8) -> u8
    ensures { result ≡ get_or (stream_of message.now) (7 * place + i) 0 }
{
    let at = 7 * (place as usize) + i as usize;
    if at == 0 {
        (message.len() / 256 % 16) as u8
    } else if at == 1 {
        (message.len() % 256) as u8
    } else if at - 2 < message.len() {
        message[at - 2]
    } else {
        0
    }
}

// The first byte of a data telegram.
#[tactic(auto, using(laws::proofs::Branches::branches), unfolding(crate::specs::Cutting::header_of))]
fn header(asks: bool, last: bool, number: usize) -> u8
    ensures { result ≡ header_of asks last number }
{
    let n = (number % 16) as u8;
    if asks {
        if last { 0x10 + n } else { n }
    } else if last {
        0x30 + n
    } else {
        0x20 + n
    }
}

// How many bytes a telegram has: its first byte, and at most seven of what is left from a place on.
fn length_from(size: usize, at: usize) -> usize
    ensures { result ≡ 1 + min 7 (size - at) }
{
    1 + size.saturating_sub(at).min(7)
}

// A block size to divide by: 1 for none.
fn divisor(block: u8) -> u32
    ensures { result ≡ max block 1 }
{
    (block as u32).max(1)
}

// Whether the telegram behind `place` others of a message of len bytes asks for an Ack.
pub fn asks_at(block: u8, len: usize, place: u16) -> bool
    ensures { result ≡ asks_at block len place }
{
    let next = place as u32 + 1;
    let last = next as usize == frames(len);
    let full = (block != 0) & (next % divisor(block) == 0);
    last | full
}

// The telegram behind `place` others of a message: for its block size, and the number of the message's first telegram.
pub fn frame(message: &[u8], block: u8, first: u8, place: u16) -> Payload
    ensures { result ≡ frame_at message.now block first place }
{
    let len = message.len();
    let k = place as usize;
    let number = first as usize + k;
    let last = k + 1 == frames(len);
    let asks = asks_at(block, len, place);
    headed(message, header(asks, last, number), place)
}

// Where in the message the seven bytes stand that begin at a place of the length bytes and the message together; the message's
// end for those that begin with the length bytes.
fn piece_start(at: usize, len: usize) -> usize
    ensures { result ≡ (if ltb at 2 then len else at - 2) }
{
    if at < 2 { len } else { at - 2 }
}

// The telegram behind `place` others of a message, with its first byte. All but the first and the last take seven bytes of the
// message: those are read with one test for all of them.
fn headed(message: &[u8], head: u8, place: u16) -> Payload
    ensures { result ≡ payload_of (head ∷ take 7 (drop (7 * place) (stream_of message.now))) }
{
    let b = piece_start(7 * (place as usize), message.len());
    if message.len() < b + 7 {
        return headed_end(message, head, place);
    }
    Payload {
        len: 8,
        bytes: [
            head,
            message[b],
            message[b + 1],
            message[b + 2],
            message[b + 3],
            message[b + 4],
            message[b + 5],
            message[b + 6],
        ],
    }
}

// The same at any place, each byte read by itself. Written out: a loop would need an invariant that says these eight again.
fn headed_end(message: &[u8], head: u8, place: u16) -> Payload
    ensures { result ≡ payload_of (head ∷ take 7 (drop (7 * place) (stream_of message.now))) }
{
    let size = message.len() + 2;
    Payload {
        len: length_from(size, 7 * (place as usize)),
        bytes: [
            head,
            byte_at(message, place, 0),
            byte_at(message, place, 1),
            byte_at(message, place, 2),
            byte_at(message, place, 3),
            byte_at(message, place, 4),
            byte_at(message, place, 5),
            byte_at(message, place, 6),
        ],
    }
}
