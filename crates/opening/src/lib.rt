// Opening frames, both ways: the C0 request and the replies D0, D6, D7, D8; those of TP 1.6 in `short`.
// Tests joined by `&` are all made, as in the definitions: none guards another.
#![tactic(auto)]

ghost use Rattle.std.specs.Prelude.{◌≡◌};
ghost use Rattle.opening.specs.Opening.{id_of, request_of, reply_of, request_read, reply_read};

use telegram::payload::Payload;

pub mod short;

// The CAN ID of every request; the unit answers on this ID and its own number.
pub const REQUEST_ID: u16 = 0x200;

// The opcode of the positive reply, and of the three negative ones. Numbers: a unit can be set to reply by any byte, and one that is
// none of these is answer 10 (`settable` of `unit`).
pub const POSITIVE: u8 = 0xD0;

pub const NOT_SUPPORTED: u8 = 0xD6;

pub const NOT_FOR_NOW: u8 = 0xD7;

pub const NO_RESOURCES: u8 = 0xD8;

// A well-formed request, read by the side that is asked.
#[derive(Clone, Copy)]
pub struct Request {
    pub unit: u8,
    // The ID on which the asking side receives.
    pub receive: u16,
}

// Why a reply names no transmit ID.
#[derive(Clone, Copy)]
pub enum ReplyError {
    // The opcode, D6, D7 or D8.
    Refused(u8),
    Malformed,
}

// The request to a unit, by an end that receives on the given ID.
pub fn write_request(unit: u8, receive: u16) -> Payload
    ensures { result ≡ request_of unit receive }
{
    Payload {
        len: 7,
        bytes: [
            unit,
            0xC0,
            0x00,
            0x10,
            (receive % 256) as u8,
            (receive / 256 % 8) as u8,
            0x01,
            0,
        ],
    }
}

// A reply with the given opcode; the IDs are those of the end that asked.
pub fn write_reply(opcode: u8, receive: u16, transmit: u16) -> Payload
    ensures { result ≡ reply_of opcode receive transmit }
{
    Payload {
        len: 7,
        bytes: [
            0x00,
            opcode,
            (receive % 256) as u8,
            (receive / 256 % 8) as u8,
            (transmit % 256) as u8,
            (transmit / 256 % 8) as u8,
            0x01,
            0,
        ],
    }
}

// The ID of a low and a high byte.
fn id_of(low: u8, high: u8) -> u16
    ensures { result ≡ id_of low high }
{
    u16::from_le_bytes([low, high])
}

// Reads a request; none if it is malformed.
#[tactic(auto, using(laws::proofs::Branches::branches), unfolding(crate::specs::Opening::request_read))]
pub fn read_request(s: &[u8]) -> Option<Request>
    ensures { result ≡ request_read s.now }
{
    if s.len() != 7 {
        return None;
    }
    let high = s[5];
    if (s[1] == 0xC0) & (s[2] == 0x00) & (s[3] == 0x10) & (high < 8) & (s[6] == 0x01) {
        Some(Request {
            unit: s[0],
            receive: id_of(s[4], high),
        })
    } else {
        None
    }
}

// Reads a reply against our own receive ID: the ID to transmit on.
#[tactic(auto, using(laws::proofs::Branches::branches), unfolding(crate::specs::Opening::reply_read))]
pub fn read_reply(s: &[u8], receive: u16) -> Result<u16, ReplyError>
    ensures { result ≡ reply_read s.now receive }
{
    if s.len() != 7 {
        return Err(ReplyError::Malformed);
    }
    let zero = s[0];
    let opcode = s[1];
    if (zero == 0x00)
        & ((opcode == NOT_SUPPORTED) | (opcode == NOT_FOR_NOW) | (opcode == NO_RESOURCES))
    {
        return Err(ReplyError::Refused(opcode));
    }
    let ours = s[3];
    let high = s[5];
    let own = id_of(s[2], ours) == receive;
    if (zero == 0x00) & (opcode == POSITIVE) & (ours < 8) & own & (high < 8) & (s[6] == 0x01) {
        Ok(id_of(s[4], high))
    } else {
        Err(ReplyError::Malformed)
    }
}
