// The opening frames of TP 1.6 (SAE J3054, 5.1): three bytes, and channel IDs for CAN IDs. Functions of their own, since the two forms
// have only unit and opcode in common.
ghost use Rattle.std.specs.Prelude.{◌≡◌};
ghost use Rattle.opening.specs.Short.{short_request_of, short_reply_of, short_request_read, short_reply_read};

use crate::{NO_RESOURCES, POSITIVE, ReplyError, Request};
use telegram::payload::Payload;

// The request to a unit, by an end that receives on the given ID.
pub fn write_request(unit: u8, receive: u16) -> Payload
    ensures { result ≡ short_request_of unit receive }
{
    Payload {
        len: 3,
        bytes: [unit, 0xC0, (receive % 256) as u8, 0, 0, 0, 0, 0],
    }
}

// A reply with the given opcode; the ID is the transmit ID of the end that asked.
pub fn write_reply(opcode: u8, transmit: u16) -> Payload
    ensures { result ≡ short_reply_of opcode transmit }
{
    Payload {
        len: 3,
        bytes: [0x00, opcode, (transmit % 256) as u8, 0, 0, 0, 0, 0],
    }
}

// Reads a request; the ID in it is without its offset. None if it is malformed.
#[tactic(auto, using(laws::proofs::Branches::branches), unfolding(crate::specs::Short::short_request_read))]
pub fn read_request(s: &[u8]) -> Option<Request>
    ensures { result ≡ short_request_read s.now }
{
    if s.len() != 3 {
        return None;
    }
    if s[1] == 0xC0 {
        Some(Request {
            unit: s[0],
            receive: s[2] as u16,
        })
    } else {
        None
    }
}

// Reads a reply: the ID to transmit on, without its offset.
#[tactic(auto, using(laws::proofs::Branches::branches), unfolding(crate::specs::Short::short_reply_read))]
pub fn read_reply(s: &[u8]) -> Result<u16, ReplyError>
    ensures { result ≡ short_reply_read s.now }
{
    if s.len() != 3 {
        return Err(ReplyError::Malformed);
    }
    let zero = s[0];
    let opcode = s[1];
    if (zero == 0x00) & (opcode == NO_RESOURCES) {
        Err(ReplyError::Refused(opcode))
    } else if (zero == 0x00) & (opcode == POSITIVE) {
        Ok(s[2] as u16)
    } else {
        Err(ReplyError::Malformed)
    }
}
