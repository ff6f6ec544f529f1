// Telegrams on a channel: the kinds, how a telegram is sorted into one, and the writers.
ghost use Rattle.std.specs.Prelude.{◌≡◌};
ghost use Rattle.telegram.specs.Kinds.{bad_block, fillable, sorted, ack_of, test_of, disconnect_of, setup_of, accept_of};

use crate::payload::Payload;

// What an A0 (connection set-up) and an A1 (connection acknowledge) carry: the block size byte and two time codes.
#[derive(Clone, Copy)]
pub struct Parameters {
    pub block: u8,
    pub t1: u8,
    pub t3: u8,
}

// A telegram's kind. The bytes that a data telegram carries stay in the slice, from its second byte on. Badly formed is a kind like
// the others, with a row of its own in the protocol's table.
#[derive(Clone, Copy)]
pub enum Telegram {
    Data { asks: bool, last: bool, number: u8 },
    Ack { ready: bool, number: u8 },
    Test,
    Break,
    Disconnect,
    Setup(Parameters),
    Accept(Parameters),
    Malformed,
}

// A telegram's kind, and whether it is a control telegram that is filled up to 8 bytes.
#[derive(Clone, Copy)]
pub struct Sorted {
    pub kind: Telegram,
    pub padded: bool,
}

// Sorts a telegram of any length into its kind, and says whether it is padded.
pub fn sort(s: &[u8]) -> Sorted
    ensures { result ≡ sorted s.now }
{
    let kind = kind(s);
    Sorted {
        kind,
        padded: fillable(kind) & (s.len() == 8),
    }
}

// Whether a telegram of this kind may be filled up to 8 bytes.
fn fillable(kind: Telegram) -> bool
    ensures { result ≡ fillable kind }
{
    matches!(
        kind,
        Telegram::Ack { .. }
            | Telegram::Test
            | Telegram::Break
            | Telegram::Disconnect
            | Telegram::Accept(_)
    )
}

#[tactic(auto, using(laws::proofs::Branches::branches), unfolding(crate::specs::Kinds::kind_of))]
fn kind(s: &[u8]) -> Telegram
    ensures { result ≡ (sorted s.now).kind }
{
    let n = s.len();
    if n == 0 {
        return Telegram::Malformed;
    }
    let b = s[0];
    if (b / 64 == 0) & (2 <= n) & (n <= 8) {
        return Telegram::Data {
            asks: b / 32 % 2 == 0,
            last: b / 16 % 2 == 1,
            number: b % 16,
        };
    }
    // A length of its own, or 8 bytes.
    let single = (n == 1) | (n == 8);
    if single & (b / 64 == 2) & (b / 16 % 2 == 1) {
        return Telegram::Ack {
            ready: b / 32 % 2 == 1,
            number: b % 16,
        };
    }
    if single & (b == 0xA3) {
        return Telegram::Test;
    }
    if single & (b == 0xA4) {
        return Telegram::Break;
    }
    if single & (b == 0xA8) {
        return Telegram::Disconnect;
    }
    let six = (n == 6) | (n == 8);
    if !six {
        return Telegram::Malformed;
    }
    let p = Parameters {
        block: s[1],
        t1: s[2],
        t3: s[4],
    };
    if (n == 6) & (b == 0xA0) {
        return Telegram::Setup(p);
    }
    if b == 0xA1 {
        return Telegram::Accept(p);
    }
    Telegram::Malformed
}

// Whether a block size is none: 0 or over 15.
#[tactic(auto, using(laws::proofs::Branches::branches), unfolding(crate::specs::Kinds::bad_block))]
pub fn bad_block(block: u8) -> bool
    ensures { result ≡ bad_block block }
{
    block == 0 || 15 < block
}

pub fn write_ack(ready: bool, number: u8) -> Payload
    ensures { result ≡ ack_of ready number }
{
    let opcode = if ready { 0xB0 } else { 0x90 };
    Payload {
        len: 1,
        bytes: [opcode + number % 16, 0, 0, 0, 0, 0, 0, 0],
    }
}

pub fn write_test() -> Payload
    ensures { result ≡ test_of }
{
    Payload {
        len: 1,
        bytes: [0xA3, 0, 0, 0, 0, 0, 0, 0],
    }
}

pub fn write_disconnect() -> Payload
    ensures { result ≡ disconnect_of }
{
    Payload {
        len: 1,
        bytes: [0xA8, 0, 0, 0, 0, 0, 0, 0],
    }
}

// An A0.
pub fn write_setup(p: Parameters) -> Payload
    ensures { result ≡ setup_of p }
{
    Payload {
        len: 6,
        bytes: [0xA0, p.block, p.t1, 0xFF, p.t3, 0xFF, 0, 0],
    }
}

// An A1.
pub fn write_accept(p: Parameters) -> Payload
    ensures { result ≡ accept_of p }
{
    Payload {
        len: 6,
        bytes: [0xA1, p.block, p.t1, 0xFF, p.t3, 0xFF, 0, 0],
    }
}
