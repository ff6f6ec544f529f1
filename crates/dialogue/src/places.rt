// The calls that a line can ask a table for, with the places that they name.
ghost use Rattle.std.specs.Prelude.{◌≡◌, length};
ghost use Rattle.dialogue.specs.Places.{place_read, behind_place, suits, asking, asked_with, asked_of, asked_into};

use crate::calls::{Call, LONGEST, read_call};
use crate::words::{behind_word, word};
use text::reading;
use text::reading::NumberError;

// A call, and the place that it names, if it names one.
#[derive(Clone, Copy)]
pub struct Asked {
    pub place: Option<u8>,
    pub call: Call,
}

// The largest number that names a place, be it one of the table or not.
const LARGEST: u64 = 255;

// What a line asks a table for; bytes that it gives are written to the start of bytes.
#[tactic(auto, unfolding(crate::specs::Places::asked_of, crate::specs::Places::asked_into))]
pub fn read_asked(line: &[u8], bytes: &mut [u8]) -> Asked
    ensures value { result ≡ asked_of (length bytes.old) line.now }
    ensures bytes_after { bytes.new ≡ asked_into bytes.old line.now }
{
    let place = place(line);
    let call = read_call(behind_place(line, place), bytes);
    asked_with(place, call)
}

// The number in front of a call; a line that is too long for a call has none.
#[tactic(auto, using(laws::proofs::Branches::branches), unfolding(crate::specs::Places::place_read))]
fn place(line: &[u8]) -> Result<u64, NumberError>
    ensures { result ≡ place_read line.now }
{
    if LONGEST < line.len() {
        return Err(NumberError::Bad);
    }
    reading::decimal(word(line))
}

// What stands behind that number, and the line itself where there is none.
#[tactic(auto, unfolding(crate::specs::Places::behind_place))]
fn behind_place(line: &[u8], place: Result<u64, NumberError>) -> &[u8]
    ensures { result.now ≡ behind_place place line.now }
{
    match place {
        Ok(_) | Err(NumberError::TooLarge) => behind_word(line),
        Err(NumberError::Bad) => line,
    }
}

// A call behind a number.
#[tactic(auto, using(laws::proofs::Branches::branches), unfolding(crate::specs::Places::asked_with))]
fn asked_with(place: Result<u64, NumberError>, call: Call) -> Asked
    ensures { result ≡ asked_with place call }
{
    match place {
        Ok(n) if n <= LARGEST => asking(Some(n as u8), call),
        Ok(_) | Err(NumberError::TooLarge) => asking(None, Call::Wrong),
        Err(NumberError::Bad) => asking(None, call),
    }
}

// A call with its place, if it may stand so.
fn asking(place: Option<u8>, call: Call) -> Asked
    ensures { result ≡ asking place call }
{
    let call = if suits(place.is_some(), call) {
        call
    } else {
        Call::Wrong
    };
    Asked { place, call }
}

// Whether a call may stand behind a place, or with none.
#[tactic(auto, unfolding(crate::specs::Places::suits))]
fn suits(named: bool, call: Call) -> bool
    ensures { result ≡ suits named call }
{
    match call {
        Call::Wrong | Call::Time(_) => true,
        Call::Nothing | Call::New | Call::Frame { .. } | Call::Other(_) => !named,
        Call::Due
        | Call::DueOf(_)
        | Call::Send(_)
        | Call::Take
        | Call::Close
        | Call::Room(_)
        | Call::Buffer => named,
    }
}
