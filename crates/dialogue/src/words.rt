// What the words of a line say.
ghost use Rattle.std.specs.Prelude.{◌≡◌, length};
ghost use Rattle.dialogue.specs.Words.{word_at, behind_word, letters_of, only_word, only_number, id_read, only_id, dash_read, octets_read, octets_into};

use text::reading;
use text::reading::{NumberError, PairsError};

// The first word.
#[tactic(auto, unfolding(crate::specs::Words::word_at))]
pub(crate) fn word(s: &[u8]) -> &[u8]
    ensures { result.now ≡ word_at s.now 0 }
{
    let w = reading::word(s, 0);
    reading::part(s, w.start, w.end)
}

// What stands behind the first word, from the next word on.
pub fn behind_word(s: &[u8]) -> &[u8]
    ensures { result.now ≡ behind_word s.now }
{
    let w = reading::word(s, 0);
    let next = reading::word(s, w.end);
    reading::part(s, next.start, s.len())
}

// The number that the characters of a word make, as digits of base 256; 0 for a word of more than eight.
pub(crate) fn letters(word: &[u8]) -> u64
    ensures { result ≡ letters_of word.now }
{
    if 8 < word.len() {
        return 0;
    }
    let mut n = 0;
    for c in word {
        n = 256 * n + u64::from(*c);
    }
    n
}

// The only word, and an empty one where there are more.
#[tactic(auto, using(laws::proofs::Branches::branches, crate::proofs::Handed::lengths), unfolding(crate::specs::Words::only_word))]
fn only_word(words: &[u8]) -> &[u8]
    ensures { result.now ≡ only_word words.now }
{
    if behind_word(words).is_empty() {
        return word(words);
    }
    &[]
}

// A decimal number that is the only word.
#[tactic(auto, unfolding(crate::specs::Words::only_number))]
pub(crate) fn only_number(words: &[u8]) -> Result<u64, NumberError>
    ensures { result ≡ only_number words.now }
{
    reading::decimal(only_word(words))
}

// A CAN ID of one to four digits.
#[tactic(auto, using(laws::proofs::Branches::branches), unfolding(crate::specs::Words::id_read))]
pub(crate) fn can_id(word: &[u8]) -> Result<u64, NumberError>
    ensures { result ≡ id_read word.now }
{
    if 4 < word.len() {
        return Err(NumberError::Bad);
    }
    reading::hexadecimal(word)
}

// A CAN ID that is the only word.
#[tactic(auto, unfolding(crate::specs::Words::only_id))]
pub fn only_id(words: &[u8]) -> Result<u64, NumberError>
    ensures { result ≡ only_id words.now }
{
    can_id(only_word(words))
}

// The bytes that some words give, a lone - being none, written to the start of bytes; the answer is how many.
#[tactic(auto, using(laws::proofs::Branches::branches), unfolding(crate::specs::Words::octets_read, crate::specs::Words::octets_into))]
pub(crate) fn octets(words: &[u8], bytes: &mut [u8]) -> Result<usize, PairsError>
    ensures value { result ≡ octets_read (length bytes.old) words.now }
    ensures bytes_after { bytes.new ≡ octets_into bytes.old words.now }
{
    if words.len() == 0 {
        return Err(PairsError::Bad);
    }
    if words[0] == b'-' {
        return no_octets(words);
    }
    reading::pairs(words, bytes)
}

// A - gives no bytes if it stands alone.
#[tactic(auto, using(laws::proofs::Branches::branches, crate::proofs::Handed::lengths), unfolding(crate::specs::Words::dash_read))]
fn no_octets(words: &[u8]) -> Result<usize, PairsError>
    ensures { result ≡ dash_read words.now }
{
    if behind_word(words).is_empty() && word(words).len() == 1 {
        return Ok(0);
    }
    Err(PairsError::Bad)
}
