// Numbers, bytes and words out of a text.
ghost use Rattle.std.specs.Prelude.{◌+◌, ◌-◌, ◌≤◌, ◌^◌, Bool, ◌≡◌, length, take, drop};
ghost use Rattle.text.specs.Numbers.{digit_of, is_digit, number_from, number_of};
ghost use Rattle.text.specs.Pairs.{is_pair, byte_of, pairs_read, pairs_into};
ghost use Rattle.text.specs.Words.{is_blank, belongs, run_of, word_from};

// Why a text stands for no number of 64 bits.
#[derive(Clone, Copy, Debug, PartialEq, Eq)]
pub enum NumberError {
    // A number that 64 bits do not hold.
    TooLarge,
    // No number.
    Bad,
}

// Why a text gives no bytes.
#[derive(Clone, Copy, Debug, PartialEq, Eq)]
pub enum PairsError {
    // More bytes than there is room for.
    TooMany,
    // No pairs of digits.
    Bad,
}

// Where something starts and where it ends: the place of its first character, and that behind its last.
#[derive(Clone, Copy)]
pub struct Span {
    pub start: usize,
    pub end: usize,
}

// What a digit stands for, a hexadecimal one of either case, and 16 for any other character. No option: `digit_of` holds it so,
// and candump looks it up in a table of bytes.
#[tactic(auto, using(laws::proofs::Branches::branches), unfolding(crate::specs::Numbers::digit_of))]
pub fn digit(c: u8) -> u8
    ensures { result ≡ digit_of c }
{
    match c {
        b'0'..=b'9' => c - b'0',
        b'A'..=b'F' => c - b'A' + 10,
        b'a'..=b'f' => c - b'a' + 10,
        _ => 16,
    }
}

// A decimal number, of any length.
pub fn decimal(s: &[u8]) -> Result<u64, NumberError>
    ensures { result ≡ number_of 10 s.now }
{
    in_base(s, 10)
}

// A hexadecimal number, of any length, its digits of either case.
pub fn hexadecimal(s: &[u8]) -> Result<u64, NumberError>
    ensures { result ≡ number_of 16 s.now }
{
    in_base(s, 16)
}

fn is_digit(c: u8, base: u64) -> bool
    ensures { result ≡ is_digit base c }
{
    u64::from(digit(c)) < base
}

fn in_base(s: &[u8], base: u64) -> Result<u64, NumberError>
    requires { 1 ≤ base }
    ensures { result ≡ number_of base s.now }
{
    if s.len() == 0 {
        return Err(NumberError::Bad);
    }
    let mut n: u64 = 0;
    for (i, c) in s.iter().enumerate() {
        let d = u64::from(digit(*c));
        if base <= d {
            return Err(NumberError::Bad);
        }
        if (u64::MAX - d) / base < n {
            return too_large(&s[i + 1..], base);
        }
        n = n * base + d;
    }
    Ok(n)
}

// A number that is too large already: what is left of it has to be digits.
fn too_large(rest: &[u8], base: u64) -> Result<u64, NumberError>
    requires { 1 ≤ base }
    ensures { result ≡ number_from base (2 ^ 64) rest.now }
{
    for c in rest {
        if !is_digit(*c, base) {
            return Err(NumberError::Bad);
        }
    }
    Err(NumberError::TooLarge)
}

// Bytes written as pairs of hexadecimal digits, with or without blanks between the pairs, go to the start of bytes; the answer
// is how many.
pub fn pairs(s: &[u8], bytes: &mut [u8]) -> Result<usize, PairsError>
    ensures value { result ≡ pairs_read (length bytes.old) 0 s.now }
    ensures bytes_after { bytes.new ≡ pairs_into bytes.old 0 s.now }
{
    let mut n = 0;
    let mut rest = s;
    while let [c, after @ ..] = rest {
        if is_blank(*c) {
            rest = after;
            continue;
        }
        let [d, behind @ ..] = after else {
            return Err(PairsError::Bad);
        };
        if !are_digits(*c, *d) {
            return Err(PairsError::Bad);
        }
        if bytes.len() <= n {
            return Err(PairsError::TooMany);
        }
        bytes[n] = byte_of(*c, *d);
        n += 1;
        rest = behind;
    }
    Ok(n)
}

#[tactic(auto, using(laws::proofs::Branches::branches), unfolding(crate::specs::Pairs::is_pair))]
fn are_digits(c: u8, d: u8) -> bool
    ensures { result ≡ is_pair c d }
{
    is_digit(c, 16) && is_digit(d, 16)
}

fn byte_of(c: u8, d: u8) -> u8
    ensures { result ≡ byte_of c d }
{
    16 * (digit(c) % 16) + digit(d) % 16
}

// The characters that stand between words.
pub fn is_blank(c: u8) -> bool
    ensures { result ≡ is_blank c }
{
    c == b' '
}

// The first word from a place on; an empty one at the end where there is none.
pub fn word(s: &[u8], from: usize) -> Span
    ensures { result ≡ word_from s.now from }
{
    let start = run_end(s, from, true);
    let end = run_end(s, start, false);
    Span { start, end }
}

// Where a run of blanks, or of other characters, ends.
fn run_end(s: &[u8], from: usize, blank: bool) -> usize
    ensures { result ≡ from + run_of blank (drop from s.now) }
{
    let rest = part(s, from, s.len());
    for (i, c) in rest.iter().enumerate() {
        if !belongs(*c, blank) {
            return from + i;
        }
    }
    from + rest.len()
}

#[tactic(auto, using(laws::proofs::Branches::branches), unfolding(crate::specs::Words::belongs))]
fn belongs(c: u8, blank: bool) -> bool
    ensures { result ≡ belongs blank c }
{
    if blank { is_blank(c) } else { !is_blank(c) }
}

// The part from start up to end, as far as the text has it.
pub fn part(s: &[u8], start: usize, end: usize) -> &[u8]
    ensures { result.now ≡ take (end - start) (drop start s.now) }
{
    let end = end.min(s.len());
    if end < start { &[] } else { &s[start..end] }
}
