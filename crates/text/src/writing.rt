// Characters, bytes and numbers into a lent text. Each writer takes the text and a place: of a struct that lends the text, what it
// wrote is known of the caller's text only if every call promises that it lends the same one still.
ghost use Rattle.std.specs.Prelude.{◌+◌, ◌/◌, ◌%◌, ◌≤◌, [], ◌∷◌, ◌≡◌, length, take};
ghost use Rattle.text.specs.Digits.{IsDigitCount, IsPrefixLen, last_digits};
ghost use Rattle.text.specs.Written.{Writes, if_given, glyph, pair_of, pairs_of, id_of, flags_of, decimal_of};

// One character.
pub fn byte(text: &mut [u8], at: usize, b: u8) -> usize
    ensures { Writes text.old at (b ∷ []) text.new result }
{
    if text.len() <= at {
        return at;
    }
    text[at] = b;
    at + 1
}

// Characters as they stand.
pub fn bytes(text: &mut [u8], at: usize, s: &[u8]) -> usize
    ensures { Writes text.old at s.now text.new result }
{
    let mut next = at;
    for c in s {
        next = byte(text, next, *c);
    }
    next
}

// Characters, where they are given. No option: callers have the flag, and the characters are a constant.
pub fn bytes_if(text: &mut [u8], at: usize, given: bool, s: &[u8]) -> usize
    ensures { Writes text.old at (if_given given s.now) text.new result }
{
    if given { bytes(text, at, s) } else { at }
}

// A hexadecimal digit, in upper case: that of a number's last four bits.
pub fn digit(text: &mut [u8], at: usize, n: u8) -> usize
    ensures { Writes text.old at (glyph (n % 16) ∷ []) text.new result }
{
    byte(text, at, glyph(n % 16))
}

// A byte as two hexadecimal digits.
pub fn pair(text: &mut [u8], at: usize, b: u8) -> usize
    ensures { Writes text.old at (pair_of b) text.new result }
{
    let next = digit(text, at, b / 16);
    digit(text, next, b)
}

// Bytes as pairs of digits, a blank before each.
pub fn pairs(text: &mut [u8], at: usize, s: &[u8]) -> usize
    ensures { Writes text.old at (pairs_of s.now) text.new result }
{
    let mut next = at;
    for b in s {
        next = spaced(text, next, *b);
    }
    next
}

fn spaced(text: &mut [u8], at: usize, b: u8) -> usize
    ensures { Writes text.old at (32 ∷ pair_of b) text.new result }
{
    let next = byte(text, at, b' ');
    pair(text, next, b)
}

// A CAN ID as three hexadecimal digits.
pub fn id(text: &mut [u8], at: usize, id: u16) -> usize
    ensures { Writes text.old at (id_of id) text.new result }
{
    let next = digit(text, at, (id / 256) as u8);
    pair(text, next, (id % 256) as u8)
}

// A message's flags as " flags F", F being the digit of their last four bits; nothing for flags 0.
pub fn flags(text: &mut [u8], at: usize, n: u8) -> usize
    ensures { Writes text.old at (flags_of n) text.new result }
{
    if n == 0 {
        return at;
    }
    let next = bytes(text, at, b" flags ");
    digit(text, next, n)
}

// A decimal number, with no zeros before it.
pub fn decimal(text: &mut [u8], at: usize, n: u64) -> usize
    ensures { Writes text.old at (decimal_of n) text.new result }
{
    let mut digits = [0u8; 20];
    let k = digits_of(n, &mut digits);
    bytes(text, at, &digits[..k])
}

fn digits_of(n: u64, digits: &mut [u8; 20]) -> usize
    ensures prefix_len { IsPrefixLen result digits.new }
    ensures digits_after { take result digits.new ≡ decimal_of n }
{
    let k = digit_count(n);
    put_digits(n, k, digits);
    k
}

// How many digits a number has.
fn digit_count(n: u64) -> usize
    ensures { IsDigitCount n result }
{
    match n.checked_ilog10() {
        Some(k) => k as usize + 1,
        None => 1,
    }
}

// A number's last k digits to the start of lent ones.
fn put_digits(n: u64, k: usize, digits: &mut [u8])
    requires { k ≤ length digits.old }
    ensures { take k digits.new ≡ last_digits k n }
{
    let mut rest = n;
    for i in 0..k {
        digits[k - 1 - i] = b'0' + (rest % 10) as u8;
        rest /= 10;
    }
}

fn glyph(d: u8) -> u8
    requires { d ≤ 15 }
    ensures { result ≡ glyph d }
{
    if d < 10 { 48 + d } else { 55 + d }
}
