// Standard input, as far as a lent text has room.
ghost use Rattle.text.specs.Digits.{IsPrefixLen};

use std::io::Read;

// Reads until the text is full, the input ends or a read fails, and answers how many characters stand at its start.
pub fn read_full<R: Input>(rt: &R, text: &mut [u8]) -> usize
    ensures { IsPrefixLen result text.new }
{
    let mut input = rt.reader();
    let mut fill = 0;
    // read_exact would not tell how many characters came before the end.
    while fill < text.len() {
        match input.read(&mut text[fill..]) {
            Ok(0) | Err(_) => return fill,
            Ok(n) => fill += n,
        }
    }
    fill
}
