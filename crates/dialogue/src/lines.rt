// Lines of standard input.
ghost use Rattle.std.specs.Prelude.{◌≡◌};
ghost use Rattle.dialogue.specs.Lines.{without_return, LineRead};

use std::io;
use text::writing;

// A line that was read: how many characters it has, and whether the input ended with it.
#[derive(Clone, Copy)]
pub struct Line {
    pub fill: usize,
    pub ended: bool,
}

// Reads a line, character by character, so that nothing behind it is waited for. Its end is not kept, and what there is no
// room for is not either.
pub fn read_line<R: Input>(rt: &R, line: &mut [u8]) -> Line
    ensures { LineRead line.old line.new result }
{
    let mut input = rt.reader();
    let mut fill = 0;
    for _ in 0..u64::MAX {
        let Some(b) = read_character(&mut input) else {
            return Line { fill, ended: true };
        };
        if b == b'\n' {
            return Line {
                fill: without_return(line, fill),
                ended: false,
            };
        }
        fill = writing::byte(line, fill, b);
    }
    Line { fill, ended: true }
}

// A line's length without the CR that belongs to its end.
fn without_return(line: &[u8], fill: usize) -> usize
    ensures { result ≡ without_return line.now fill }
{
    if fill == 0 {
        return 0;
    }
    let last = fill - 1;
    if last < line.len() && line[last] == b'\r' {
        return last;
    }
    fill
}

// The next character, and none at the input's end; one that cannot be read ends the input.
fn read_character<I: io::Read>(input: &mut I) -> Option<u8> {
    let mut one = [0u8; 1];
    match input.read(&mut one) {
        Ok(1) => Some(one[0]),
        _ => None,
    }
}
