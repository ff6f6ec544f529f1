// Answers as lines.
ghost use Rattle.std.specs.Prelude.{◌≡◌};
ghost use Rattle.text.specs.Written.{Writes, if_given, pairs_of};
ghost use Rattle.dialogue.specs.Answers.{marked, handing, showing, said_of, frame_text, given_text, carried_of, told_of, answer_of, place_text, answer_at, each_of, owner_of, error_of, contents_of};

use open_end::Frame;
use open_end::answers::Said;
use text::writing;

// What an answer says, and what it carries: the mark of a padded telegram; a frame, if there is one; a message's flags, its
// bytes being lent.
#[derive(Clone, Copy)]
pub struct Carried {
    pub said: Said,
    pub padded: bool,
    pub frame: Option<Frame>,
    pub flags: u16,
}

impl Carried {
    // Nothing but, it may be, the mark.
    pub fn marked(said: Said, padded: bool) -> Carried
        ensures { result ≡ marked said padded }
    {
        Carried {
            said,
            padded,
            frame: None,
            flags: 0,
        }
    }

    // A frame, if there is one.
    pub fn handing(said: Said, frame: Option<Frame>) -> Carried
        ensures { result ≡ handing said frame }
    {
        Carried {
            said,
            padded: false,
            frame,
            flags: 0,
        }
    }

    // A message.
    pub fn showing(said: Said, flags: u16) -> Carried
        ensures { result ≡ showing said flags }
    {
        Carried {
            said,
            padded: false,
            frame: None,
            flags,
        }
    }
}

// An answer, the bytes of its message being lent.
pub(crate) fn answer(text: &mut [u8], carried: Carried, message: &[u8]) -> usize
    ensures { Writes text.old 0 (answer_of carried message.now) text.new result }
{
    let at = told(text, carried, message);
    writing::byte(text, at, b'\n')
}

// An answer, and the place that gave it.
pub(crate) fn answer_at(text: &mut [u8], carried: Carried, place: u8) -> usize
    ensures { Writes text.old 0 (answer_at carried place) text.new result }
{
    let at = told(text, carried, &[]);
    let at = put_place(text, at, place);
    writing::byte(text, at, b'\n')
}

// An answer without the line's end.
fn told(text: &mut [u8], carried: Carried, message: &[u8]) -> usize
    ensures { Writes text.old 0 (told_of carried message.now) text.new result }
{
    let at = number(text, 0, carried.said);
    let at = with_carried(text, at, carried, message);
    writing::bytes_if(text, at, carried.padded, b" padded")
}

fn put_place(text: &mut [u8], at: usize, place: u8) -> usize
    ensures { Writes text.old at (place_text place) text.new result }
{
    let at = writing::bytes(text, at, b" at ");
    writing::decimal(text, at, place as u64)
}

// An answer's number, with 11 the opcode, and whether the message in sending is done.
fn number(text: &mut [u8], at: usize, said: Said) -> usize
    ensures { Writes text.old at (said_of said) text.new result }
{
    let at = writing::decimal(text, at, said.number as u64);
    let at = pairs_if(text, at, said.number == 11, &[said.opcode]);
    writing::bytes_if(text, at, said.done, b" done")
}

// A message's flags, a frame, and a message's bytes.
fn with_carried(text: &mut [u8], at: usize, carried: Carried, message: &[u8]) -> usize
    ensures { Writes text.old at (carried_of carried message.now) text.new result }
{
    let at = writing::flags(text, at, (carried.flags % 16) as u8);
    let at = frame_if(text, at, carried.frame);
    writing::pairs(text, at, message)
}

fn pairs_if(text: &mut [u8], at: usize, given: bool, s: &[u8]) -> usize
    ensures { Writes text.old at (if_given given (pairs_of s.now)) text.new result }
{
    if given {
        writing::pairs(text, at, s)
    } else {
        at
    }
}

fn frame_if(text: &mut [u8], at: usize, frame: Option<Frame>) -> usize
    ensures { Writes text.old at (given_text frame) text.new result }
{
    match frame {
        Some(frame) => put_frame(text, at, frame),
        None => at,
    }
}

// A frame as its ID and bytes, a blank before each.
fn put_frame(text: &mut [u8], at: usize, frame: Frame) -> usize
    ensures { Writes text.old at (frame_text frame) text.new result }
{
    let at = writing::byte(text, at, b' ');
    let at = writing::id(text, at, frame.id);
    writing::pairs(text, at, frame.payload.as_slice())
}

// What each of eight places answers, in one line.
pub(crate) fn each(text: &mut [u8], said: [Said; 8]) -> usize
    ensures { Writes text.old 0 (each_of said) text.new result }
{
    let mut at = number(text, 0, said[0]);
    for next in &said[1..] {
        at = writing::byte(text, at, b' ');
        at = number(text, at, *next);
    }
    writing::byte(text, at, b'\n')
}

// A place, and - for none.
pub(crate) fn owner(text: &mut [u8], place: Option<u8>) -> usize
    ensures { Writes text.old 0 (owner_of place) text.new result }
{
    match place {
        Some(place) => {
            let at = writing::decimal(text, 0, place as u64);
            writing::byte(text, at, b'\n')
        }
        None => writing::bytes(text, 0, b"-\n"),
    }
}

// The answer to a line that is no call.
pub(crate) fn error(text: &mut [u8], line: u64) -> usize
    ensures { Writes text.old 0 (error_of line) text.new result }
{
    let at = writing::bytes(text, 0, b"error line ");
    let at = writing::decimal(text, at, line);
    writing::byte(text, at, b'\n')
}

// Bytes as they stand, with a blank between two.
pub(crate) fn contents(text: &mut [u8], bytes: &[u8]) -> usize
    ensures { Writes text.old 0 (contents_of bytes.now) text.new result }
{
    match bytes {
        [] => writing::byte(text, 0, b'\n'),
        [first, rest @ ..] => {
            let at = writing::pair(text, 0, *first);
            let at = writing::pairs(text, at, rest);
            writing::byte(text, at, b'\n')
        }
    }
}
