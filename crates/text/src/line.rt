// A line of output, as far as it is written.
ghost use Rattle.std.specs.Prelude.{◌≡◌, take};
ghost use Rattle.text.specs.Written.{Writes};

use crate::{reading, writing};
use std::fmt;

// The first len characters: what a line has no room for is left out.
#[derive(Clone, Copy, Default)]
pub struct Line<const ROOM: usize> {
    pub text: [u8; ROOM],
    pub len: usize,
}

impl<const ROOM: usize> Line<ROOM> {
    // What is written so far.
    pub fn text(&self) -> &[u8]
        ensures { result.now ≡ take self.now.len self.now.text }
    {
        reading::part(&self.text, 0, self.len)
    }

    // Characters as they stand.
    pub fn put(&mut self, text: &[u8])
        ensures { Writes self.old.text self.old.len text.now self.new.text self.new.len }
    {
        self.len = writing::bytes(&mut self.text, self.len, text);
    }
}

impl<const ROOM: usize> fmt::Write for Line<ROOM> {
    ghost write_str_gives = { λ line text next. Writes line.text line.len text next.text next.len };

    fn write_str(&mut self, text: &str) -> fmt::Result {
        self.put(text.as_bytes());
        Ok(())
    }
}
