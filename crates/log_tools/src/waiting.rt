// Output that waits in a lent text until there is no room for more.
ghost use Rattle.std.specs.Prelude.{◌≡◌};
ghost use Rattle.log_tools.specs.Waiting.{Written, Roomy};

use text::output::Output;
use text::reading::part;

#[derive(Clone, Copy)]
pub struct Waiting {
    pub output: Output,
    // How much of the text waits.
    pub fill: usize,
}

impl Waiting {
    // Writes what waits.
    pub fn written<R: Print + Eprint>(self, rt: &R, text: &[u8]) -> Waiting
        ensures { Written self text.now result }
    {
        Waiting {
            output: self.output.say(rt, part(text, 0, self.fill)),
            fill: 0,
        }
    }

    // With room for so many characters more, if need be by writing what waits.
    pub fn roomy<R: Print + Eprint>(self, rt: &R, text: &[u8], room: usize) -> Waiting
        ensures { Roomy self text.now room result }
    {
        if text.len() < room || text.len() - room < self.fill {
            return self.written(rt, text);
        }
        self
    }
}
