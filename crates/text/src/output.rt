// Standard output, as a value that knows whether it still takes anything.
ghost use Rattle.std.specs.Prelude.{◌≡◌};
ghost use Rattle.text.specs.Output.{fresh, Said};

#[derive(Clone, Copy)]
pub struct Output {
    pub failed: bool,
}

impl Output {
    // Nothing written yet.
    pub fn fresh() -> Output
        ensures { result ≡ fresh }
    {
        Output { failed: false }
    }

    // Writes a text, whole. The first that cannot be written is reported on standard error, and nothing is written after it.
    pub fn say<R: Print + Eprint>(self, rt: &R, text: &[u8]) -> Output
        ensures { Said self text.now result }
    {
        if self.failed || text.is_empty() || rt.write_all(text).is_ok() {
            return self;
        }
        let _ = rt.eprint("cannot write to standard output\n");
        Output { failed: true }
    }
}
