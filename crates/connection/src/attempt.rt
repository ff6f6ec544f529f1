// A request of an opening, the C0 or the A0.
ghost use Rattle.std.specs.Prelude.{◌≡◌};
ghost use Rattle.connection.specs.Record.{no_attempt, new_attempt};

// What is noted of it. A timer at 0 does not run. Each flag is a fact of its own, and none says whether a value beside it counts.
#[derive(Clone, Copy)]
pub struct Attempt {
    // What is left of the wait for the reply (T_E).
    pub wait: u32,
    // It is due.
    pub due: bool,
    // It was handed over at least once.
    pub asked: bool,
    // How often it was repeated.
    pub repeats: u8,
}

// No request of the opening is out or due. It differs from the next in one flag, and each is a word of the definitions.
pub(crate) fn no_attempt() -> Attempt
    ensures { result ≡ no_attempt }
{
    Attempt {
        due: false,
        asked: false,
        wait: 0,
        repeats: 0,
    }
}

// A request that is due for the first time.
pub(crate) fn new_attempt() -> Attempt
    ensures { result ≡ new_attempt }
{
    Attempt {
        due: true,
        asked: false,
        wait: 0,
        repeats: 0,
    }
}
