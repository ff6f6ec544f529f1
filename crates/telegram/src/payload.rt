// What goes out.
ghost use Rattle.std.specs.Prelude.{◌≡◌};
ghost use Rattle.telegram.specs.Outgoing.{bytes_of};

// The bytes of a telegram: the first len of eight, as nothing here stands on the heap. Every writer leaves zeros behind them.
#[derive(Clone, Copy)]
pub struct Payload {
    pub len: usize,
    pub bytes: [u8; 8],
}

impl Payload {
    // The bytes that it puts on the bus: its first len, all eight where len is over eight.
    pub fn as_slice(&self) -> &[u8]
        ensures { result.now ≡ bytes_of self.now }
    {
        &self.bytes[..self.len.min(8)]
    }
}
