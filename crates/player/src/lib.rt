// An exchange played through one end of a connection: what it hands over and the messages that it takes, each on a line of its
// own. Nothing more is printed once that cannot be written.
#![tactic(auto)]

ghost use Rattle.std.specs.Prelude.{◌≡◌, length};
ghost use Rattle.telegram.specs.Cutting.{longest};
ghost use Rattle.text.specs.Output.{Said};
ghost use Rattle.connection.specs.Calls.{arrived, buffered, elapsed, sent_by, taken_by, closed};
ghost use Rattle.player.specs.Player.{with_connection, handed, most_due};

use connection::Connection;
use open_end::{Frame, shown};
use text::output::Output;
use text::writing;

// What a step leaves: the output, and the record.
#[derive(Clone, Copy)]
pub struct Player {
    pub output: Output,
    pub connection: Connection,
}

impl Player {
    // The record that a call leaves.
    fn with(mut self, connection: Connection) -> Player
        ensures { result ≡ with_connection self connection }
    {
        self.connection = connection;
        self
    }

    // Prints a text.
    pub fn say<R: Print + Eprint>(mut self, rt: &R, text: &[u8]) -> Player
        ensures connection { result.connection ≡ self.connection }
        ensures output { Said self.output text.now result.output }
    {
        self.output = self.output.say(rt, text);
        self
    }

    // A CAN frame arrives, and a message that it completes is taken and printed.
    pub fn arrive<R: Print + Eprint>(
        self,
        rt: &R,
        id: u16,
        bytes: &[u8],
        buffer: &mut [u8],
    ) -> Player
        ensures value { result.connection ≡ (taken_by (arrived longest self.connection id bytes.now (length buffer.old)).left (length buffer.old)).left }
        ensures buffer_after { buffer.new ≡ buffered longest self.connection id bytes.now buffer.old }
    {
        let arrived = self.connection.arrive(id, bytes, buffer);
        self.with(arrived.left).take_and_print(rt, buffer)
    }

    // Takes the complete message, where it lies in the buffer, and prints it.
    fn take_and_print<R: Print + Eprint>(self, rt: &R, buffer: &[u8]) -> Player
        ensures { result.connection ≡ (taken_by self.connection (length buffer.now)).left }
    {
        let taken = self.connection.take(buffer);
        self.with(taken.left).print_message(rt, taken.message)
    }

    // A message to send.
    pub fn send(self, message: &[u8]) -> Player
        ensures { result ≡ with_connection self (sent_by longest self.connection (length message.now)).left }
    {
        let sent = self.connection.send(message);
        self.with(sent.left)
    }

    // Time passes, and what is due is handed over.
    pub fn wait<R: Print + Eprint>(self, rt: &R, tenths: u64, message: &[u8]) -> Player
        ensures { result.connection ≡ handed most_due (elapsed self.connection tenths).left message.now }
    {
        let passed = self.connection.elapse(tenths);
        self.with(passed.left).hand_over(rt, message)
    }

    pub fn close(self) -> Player
        ensures { result ≡ with_connection self (closed self.connection).left }
    {
        let closed = self.connection.close();
        self.with(closed.left)
    }

    // Hands over what is due, and prints it: never more than an exchange can make due at once.
    #[tactic(auto, using(crate::proofs::Handing::frame_more, crate::proofs::Handing::none_due, crate::proofs::Handing::all_handed))]
    pub fn hand_over<R: Print + Eprint>(self, rt: &R, message: &[u8]) -> Player
        ensures { result.connection ≡ handed most_due self.connection message.now }
    {
        let mut p = self;
        for _ in 0..MOST_DUE {
            let due = p.connection.due(message);
            p = p.with(due.left);
            let Some(frame) = due.frame else {
                return p;
            };
            p = p.print_frame(rt, frame);
        }
        p
    }

    // A frame: its ID, and its data.
    fn print_frame<R: Print + Eprint>(self, rt: &R, frame: Frame) -> Player
        ensures { result.connection ≡ self.connection }
    {
        let Frame { id, payload } = frame;
        let mut name = [0; 3];
        let end = writing::id(&mut name, 0, id);
        self.print_line(rt, shown(&name, end), payload.as_slice())
    }

    // No line for no message.
    fn print_message<R: Print + Eprint>(self, rt: &R, message: &[u8]) -> Player
        ensures { result.connection ≡ self.connection }
    {
        if message.len() == 0 {
            return self;
        }
        self.print_line(rt, b"message", message)
    }

    fn print_line<R: Print + Eprint>(self, rt: &R, name: &[u8], bytes: &[u8]) -> Player
        ensures { result.connection ≡ self.connection }
    {
        let mut line = [0; 3080];
        let end = writing::bytes(&mut line, 0, name);
        let end = writing::pairs(&mut line, end, bytes);
        let end = writing::byte(&mut line, end, b'\n');
        self.say(rt, shown(&line, end))
    }
}

// How many frames are handed over at a time, at most.
const MOST_DUE: u8 = 4;
