// Replays the exchange of source 004: opens a channel to the engine control unit, starts a session, reads one block of
// measuring values, and closes. It prints each frame that it hands over and each message that it takes, and stops where that
// cannot be written.
#![tactic(auto)]

use connection::Connection;
use player::Player;
use settings::Settings;
use text::output::Output;

// What happens in the exchange: a CAN frame arrives, or a message is sent.
#[derive(Clone, Copy)]
enum Entry {
    Arrives(u16, &'static [u8]),
    Sent(&'static [u8]),
}

const EXCHANGE: [Entry; 11] = [
    Entry::Arrives(0x201, b"\x00\xD0\x00\x03\x40\x07\x01"),
    Entry::Arrives(0x300, b"\xA1\x0F\x8A\xFF\x4A\xFF"),
    Entry::Sent(b"\x10\x89"),
    Entry::Arrives(0x300, b"\xB1"),
    Entry::Arrives(0x300, b"\x10\x00\x02\x50\x89"),
    Entry::Sent(b"\x21\x01"),
    Entry::Arrives(0x300, b"\xB2"),
    Entry::Arrives(0x300, b"\x21\x00\x1A\x61\x01\x01\x00\x00"),
    Entry::Arrives(0x300, b"\x22\x27\x00\x00\x22\x00\x80\x1A"),
    Entry::Arrives(0x300, b"\x23\x32\x4B\x25\x02\x7A\x25\x00"),
    Entry::Arrives(0x300, b"\x14\x00\x25\x00\x00\x25\x00\x00"),
];

// The time between two entries, in tenths of a millisecond: the unit wants 10 ms between data frames.
const PAUSE: u64 = 100;

fn main(rt: HostRuntime) {
    let mut buffer = [0; 1024];
    let mut settings = Settings::DEFAULT;
    settings.block = 15;
    let opened = Connection::closed().open(settings);
    let begun = Player {
        output: Output::fresh(),
        connection: opened.left,
    };
    play(&rt, begun.hand_over(&rt, &[]), &EXCHANGE, &mut buffer)
        .close()
        .hand_over(&rt, &[]);
}

// Plays the entries of an exchange, and lets the time between two pass behind each; an output that failed ends it.
fn play<R: Print + Eprint>(rt: &R, begun: Player, exchange: &[Entry], buffer: &mut [u8]) -> Player {
    let mut p = begun;
    for entry in exchange {
        if p.output.failed {
            return p;
        }
        p = match *entry {
            Entry::Arrives(id, bytes) => p.arrive(rt, id, bytes, buffer).wait(rt, PAUSE, &[]),
            Entry::Sent(message) => p.send(message).wait(rt, PAUSE, message),
        };
    }
    p
}
