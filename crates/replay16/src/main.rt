// Plays one exchange of TP 1.6 with a drive unit by the sections of SAE J3054 (source 001): channel and connection set-up, each
// first without its Ack; a message sent, to a unit that is not ready at first; a message received; the disconnect. Each part is
// headed by its section. The program prints each frame that it hands over and each message that it takes, and nothing more once
// that cannot be written.
//
// 001's figures are not in the text that we have. The IDs 0x740 and 0x741 are those of its 5.1.6 and 5.2.5, so by its table 4 the
// unit is 0x01 and we are 0x00. The block size, the times and the bytes of the two messages are ours and not 001's. Each side sends
// one message: 001 numbers data from 0 after each change of direction, and we count on.
#![tactic(auto)]

use connection::Connection;
use player::Player;
use profile::Profile;
use settings::Settings;
use text::output::Output;

// A routine is started, with twelve bytes: a message of three frames.
const REQUEST: [u8; 14] = *b"\x31\x01\x00\x01\x02\x03\x04\x05\x06\x07\x08\x09\x0A\x0B";

// The default T_E, T1 and T_WAIT, and the T3 of both sides, in tenths of a millisecond.
const T_E: u64 = 1000;

const T1: u64 = 1000;

const T_WAIT: u64 = 500;

const T3: u64 = 100;

// The ID that we listen on until the reply, and our receive ID.
const UNIT: u16 = 0x201;

const RECEIVE: u16 = 0x740;

fn main(rt: HostRuntime) {
    let mut buffer = [0; 1024];
    let row = Profile::drive();
    let mut settings = Settings::default_16(row);
    settings.unit = 0x01;
    let opened = Connection::closed().open_as(row, settings);
    let p = Player {
        output: Output::fresh(),
        connection: opened.left,
    };
    let p = set_up_channel(&rt, p, &mut buffer);
    let p = set_up_connection(&rt, p, &mut buffer);
    let p = send_block(&rt, p, &mut buffer);
    let p = send_last(&rt, p, &mut buffer);
    let p = receive_block(&rt, p, &mut buffer);
    let p = receive_last(&rt, p, &mut buffer);
    disconnect(&rt, p);
}

// A wait's last tenth passes below the next heading: what ends with it stands there, and not above.
fn set_up_channel<R: Print + Eprint>(rt: &R, p: Player, buffer: &mut [u8]) -> Player {
    p.say(rt, b"# 001, 6.1.2: channel set-up missing Ack\n")
        .hand_over(rt, &[])
        .wait(rt, T_E - 1, &[])
        .say(rt, b"# 001, 6.1.1: channel set-up with Ack\n")
        .wait(rt, 1, &[])
        .arrive(rt, UNIT, b"\x00\xD0\x41", buffer)
}

// The unit takes blocks of two frames.
fn set_up_connection<R: Print + Eprint>(rt: &R, p: Player, buffer: &mut [u8]) -> Player {
    p.say(rt, b"# 001, 6.2.2: connection set-up missing Ack\n")
        .hand_over(rt, &[])
        .wait(rt, T_E - 1, &[])
        .say(rt, b"# 001, 6.2.1: connection set-up with Ack\n")
        .wait(rt, 1, &[])
        .arrive(rt, RECEIVE, b"\xA1\x02\x8A\xFF\x4A\xFF", buffer)
}

// The Ack of both frames is not ready, and then is: we hold for T_WAIT either way.
fn send_block<R: Print + Eprint>(rt: &R, p: Player, buffer: &mut [u8]) -> Player {
    p.say(
        rt,
        b"# 001, 5.2.3, 5.2.2.2: data without AR, then with AR; receiver not ready\n",
    )
    .send(&REQUEST)
    .wait(rt, T3, &REQUEST)
    .wait(rt, T3, &REQUEST)
    .arrive(rt, RECEIVE, b"\x92", buffer)
    .wait(rt, T_WAIT / 2, &REQUEST)
    .arrive(rt, RECEIVE, b"\xB2", buffer)
    .wait(rt, T_WAIT / 2 - 1, &REQUEST)
}

// With its Ack the message is done: nothing is sent again after T1.
fn send_last<R: Print + Eprint>(rt: &R, p: Player, buffer: &mut [u8]) -> Player {
    p.say(
        rt,
        b"# 001, 6.2.3: sending data with acknowledge request - ready response\n",
    )
    .wait(rt, 1, &REQUEST)
    .arrive(rt, RECEIVE, b"\xB3", buffer)
    .wait(rt, T1, &REQUEST)
}

// The answer is of three frames too.
fn receive_block<R: Print + Eprint>(rt: &R, p: Player, buffer: &mut [u8]) -> Player {
    p.say(
        rt,
        b"# 001, 5.2.3: the direction changes; data without AR, then with AR\n",
    )
    .arrive(rt, RECEIVE, b"\x20\x00\x0E\x71\x01\x0C\x0D\x0E", buffer)
    .wait(rt, T3, &[])
    .arrive(rt, RECEIVE, b"\x01\x0F\x10\x11\x12\x13\x14\x15", buffer)
    .wait(rt, T3, &[])
}

fn receive_last<R: Print + Eprint>(rt: &R, p: Player, buffer: &mut [u8]) -> Player {
    p.say(rt, b"# 001, 5.2.3: data with AR and EOM\n")
        .arrive(rt, RECEIVE, b"\x12\x16\x17", buffer)
        .wait(rt, T3, &[])
}

fn disconnect<R: Print + Eprint>(rt: &R, p: Player) -> Player {
    p.say(rt, b"# 001, 5.2.3: disconnect\n")
        .close()
        .hand_over(rt, &[])
}
