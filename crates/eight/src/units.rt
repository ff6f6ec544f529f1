// What eight units send, and the tally of what came and went.
//
// Each unit is opened by its D0 and its A1, and then sends one message of its own, over and over. The message has 144 frames, a
// multiple of 16: every one begins with frame number 0, so that the frames can be cut beforehand, and the work that is measured
// is our side's. A unit's frames are numbered by steps: at step 0 it sends one without bytes, which is refused and comes before
// our C0 is handed over; at 1 its D0, at 2 its A1, and from 3 on the frames of its message.
use open_end::{Frame, shown};
use opening::write_reply;
use settings::Settings;
use settings::agreed::own_fields;
use telegram::cutting;
use telegram::kinds::write_accept;
use telegram::payload::Payload;
use text::reading;

pub(crate) const UNITS: usize = 8;

// The steps of an opening, and those of an opening and a message.
pub(crate) const OPENING: usize = 3;

pub(crate) const STEPS: usize = OPENING + 144;

// The bytes of a message: 144 times 7, without the two of its length.
const LENGTH: usize = 1006;

// The time between two frames of a unit, in tenths of a millisecond.
pub(crate) const GAP: u64 = 50;

// The block size that both sides offer, whatever the default is: the counts printed hang on it.
const BLOCK: u8 = 15;

// What came and went. The checksum is a sum over what we handed over, each telegram mixed with the step at which it went, and
// over the bytes of the messages taken: it does not hang on whose turn it was.
#[derive(Clone, Copy, Default)]
pub(crate) struct Tally {
    pub(crate) messages: u64,
    pub(crate) frames: u64,
    pub(crate) bytes: u64,
    pub(crate) checksum: u64,
    // A message was not handed out as it was sent.
    pub(crate) wrong: bool,
}

// The settings of the connection to a unit: the default but for the unit, our receive ID and the block size.
pub(crate) fn settings_for(unit: usize) -> Settings {
    let mut settings = Settings::DEFAULT;
    let nth = (unit % UNITS) as u16;
    settings.receive = 0x300 + nth;
    settings.unit = (unit % UNITS) as u8 + 1;
    settings.block = BLOCK;
    settings
}

// The ID that a frame comes on: that of replies to a C0, and from the A1 on the one that we receive on.
pub(crate) fn id_of(unit: usize, step: usize) -> u16 {
    let nth = (unit % UNITS) as u16;
    if step < 2 {
        return 0x201 + nth;
    }
    0x300 + nth
}

// How many bytes a frame has.
fn size_of(step: usize) -> usize {
    match step {
        0 => 0,
        1 => 7,
        2 => 6,
        _ => 8,
    }
}

// The message of each unit, one behind the other.
pub(crate) fn compose(messages: &mut [u8]) {
    for (nth, message) in messages.chunks_mut(LENGTH).enumerate() {
        let unit = (nth % UNITS) as u8;
        let mut b = unit;
        for byte in message.iter_mut() {
            *byte = b;
            b = b.wrapping_add(2 * unit + 3);
        }
    }
}

// The message of a unit.
fn message_of(messages: &[u8], unit: usize) -> &[u8] {
    let start = LENGTH * (unit % UNITS);
    reading::part(messages, start, start + LENGTH)
}

// Every frame, eight bytes each: step by step, those of all units.
pub(crate) fn cut(messages: &[u8], frames: &mut [u8]) {
    let (frames, _) = frames.as_chunks_mut::<8>();
    for (k, frame) in frames.iter_mut().enumerate() {
        let bytes = written(messages, k % UNITS, k / UNITS).bytes;
        *frame = bytes;
    }
}

// A frame, as its unit writes it.
fn written(messages: &[u8], unit: usize, step: usize) -> Payload {
    let nth = (unit % UNITS) as u16;
    match step {
        0 => Payload {
            len: 0,
            bytes: [0; 8],
        },
        1 => write_reply(0xD0, 0x300 + nth, 0x740 + nth),
        2 => write_accept(own_fields(settings_for(unit))),
        _ => cutting::frame(message_of(messages, unit), BLOCK, 0, place_of(step)),
    }
}

// Where in its message the frame of a step stands.
fn place_of(step: usize) -> u16 {
    if step < OPENING {
        return 0;
    }
    ((step - OPENING) % 144) as u16
}

// The bytes of a frame.
pub(crate) fn telegram(frames: &[u8], unit: usize, step: usize) -> &[u8] {
    if STEPS <= step {
        return shown(frames, 0);
    }
    let start = 8 * (UNITS * step + unit % UNITS);
    shown(reading::part(frames, start, start + 8), size_of(step))
}

impl Tally {
    // A unit's frame of so many bytes came at a step, and one of ours went, if there is one.
    pub(crate) fn with_turn(self, step: usize, len: usize, frame: Option<Frame>) -> Tally {
        let tally = self.with_frame(len);
        match frame {
            Some(frame) => tally.with_handed(step, frame),
            None => tally,
        }
    }

    fn with_frame(mut self, len: usize) -> Tally {
        self.frames = self.frames.wrapping_add(1);
        self.bytes = self.bytes.wrapping_add(len as u64);
        self
    }

    fn with_handed(self, step: usize, frame: Frame) -> Tally {
        let payload = frame.payload;
        let bytes = payload.bytes;
        let mut tally = self.with_frame(payload.len);
        let nth = (step % 256) as u64;
        let mixed = (4099 * nth + 257 * (frame.id as u64) + weighed(&bytes) % 65536) % 65521;
        tally.checksum = tally.checksum.wrapping_add(mixed);
        tally
    }

    // A message of a unit was taken: it is compared with what was sent, its bytes, and flags 0.
    pub(crate) fn with_message(
        mut self,
        unit: usize,
        flags: u16,
        message: &[u8],
        messages: &[u8],
    ) -> Tally {
        self.messages = self.messages.wrapping_add(1);
        self.checksum = self.checksum.wrapping_add(sum(message));
        if flags != 0 || message != message_of(messages, unit) {
            self.wrong = true;
        }
        self
    }
}

// The eight bytes of a telegram, each weighed twice as much as the next.
fn weighed(bytes: &[u8; 8]) -> u64 {
    let mut total: u64 = 0;
    for b in bytes {
        total = total.wrapping_add(total).wrapping_add(u64::from(*b));
    }
    total
}

fn sum(bytes: &[u8]) -> u64 {
    let mut total: u64 = 0;
    for b in bytes {
        total = total.wrapping_add(u64::from(*b));
    }
    total
}
