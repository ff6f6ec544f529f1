// A link from one end to the other: at most eight frames on their way, in the order in which they were handed over.
use telegram::payload::Payload;

const ROOM: usize = 8;

// The frames stand at the front, the first to arrive before all others.
#[derive(Clone, Copy, Default)]
pub(crate) struct Queue {
    frames: [Option<Payload>; ROOM],
}

impl Queue {
    pub(crate) fn is_full(&self) -> bool {
        self.frames.iter().all(|frame| frame.is_some())
    }

    // A frame goes last into a link that is not full.
    pub(crate) fn push(&mut self, payload: Payload) {
        for frame in self.frames.iter_mut() {
            if frame.is_none() {
                *frame = Some(payload);
                return;
            }
        }
    }

    pub(crate) fn head(&self) -> Option<Payload> {
        self.frames[0]
    }

    // The first frame goes, if there is one.
    pub(crate) fn pop(&mut self) {
        self.frames[0] = None;
        self.frames.rotate_left(1);
    }
}
