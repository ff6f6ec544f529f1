// A stand-in control unit, the car's side of a connection: it answers a C0 by the reply that is set, then an A0 by the A1 of
// its own settings, and from that A1's hand-over it does what `open_end` does. A record goes in by value and comes back with
// an answer; here stand the replies, opening, closing and who is listened to.
//
// Every call is good in every state and for every byte: what is not due, not well formed or not possible is refused by its
// number in the protocol's table; a refusal changes the record only as the table says, and never the buffer.
#![tactic(auto)]

ghost use Rattle.std.specs.Prelude.{◌≡◌, length};
ghost use Rattle.telegram.specs.Cutting.{longest};
ghost use Rattle.open_end.specs.OpenEnd.{buffered_at};
ghost use Rattle.unit.specs.Record.{is_closed, is_replying, is_open, in_sending, unit_defaults, is_reply, settable, closed_with, closed_unit, closed_of, leaving_of, asked_by, accepting, at_phase};
ghost use Rattle.unit.specs.Calls.{not_for_us, ends, set_to, on_request, on_setup, on_opening, settled, at_end, on_open, arrived, buffered, open_elapsed, elapsed, reply_frame, accept_frame, open_due, due_of, open_sent, sent_by, open_taken, taken_by, takes, closed};
ghost use Rattle.open_end.specs.Answers.{looked, gives, marked, hand_over, hand_nothing, shows};

use open_end::answers::{Answer, Answered, Arrived, Due, Record, TakeStep, Taken, tell};
use open_end::{Course, Frame, OpenEnd, course_of, shown};
use opening::{
    NO_RESOURCES, NOT_FOR_NOW, NOT_SUPPORTED, POSITIVE, REQUEST_ID, Request, read_request,
    write_reply,
};
use settings::Settings;
use settings::agreed::{agree, own_fields};
use telegram::cutting::{Message, NONE};
use telegram::kinds::{
    Parameters as Fields, Telegram, bad_block, sort, write_accept, write_disconnect,
};

// The phases: closed with nothing, with one A8 or with a refusal due; the D0 due; the D0 out; the A1 due; open. They are
// numbers, and no enum, since the calls and the claim of unit_rows are of a unit at any phase, as `is_open` says.
pub const CLOSED: u8 = 0;

pub const LEAVING: u8 = 1;

pub const REFUSING: u8 = 2;

pub const REPLYING: u8 = 3;

pub const REPLIED: u8 = 4;

pub const ACCEPTING: u8 = 5;

pub const OPEN: u8 = 6;

// The record.
#[derive(Clone, Copy)]
pub struct ControlUnit {
    pub phase: u8,
    // The opcode that a C0 is answered with.
    pub reply: u8,
    // They stay when it is closed. It listens on their receive ID; T_E and MNTC lie unused.
    pub settings: Settings,
    // Its transmit ID is that of the asker, from the C0 on; its channel is the one that opens with the A1's hand-over.
    pub end: OpenEnd,
}

impl Record for ControlUnit {}

// An opcode that a C0 can be answered with.
fn is_reply(opcode: u8) -> bool
    ensures { result ≡ is_reply opcode }
{
    (opcode == POSITIVE)
        | ((opcode == NOT_SUPPORTED) | (opcode == NOT_FOR_NOW) | (opcode == NO_RESOURCES))
}

// Whether a unit can be set so.
fn can_be_set(settings: Settings, reply: u8) -> bool
    ensures { result ≡ settable settings reply }
{
    settings.in_range() & (settings.receive != REQUEST_ID) & is_reply(reply)
}

impl ControlUnit {
    // The default settings of a unit.
    pub fn default_settings() -> Settings
        ensures { result ≡ unit_defaults }
    {
        let mut s = Settings::default();
        s.receive = 0x740;
        s
    }

    // A closed unit, with nothing due: default settings, and D0 to reply.
    pub fn closed() -> ControlUnit
        ensures { result ≡ closed_unit }
    {
        ControlUnit::closed_with(ControlUnit::default_settings(), POSITIVE)
    }

    // A closed unit with these settings, and nothing due.
    fn closed_with(settings: Settings, reply: u8) -> ControlUnit
        ensures { result ≡ closed_with settings reply }
    {
        ControlUnit {
            phase: CLOSED,
            reply,
            settings,
            end: OpenEnd::unopened(0, 0),
        }
    }

    // Closed, with nothing due.
    fn closed_of(self) -> ControlUnit
        ensures { result ≡ closed_of self }
    {
        ControlUnit::closed_with(self.settings, self.reply)
    }

    // Closed, with one A8 due.
    fn leaving_of(mut self) -> ControlUnit
        ensures { result ≡ leaving_of self }
    {
        let transmit = self.end.transmit;
        self.phase = LEAVING;
        self.end = OpenEnd::unopened(transmit, 0);
        self
    }

    // A C0 came, by an end that receives on this ID.
    fn asked_by(mut self, receive: u16) -> ControlUnit
        ensures { result ≡ asked_by self receive }
    {
        let reply = self.reply;
        let own = self.settings.receive;
        self.end = OpenEnd::unopened(receive, own);
        if reply == POSITIVE {
            self.phase = REPLYING;
            return self;
        }
        self.phase = REFUSING;
        self
    }

    // An A0 came: the A1 is due, and opens with its hand-over.
    fn accepting(mut self, fields: Fields) -> ControlUnit
        ensures { result ≡ accepting self fields }
    {
        let settings = self.settings;
        let transmit = self.end.transmit;
        self.phase = ACCEPTING;
        self.end = OpenEnd::fresh(transmit, settings.receive, agree(settings, fields));
        self
    }

    // The unit at another phase.
    fn at_phase(mut self, phase: u8) -> ControlUnit
        ensures { result ≡ at_phase self phase }
    {
        self.phase = phase;
        self
    }

    // A frame that is for none here.
    fn not_for_us(self) -> Answered<ControlUnit>
        ensures { result ≡ not_for_us self }
    {
        Answered {
            told: tell(Answer::OtherId),
            left: self,
        }
    }

    // A C0 or an A0 ends what was there: a message in sending is told.
    fn ends(self, next: ControlUnit) -> Answered<ControlUnit>
        ensures { result ≡ ends self next }
    {
        if self.in_sending() {
            return Answered {
                told: tell(Answer::Ended),
                left: next,
            };
        }
        next.gives(channel::Answer::Good)
    }

    // Sets a closed unit; a frame that was due is discarded.
    pub fn set(self, settings: Settings, reply: u8) -> Answered<ControlUnit>
        ensures { result ≡ set_to self settings reply }
    {
        if !self.is_closed() {
            return self.gives(channel::Answer::NotDue);
        }
        if !can_be_set(settings, reply) {
            return Answered {
                told: tell(Answer::OutOfRange),
                left: self,
            };
        }
        ControlUnit::closed_with(settings, reply).gives(channel::Answer::Good)
    }

    // A frame on 0x200.
    #[tactic(auto, using(laws::proofs::Branches::branches), unfolding(crate::specs::Calls::on_request))]
    fn on_request(self, request: Option<Request>) -> Answered<ControlUnit>
        ensures { result ≡ on_request self request }
    {
        let Some(Request { unit, receive }) = request else {
            return self.gives(channel::Answer::Malformed);
        };
        if unit != self.settings.unit {
            return self.not_for_us();
        }
        self.ends(self.asked_by(receive))
    }

    // An A0.
    fn on_setup(self, fields: Fields) -> Answered<ControlUnit>
        ensures { result ≡ on_setup self fields }
    {
        let block = fields.block;
        if self.is_replying() {
            return self.gives(channel::Answer::NotDue);
        }
        if bad_block(block) {
            return self.gives(channel::Answer::BlockSize);
        }
        self.ends(self.accepting(fields))
    }

    // A telegram before the A1's hand-over.
    fn on_opening(self, telegram: Telegram) -> Answered<ControlUnit>
        ensures { result ≡ on_opening self telegram }
    {
        match telegram {
            Telegram::Setup(fields) => self.on_setup(fields),
            Telegram::Disconnect => self.leaving_of().gives(channel::Answer::Disconnected),
            Telegram::Malformed => self.gives(channel::Answer::Malformed),
            Telegram::Data { .. } => self.gives(channel::Answer::NotDue),
            Telegram::Ack { .. } => self.gives(channel::Answer::NotDue),
            Telegram::Test => self.gives(channel::Answer::NotDue),
            Telegram::Break => self.gives(channel::Answer::NotDue),
            Telegram::Accept(_) => self.gives(channel::Answer::NotDue),
        }
    }

    // A CAN frame arrives, and a buffer is lent. The mark is false with the numbers 1 and 3, with a closed unit's 4 and on 0x200.
    pub fn arrive(self, id: u16, bytes: &[u8], buffer: &mut [u8]) -> Arrived<ControlUnit>
        ensures value { result ≡ arrived longest self id bytes.now (length buffer.old) }
        ensures buffer_after { buffer.new ≡ buffered longest self id bytes.now buffer.old }
    {
        let receive = self.settings.receive;
        if id == REQUEST_ID {
            return self.on_request(read_request(bytes)).marked(false);
        }
        if self.is_closed() {
            return self.gives(channel::Answer::NotDue).marked(false);
        }
        if id != receive {
            return self.not_for_us().marked(false);
        }
        let s = sort(bytes);
        let kind = s.kind;
        if !self.is_open() {
            return self.on_opening(kind).marked(s.padded);
        }
        self.on_open(kind, bytes, buffer).marked(s.padded)
    }

    // A frame on an open connection, sorted: an A0 begins it anew, and every other the end answers.
    fn on_open(self, telegram: Telegram, bytes: &[u8], buffer: &mut [u8]) -> Answered<ControlUnit>
        ensures value { result ≡ on_open longest self telegram bytes.now (length buffer.old) }
        ensures buffer_after { buffer.new ≡ buffered_at longest self.end telegram bytes.now buffer.old }
    {
        match telegram {
            Telegram::Setup(fields) => self.on_setup(fields),
            _ => self.at_end(telegram, bytes, buffer),
        }
    }

    // The end answers.
    fn at_end(self, telegram: Telegram, bytes: &[u8], buffer: &mut [u8]) -> Answered<ControlUnit>
        ensures value { result ≡ at_end longest self telegram bytes.now (length buffer.old) }
        ensures buffer_after { buffer.new ≡ buffered_at longest self.end telegram bytes.now buffer.old }
    {
        let open_end::Answered { answer, end } = self.end.arrive(telegram, bytes, buffer);
        self.settled(course_of(answer), end).gives(answer)
    }

    // What an answer of the open end leaves of the unit.
    fn settled(mut self, course: Course, next: OpenEnd) -> ControlUnit
        ensures { result ≡ settled self course next }
    {
        match course {
            Course::GoesOn => {
                self.end = next;
                self
            }
            Course::GivenUp => self.closed_of(),
            Course::Leaves => self.leaving_of(),
        }
    }

    // Time passes.
    pub fn elapse(self, tenths: u64) -> Answered<ControlUnit>
        ensures { result ≡ elapsed self tenths }
    {
        if !self.is_open() {
            return self.gives(channel::Answer::Good);
        }
        self.open_elapses(tenths)
    }

    // Time passes on an open connection.
    fn open_elapses(self, tenths: u64) -> Answered<ControlUnit>
        ensures { result ≡ open_elapsed self tenths }
    {
        let open_end::Answered { answer, end } = self.end.elapse(tenths);
        self.settled(course_of(answer), end).gives(answer)
    }

    // What is due: at most one frame, the message in sending being lent.
    pub fn due(self, message: &[u8]) -> Due<ControlUnit>
        ensures { result ≡ due_of self message.now }
    {
        let phase = self.phase;
        if phase == LEAVING {
            let id = self.end.transmit;
            let payload = write_disconnect();
            return self.closed_of().hand_over(Frame { id, payload });
        }
        if phase == REFUSING {
            return self.closed_of().hand_over(self.reply_frame(self.reply));
        }
        if phase == REPLYING {
            return self.at_phase(REPLIED).hand_over(self.reply_frame(POSITIVE));
        }
        if phase == ACCEPTING {
            return self.at_phase(OPEN).hand_over(self.accept_frame());
        }
        if !self.is_open() {
            return self.hand_nothing();
        }
        self.open_due(message)
    }

    // A reply, on the ID of this unit's replies.
    fn reply_frame(self, opcode: u8) -> Frame
        ensures { result ≡ reply_frame self opcode }
    {
        let unit = self.settings.unit;
        let payload = write_reply(opcode, self.end.transmit, self.settings.receive);
        Frame {
            id: REQUEST_ID + unit as u16,
            payload,
        }
    }

    // The A1 of the opening.
    fn accept_frame(self) -> Frame
        ensures { result ≡ accept_frame self }
    {
        let id = self.end.transmit;
        let payload = write_accept(own_fields(self.settings));
        Frame { id, payload }
    }

    // What an open end has due.
    fn open_due(mut self, message: &[u8]) -> Due<ControlUnit>
        ensures { result ≡ open_due self message.now }
    {
        let open_end::Due { answer, frame, end } = self.end.due(message);
        self.end = end;
        Due {
            told: tell(Answer::Channel(answer)),
            frame,
            left: self,
        }
    }

    // A message to send.
    pub fn send(self, message: &[u8]) -> Answered<ControlUnit>
        ensures { result ≡ sent_by longest self (length message.now) }
    {
        if !self.is_open() {
            return self.gives(channel::Answer::NotDue);
        }
        self.open_sends(message.len())
    }

    // A message of len bytes is offered on an open connection.
    fn open_sends(mut self, len: usize) -> Answered<ControlUnit>
        ensures { result ≡ open_sent longest self len }
    {
        let open_end::Answered { answer, end } = self.end.send(len);
        self.end = end;
        self.gives(answer)
    }

    // What taking a message comes to, in a lent buffer of room bytes.
    pub fn take_step(self, room: usize) -> TakeStep<ControlUnit>
        ensures { result ≡ taken_by self room }
    {
        if !self.is_open() {
            return self.shows(channel::Answer::NotDue, NONE);
        }
        self.open_takes(room)
    }

    // What taking a message comes to on an open connection.
    fn open_takes(mut self, room: usize) -> TakeStep<ControlUnit>
        ensures { result ≡ open_taken self room }
    {
        let open_end::TakeStep {
            answer,
            message,
            end,
        } = self.end.take_step(room);
        self.end = end;
        self.shows(answer, message)
    }

    // Takes the complete message: it is shown as the first part of the lent buffer.
    pub fn take<'a>(self, buffer: &'a [u8]) -> Taken<'a, ControlUnit>
        ensures { looked result ≡ takes self buffer.entry }
    {
        let step = self.take_step(buffer.len());
        let message = shown(buffer, step.len);
        Taken {
            told: step.told,
            flags: step.flags,
            left: step.left,
            message,
        }
    }

    // Closes: one A8 is due.
    pub fn close(self) -> Answered<ControlUnit>
        ensures { result ≡ closed self }
    {
        if self.is_closed() {
            return self.gives(channel::Answer::NotDue);
        }
        self.leaving_of().gives(channel::Answer::Good)
    }

    fn is_closed(self) -> bool
        ensures { result ≡ is_closed self }
    {
        self.phase < REPLYING
    }

    // Whether the D0 is due.
    fn is_replying(self) -> bool
        ensures { result ≡ is_replying self }
    {
        self.phase == REPLYING
    }

    fn is_open(self) -> bool
        ensures { result ≡ is_open self }
    {
        ACCEPTING < self.phase
    }

    // Whether an accepted message is not done.
    fn in_sending(self) -> bool
        ensures { result ≡ in_sending self }
    {
        self.is_open() & (self.end.channel.sender.length != 0)
    }
}
