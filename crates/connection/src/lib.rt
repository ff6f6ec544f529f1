// One end of a connection, on the side that opens it: a record goes in by value and comes back with an answer. What an open
// connection does is `open_end`; here stand opening, closing and who is listened to.
//
// Every call is good in every state and for every byte: what is not due, not well formed or not possible is refused by its
// number in the protocol's table; a refusal changes the record only as the table says, and never the buffer.
#![tactic(auto)]

ghost use Rattle.std.specs.Prelude.{◌≡◌, length};
ghost use Rattle.telegram.specs.Cutting.{longest};
ghost use Rattle.opening.specs.Opening.{Positive, Refused as RefusedBy};
ghost use Rattle.open_end.specs.OpenEnd.{buffered_at};
ghost use Rattle.connection.specs.Record.{closed_record, leaving_on, requesting_as, agreeing, opened, hears, is_open};
ghost use Rattle.connection.specs.Calls.{opening_as, opening, on_reply, on_accept, on_agreeing, settled, on_open, arrived, buffered, attempt_elapsed, open_elapsed, elapsed, closed_due, request_due, open_due, due_of, open_sent, sent_by, open_taken, taken_by, takes, closed};
ghost use Rattle.open_end.specs.Answers.{looked, gives, marked, hand_over, hand_nothing, shows};

use crate::attempt::{Attempt, new_attempt, no_attempt};
use open_end::answers::{Answer, Answered, Arrived, Due, Record, TakeStep, Taken, tell};
use open_end::{Course, Frame, OpenEnd, course_of, shown};
use opening::ReplyError;
use profile::Profile;
use settings::Settings;
use settings::agreed::{agree, own_fields};
use telegram::cutting::{Message, NONE};
use telegram::kinds::{Parameters as Fields, Telegram, bad_block, write_disconnect, write_setup};
use telegram::time::less;

pub mod attempt;

// The phases: closed, C0 unanswered, A0 unanswered, open. They are numbers, and no enum, since the calls and the claims of
// connection_rows and reachable are of a record at any phase, as `is_open` says.
pub const CLOSED: u8 = 0;

pub const REQUESTING: u8 = 1;

pub const AGREEING: u8 = 2;

pub const OPEN: u8 = 3;

// The record. The order of the fields, here and in the parts of the channel, is for speed (docs/PERFORMANCE.md).
#[derive(Clone, Copy)]
pub struct Connection {
    pub phase: u8,
    // Closed, with one A8 due.
    pub leaving: bool,
    pub settings: Settings,
    // What the opening, the telegrams and the ranges of the settings go by; TP 2.0 in a closed record.
    pub profile: Profile,
    pub attempt: Attempt,
    // Its IDs are known from the D0 on, its channel is open from the A1 on; in a closed record its transmit ID is that of the A8
    // that is due.
    pub end: OpenEnd,
}

impl Record for Connection {}

impl Connection {
    // A closed connection, with nothing due.
    pub fn closed() -> Connection
        ensures { result ≡ closed_record }
    {
        Connection {
            phase: CLOSED,
            profile: Profile::tp20(),
            settings: Settings::default(),
            attempt: no_attempt(),
            leaving: false,
            end: OpenEnd::unopened(0, 0),
        }
    }

    // A closed connection with one A8 due on a transmit ID.
    fn leaving_on(transmit: u16) -> Connection
        ensures { result ≡ leaving_on transmit }
    {
        let mut c = Connection::closed();
        c.end.transmit = transmit;
        c.leaving = true;
        c
    }

    // Opening: the C0 is due.
    fn requesting(profile: Profile, settings: Settings) -> Connection
        ensures { result ≡ requesting_as profile settings }
    {
        Connection {
            phase: REQUESTING,
            profile,
            settings,
            attempt: new_attempt(),
            leaving: false,
            end: OpenEnd::unopened(0, 0),
        }
    }

    // Opens a closed connection in TP 2.0: the C0 is due.
    pub fn open(self, settings: Settings) -> Answered<Connection>
        ensures { result ≡ opening self settings }
    {
        self.open_as(Profile::tp20(), settings)
    }

    // Opens a closed connection in a profile.
    pub fn open_as(self, profile: Profile, settings: Settings) -> Answered<Connection>
        ensures { result ≡ opening_as self profile settings }
    {
        let phase = self.phase;
        if phase != CLOSED {
            return self.gives(channel::Answer::NotDue);
        }
        if !settings.in_range_of(profile) {
            return Answered {
                told: tell(Answer::OutOfRange),
                left: self,
            };
        }
        Connection::requesting(profile, settings).gives(channel::Answer::Good)
    }

    // Whether a frame's ID is the one that the record listens on.
    pub fn hears(self, id: u16) -> bool
        ensures { result ≡ hears self id }
    {
        let phase = self.phase;
        let profile = self.profile;
        let unit = self.settings.unit;
        let receive = self.end.receive;
        if phase == CLOSED {
            return false;
        }
        if phase == REQUESTING {
            return profile.answers_on(unit, id);
        }
        id == receive
    }

    // A reply to the C0.
    #[tactic(auto, unfolding(crate::specs::Calls::on_reply))]
    fn on_reply(self, reply: Result<u16, ReplyError>) -> Answered<Connection>
        ensures { result ≡ on_reply self reply }
    {
        match reply {
            Ok(transmit) => self.on_positive(transmit),
            Err(ReplyError::Refused(opcode)) => self.on_refusal(opcode),
            Err(ReplyError::Malformed) => self.gives(channel::Answer::Malformed),
        }
    }

    // A refusal, D6, D7 or D8.
    fn on_refusal(self, opcode: u8) -> Answered<Connection>
        ensures { result ≡ on_reply self (RefusedBy opcode) }
    {
        let asked = self.attempt.asked;
        if !asked {
            return self.gives(channel::Answer::NotDue);
        }
        Answered {
            told: tell(Answer::Refused(opcode)),
            left: Connection::closed(),
        }
    }

    // The D0.
    fn on_positive(self, transmit: u16) -> Answered<Connection>
        ensures { result ≡ on_reply self (Positive transmit) }
    {
        let asked = self.attempt.asked;
        if !asked {
            return self.gives(channel::Answer::NotDue);
        }
        self.agreeing(transmit).gives(channel::Answer::Good)
    }

    // The D0 named the transmit ID: the A0 is due.
    fn agreeing(self, transmit: u16) -> Connection
        ensures { result ≡ agreeing self transmit }
    {
        let profile = self.profile;
        let settings = self.settings;
        Connection {
            phase: AGREEING,
            profile,
            settings,
            attempt: new_attempt(),
            leaving: false,
            end: OpenEnd::unopened(transmit, settings.receive),
        }
    }

    // The A1 opens the channel.
    fn opened(self, fields: Fields) -> Connection
        ensures { result ≡ opened self fields }
    {
        let profile = self.profile;
        let settings = self.settings;
        Connection {
            phase: OPEN,
            profile,
            settings,
            attempt: no_attempt(),
            leaving: false,
            end: OpenEnd::fresh(
                self.end.transmit,
                self.end.receive,
                agree(settings.used_by(profile), fields),
            ),
        }
    }

    // A telegram while the A1 is awaited.
    fn on_agreeing(self, telegram: Telegram) -> Answered<Connection>
        ensures { result ≡ on_agreeing self telegram }
    {
        match telegram {
            Telegram::Accept(fields) => self.on_accept(fields),
            Telegram::Disconnect => Connection::leaving_on(self.end.transmit).gives(
                channel::Answer::Disconnected,
            ),
            Telegram::Malformed => self.gives(channel::Answer::Malformed),
            Telegram::Data { .. } => self.gives(channel::Answer::NotDue),
            Telegram::Ack { .. } => self.gives(channel::Answer::NotDue),
            Telegram::Test => self.gives(channel::Answer::NotDue),
            Telegram::Break => self.gives(channel::Answer::NotDue),
            Telegram::Setup(_) => self.gives(channel::Answer::NotDue),
        }
    }

    // The A1 that is awaited.
    fn on_accept(self, fields: Fields) -> Answered<Connection>
        ensures { result ≡ on_accept self fields }
    {
        let asked = self.attempt.asked;
        let block = fields.block;
        if !asked {
            return self.gives(channel::Answer::NotDue);
        }
        if bad_block(block) {
            return self.gives(channel::Answer::BlockSize);
        }
        self.opened(fields).gives(channel::Answer::Good)
    }

    // Closes: one A8 is due if the transmit ID is known.
    pub fn close(self) -> Answered<Connection>
        ensures { result ≡ closed self }
    {
        let phase = self.phase;
        if phase == CLOSED {
            return self.gives(channel::Answer::NotDue);
        }
        if phase == REQUESTING {
            return Connection::closed().gives(channel::Answer::Good);
        }
        Connection::leaving_on(self.end.transmit).gives(channel::Answer::Good)
    }

    // A CAN frame arrives, and a buffer is lent. The mark is false with the numbers 1 and 3, and with a closed record's 4.
    pub fn arrive(self, id: u16, bytes: &[u8], buffer: &mut [u8]) -> Arrived<Connection>
        ensures value { result ≡ arrived longest self id bytes.now (length buffer.old) }
        ensures buffer_after { buffer.new ≡ buffered longest self id bytes.now buffer.old }
    {
        let phase = self.phase;
        let profile = self.profile;
        let receive = self.settings.receive;
        if phase == CLOSED {
            return self.gives(channel::Answer::NotDue).marked(false);
        }
        if !self.hears(id) {
            return Answered {
                told: tell(Answer::OtherId),
                left: self,
            }
            .marked(false);
        }
        if phase == REQUESTING {
            return self
                .on_reply(profile.read_reply(bytes, receive))
                .marked(false);
        }
        let s = profile.sort(bytes);
        let kind = s.kind;
        if phase == AGREEING {
            return self.on_agreeing(kind).marked(s.padded);
        }
        self.on_open(kind, bytes, buffer).marked(s.padded)
    }

    // A frame on an open connection, sorted: the end answers.
    fn on_open(self, telegram: Telegram, bytes: &[u8], buffer: &mut [u8]) -> Answered<Connection>
        ensures value { result ≡ on_open longest self telegram bytes.now (length buffer.old) }
        ensures buffer_after { buffer.new ≡ buffered_at longest self.end telegram bytes.now buffer.old }
    {
        let open_end::Answered { answer, end } = self.end.arrive(telegram, bytes, buffer);
        self.settled(course_of(answer), end).gives(answer)
    }

    // What an answer of the open end leaves of the record.
    fn settled(mut self, course: Course, next: OpenEnd) -> Connection
        ensures { result ≡ settled self course next }
    {
        match course {
            Course::GoesOn => {
                self.end = next;
                self
            }
            Course::GivenUp => Connection::closed(),
            Course::Leaves => Connection::leaving_on(self.end.transmit),
        }
    }

    // Time passes.
    pub fn elapse(self, tenths: u64) -> Answered<Connection>
        ensures { result ≡ elapsed self tenths }
    {
        let phase = self.phase;
        if phase == CLOSED {
            return self.gives(channel::Answer::Good);
        }
        if !self.is_open() {
            return self.attempt_elapses(tenths);
        }
        self.open_elapses(tenths)
    }

    // Time passes on an open connection.
    fn open_elapses(self, tenths: u64) -> Answered<Connection>
        ensures { result ≡ open_elapsed self tenths }
    {
        let open_end::Answered { answer, end } = self.end.elapse(tenths);
        self.settled(course_of(answer), end).gives(answer)
    }

    // Time passes while a reply is awaited.
    fn attempt_elapses(mut self, tenths: u64) -> Answered<Connection>
        ensures { result ≡ attempt_elapsed self tenths }
    {
        let mut a = self.attempt;
        let wait = a.wait;
        let repeats = a.repeats;
        let most = self.settings.mntc;
        if wait == 0 {
            return self.gives(channel::Answer::Good);
        }
        if tenths < wait as u64 {
            a.wait = less(wait, tenths);
            self.attempt = a;
            return self.gives(channel::Answer::Good);
        }
        if repeats < most {
            a.due = true;
            a.wait = 0;
            a.repeats = repeats + 1;
            self.attempt = a;
            return self.gives(channel::Answer::Good);
        }
        Connection::closed().gives(channel::Answer::UsedUp)
    }

    // What is due: at most one frame, the message in sending being lent.
    pub fn due(self, message: &[u8]) -> Due<Connection>
        ensures { result ≡ due_of self message.now }
    {
        let phase = self.phase;
        let profile = self.profile;
        let transmit = self.end.transmit;
        if phase == CLOSED {
            return self.closed_due();
        }
        if phase == REQUESTING {
            let payload = profile.request_to(self.settings.unit, self.settings.receive);
            return self.request_due(Frame {
                id: profile.request,
                payload,
            });
        }
        if phase == AGREEING {
            let payload = write_setup(own_fields(self.settings));
            return self.request_due(Frame {
                id: transmit,
                payload,
            });
        }
        self.open_due(message)
    }

    // A closed record has at most its A8 due.
    fn closed_due(self) -> Due<Connection>
        ensures { result ≡ closed_due self }
    {
        let leaving = self.leaving;
        let transmit = self.end.transmit;
        if !leaving {
            return self.hand_nothing();
        }
        let payload = write_disconnect();
        Connection::closed().hand_over(Frame {
            id: transmit,
            payload,
        })
    }

    // The request of the opening, if it is due.
    fn request_due(mut self, frame: Frame) -> Due<Connection>
        ensures { result ≡ request_due self frame }
    {
        let mut a = self.attempt;
        let due = a.due;
        if !due {
            return self.hand_nothing();
        }
        a.due = false;
        a.asked = true;
        a.wait = self.settings.t_e as u32;
        self.attempt = a;
        self.hand_over(frame)
    }

    // What an open end has due.
    fn open_due(mut self, message: &[u8]) -> Due<Connection>
        ensures { result ≡ open_due self message.now }
    {
        let open_end::Due { answer, frame, end } = self.end.due(message);
        self.end = end;
        Due {
            told: tell(Answer::Channel(answer)),
            frame,
            left: self,
        }
    }

    // A message to send.
    pub fn send(self, message: &[u8]) -> Answered<Connection>
        ensures { result ≡ sent_by longest self (length message.now) }
    {
        if !self.is_open() {
            return self.gives(channel::Answer::NotDue);
        }
        self.open_sends(message.len())
    }

    // A message of len bytes is offered on an open connection.
    fn open_sends(mut self, len: usize) -> Answered<Connection>
        ensures { result ≡ open_sent longest self len }
    {
        let open_end::Answered { answer, end } = self.end.send(len);
        self.end = end;
        self.gives(answer)
    }

    // What taking a message comes to, in a lent buffer of room bytes.
    pub fn take_step(self, room: usize) -> TakeStep<Connection>
        ensures { result ≡ taken_by self room }
    {
        if !self.is_open() {
            return self.shows(channel::Answer::NotDue, NONE);
        }
        self.open_takes(room)
    }

    // What taking a message comes to on an open connection.
    fn open_takes(mut self, room: usize) -> TakeStep<Connection>
        ensures { result ≡ open_taken self room }
    {
        let open_end::TakeStep {
            answer,
            message,
            end,
        } = self.end.take_step(room);
        self.end = end;
        self.shows(answer, message)
    }

    // Takes the complete message: it is shown as the first part of the lent buffer.
    pub fn take<'a>(self, buffer: &'a [u8]) -> Taken<'a, Connection>
        ensures { looked result ≡ takes self buffer.entry }
    {
        let step = self.take_step(buffer.len());
        let message = shown(buffer, step.len);
        Taken {
            told: step.told,
            flags: step.flags,
            left: step.left,
            message,
        }
    }

    fn is_open(self) -> bool
        ensures { result ≡ is_open self }
    {
        !((self.phase == CLOSED) | (self.phase == REQUESTING) | (self.phase == AGREEING))
    }
}
