// One record driven by hand, whichever it is: its calls, and the console that makes them.
ghost use Rattle.std.specs.Prelude.{◌≡◌, ℕ, List, ◌++◌, length, min, take, drop};
ghost use Rattle.dialogue.specs.Words.{behind_word};
ghost use Rattle.dialogue.specs.declared.calls.Call.TheVariants.{Send as SendCall};
ghost use Rattle.dialogue.specs.Driven.{Calls, Said, Ran, Turned, Talked};

use crate::answers::Carried;
use crate::calls::{Call, read_call};
use crate::lines::read_line;
use crate::session::{Session, clear};
use crate::words::behind_word;
use open_end::shown;
use text::writing;

// What a call of a record answers, the length of a message that it shows in the lent buffer, and the record that it leaves. No
// message has length 0, so 0 is none, as in the records' own `take_step`.
#[derive(Clone, Copy)]
pub struct Reply<C> {
    pub carried: Carried,
    pub len: usize,
    pub next: C,
}

// A record, with the calls that every one has and those of its own.
pub trait Record: Copy {
    // What each call answers and leaves.
    ghost calls: { Calls Self };

    // Closed, with nothing due.
    fn closed() -> Self
        ensures { result ≡ calls.closed };

    // A CAN frame arrives, and a buffer is lent.
    fn arrive(self, id: u16, bytes: &[u8], buffer: &mut [u8]) -> Reply<Self>
        ensures value { result ≡ calls.arrived self id bytes.now (length buffer.old) }
        ensures buffer_after { buffer.new ≡ calls.buffered self id bytes.now buffer.old };

    // Time passes.
    fn elapse(self, tenths: u64) -> Reply<Self>
        ensures { result ≡ calls.elapsed self tenths };

    // What is due, the message in sending being lent.
    fn due(self, message: &[u8]) -> Reply<Self>
        ensures { result ≡ calls.due self message.now };

    // A message to send.
    fn send(self, message: &[u8]) -> Reply<Self>
        ensures { result ≡ calls.sent self message.now };

    // Whether the number of a send's answer says that the message was accepted.
    fn accepted(number: u8) -> bool
        ensures { result ≡ calls.accepted number };

    // What taking a message comes to, in a lent buffer of room bytes.
    fn take(self, room: usize) -> Reply<Self>
        ensures { result ≡ calls.taken self room };

    fn close(self) -> Reply<Self>
        ensures { result ≡ calls.close self };

    // A call that not every record has, by the letters of its name and the words behind it, if there is one.
    fn own(self, name: u64, words: &[u8]) -> Option<Reply<Self>>
        ensures { result ≡ calls.own self name words.now };
}

// What is lent to the calls, line by line: of fixed sizes, as there is no heap.
#[derive(Drop)]
struct Buffers {
    // A line, one character too many, and a CR behind it; its answer takes its place.
    text: [u8; 16002],
    // The bytes that a line gives.
    bytes: [u8; 8192],
    buffer: [u8; 4096],
    // The message last accepted.
    message: [u8; 4096],
}

// What is kept from line to line, beside the buffers.
#[derive(Clone, Copy)]
pub struct Console<C> {
    pub driven: C,
    pub session: Session,
}

// Begins with a closed record, and reads and answers until the input ends or an answer cannot be written. The count of turns is
// more than any run uses up.
pub fn talk<C: Record, R: Input + Print + Eprint>(rt: &R) -> Console<C>
    ensures { Talked C.calls result }
{
    let mut lent = Buffers {
        text: [0; 16002],
        bytes: [0; 8192],
        buffer: [0; 4096],
        message: [0; 4096],
    };
    let mut c = Console {
        driven: C::closed(),
        session: Session::fresh(),
    };
    for _ in 0..u64::MAX {
        c = c.turn(rt, &mut lent);
        if c.session.is_over() {
            return c;
        }
    }
    c
}

impl<C: Record> Reply<C> {
    // Says the answer, and goes on with the record that it leaves.
    fn tell<R: Print + Eprint>(self, rt: &R, session: Session, lent: &mut Buffers) -> Console<C>
        ensures { Said self session lent.old result lent.new }
    {
        let Reply { carried, len, next } = self;
        let message = shown(&lent.buffer, len);
        Console {
            driven: next,
            session: session.tell(rt, carried, message, &mut lent.text),
        }
    }
}

impl<C: Record> Console<C> {
    // Reads a line and answers it; it is understood whole before anything is done.
    fn turn<R: Input + Print + Eprint>(self, rt: &R, lent: &mut Buffers) -> Console<C>
        ensures { Turned C.calls self lent.old result lent.new }
    {
        let Console { driven, session } = self;
        let line = read_line(rt, &mut lent.text);
        let call = read_call(shown(&lent.text, line.fill), &mut lent.bytes);
        let session = session.next_line(line.ended);
        Console { driven, session }.run(rt, call, line.fill, lent)
    }

    // Runs the call that a line of fill characters asks for.
    fn run<R: Print + Eprint>(
        self,
        rt: &R,
        call: Call,
        fill: usize,
        lent: &mut Buffers,
    ) -> Console<C>
        ensures { Ran C.calls call (behind_word (take fill lent.old.text)) self lent.old result lent.new }
    {
        let Console { driven, session } = self;
        let room = session.room;
        match call {
            Call::Nothing => Console { driven, session },
            Call::Wrong => Console {
                driven,
                session: session.wrong(rt, &mut lent.text),
            },
            Call::New => {
                clear(&mut lent.buffer);
                Console {
                    driven: C::closed(),
                    session: session.renew(rt),
                }
            }
            Call::Frame { id, count } => {
                arrive_within(
                    driven,
                    id,
                    shown(&lent.bytes, count),
                    &mut lent.buffer,
                    room,
                )
                .tell(rt, session, lent)
            }
            Call::Time(tenths) => driven.elapse(tenths).tell(rt, session, lent),
            Call::Due => {
                driven
                    .due(shown(&lent.message, session.length))
                    .tell(rt, session, lent)
            }
            Call::DueOf(count) => {
                driven
                    .due(shown(&lent.bytes, count))
                    .tell(rt, session, lent)
            }
            Call::Send(count) => Console { driven, session }.sending(rt, count, lent),
            Call::Take => driven.take(room).tell(rt, session, lent),
            Call::Close => driven.close().tell(rt, session, lent),
            Call::Room(room) => Console {
                driven,
                session: session.lend(rt, room),
            },
            Call::Buffer => Console {
                driven,
                session: session.show(rt, shown(&lent.buffer, room), &mut lent.text),
            },
            Call::Other(name) => {
                match driven.own(name, behind_word(shown(&lent.text, fill))) {
                    Some(reply) => reply.tell(rt, session, lent),
                    None => Console {
                        driven,
                        session: session.wrong(rt, &mut lent.text),
                    },
                }
            }
        }
    }

    // A message that is accepted is kept, to be lent from now on.
    fn sending<R: Print + Eprint>(self, rt: &R, count: usize, lent: &mut Buffers) -> Console<C>
        ensures { (words : List ℕ) → Ran C.calls (SendCall count) words self lent.old result lent.new }
    {
        let Console { driven, session } = self;
        let message = shown(&lent.bytes, count);
        let sent = driven.send(message);
        if !C::accepted(sent.carried.said.number) {
            return sent.tell(rt, session, lent);
        }
        let length = writing::bytes(&mut lent.message, 0, message);
        sent.tell(rt, session.keep(length), lent)
    }
}

// A frame arrives, the first room bytes of the buffer being lent.
fn arrive_within<C: Record>(
    driven: C,
    id: u16,
    bytes: &[u8],
    buffer: &mut [u8],
    room: usize,
) -> Reply<C>
    ensures value { result ≡ C.calls.arrived driven id bytes.now (min room (length buffer.old)) }
    ensures buffer_after { buffer.new ≡ C.calls.buffered driven id bytes.now (take (min room (length buffer.old)) buffer.old) ++ drop (min room (length buffer.old)) buffer.old }
{
    let most = room.min(buffer.len());
    driven.arrive(id, bytes, &mut buffer[..most])
}
