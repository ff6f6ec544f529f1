// What a telegram that arrives does to an open channel: one function for each kind, and one answer.
//
// Telegrams come already sorted. Data and Acks go to their half; a frame answered 0 starts the test interval again. Where the
// peer leaves (`Disconnected`) or the channel is lost (`UsedUp`) the answer says so, for the record above to close.
#![tactic(auto)]

ghost use Rattle.std.specs.Prelude.{◌≡◌, length};
ghost use Rattle.telegram.specs.Cutting.{longest};
ghost use Rattle.arrival.specs.Arrived.{data_answer, ack_answer, answered, on_data, on_ack, on_test, on_break, on_accept, arrived, buffered_by};

use channel::{Answer, Answered, Channel, Tests, say};
use receiver::{Receipt, Received};
use sender::{Heard, Hearing};
use telegram::kinds::{Parameters, Telegram, bad_block};

fn data_answer(note: Receipt) -> Answer
    ensures { result ≡ data_answer note }
{
    match note {
        Receipt::Used => Answer::Good,
        Receipt::Complete => Answer::Good,
        Receipt::ThrownAway => Answer::Good,
        Receipt::OutOfPlace(_) => Answer::NoChange,
        Receipt::Untaken => Answer::Busy,
        Receipt::ShortFirst => Answer::ShortBuffer,
        Receipt::ShortLater => Answer::ShortBuffer,
        Receipt::Broken(cause) => Answer::Broken(cause),
        Receipt::NoData => Answer::NotDue,
    }
}

fn ack_answer(note: Hearing) -> Answer
    ensures { result ≡ ack_answer note }
{
    match note {
        Hearing::Part => Answer::Good,
        Hearing::Done => Answer::Done,
        Hearing::Held => Answer::Good,
        Hearing::Nothing => Answer::NoChange,
        Hearing::UsedUp => Answer::UsedUp,
        Hearing::NoAck => Answer::NotDue,
    }
}

// What an arrival leaves.
fn answered(channel: Channel, answer: Answer) -> Answered
    ensures { result ≡ answered answer channel }
{
    if say(answer).number == 0 {
        return Answered {
            answer,
            channel: channel.restarted(),
        };
    }
    Answered { answer, channel }
}

// A sorted telegram arrives, with the bytes behind its first and the lent buffer.
pub fn arrive(channel: Channel, telegram: Telegram, payload: &[u8], buffer: &mut [u8]) -> Answered
    ensures value { result ≡ arrived longest channel telegram payload.now (length buffer.old) }
    ensures buffer_after { buffer.new ≡ buffered_by longest channel telegram payload.now buffer.old }
{
    match telegram {
        Telegram::Data { .. } => on_data(channel, telegram, payload, buffer),
        Telegram::Ack { .. } => on_ack(channel, telegram),
        Telegram::Test => on_test(channel),
        Telegram::Break => on_break(channel),
        Telegram::Disconnect => answered(channel, Answer::Disconnected),
        Telegram::Setup(_) => answered(channel, Answer::NotDue),
        Telegram::Accept(fields) => on_accept(channel, fields),
        Telegram::Malformed => answered(channel, Answer::Malformed),
    }
}

// Data arrives.
fn on_data(mut channel: Channel, telegram: Telegram, payload: &[u8], buffer: &mut [u8]) -> Answered
    ensures value { result ≡ on_data longest channel telegram payload.now (length buffer.old) }
    ensures buffer_after { buffer.new ≡ buffered_by longest channel telegram payload.now buffer.old }
{
    let Received { note, receiver } = channel.receiver.receive(telegram, payload, buffer);
    channel.receiver = receiver;
    answered(channel, data_answer(note))
}

// An Ack arrives.
fn on_ack(mut channel: Channel, telegram: Telegram) -> Answered
    ensures { result ≡ on_ack channel telegram }
{
    let Heard { note, sender } = channel.sender.hear(channel.parameters.terms, telegram);
    channel.sender = sender;
    answered(channel, ack_answer(note))
}

// A test arrives.
fn on_test(mut channel: Channel) -> Answered
    ensures { result ≡ on_test channel }
{
    channel.accept = true;
    answered(channel, Answer::Good)
}

// A break arrives.
fn on_break(mut channel: Channel) -> Answered
    ensures { result ≡ on_break channel }
{
    channel.receiver = channel.receiver.on_break();
    answered(channel, Answer::Good)
}

// An A1 arrives.
#[tactic(auto, using(laws::proofs::Branches::branches), unfolding(crate::specs::Arrived::on_accept))]
fn on_accept(mut channel: Channel, fields: Parameters) -> Answered
    ensures { result ≡ on_accept channel fields }
{
    if !channel.tests.out {
        return answered(channel, Answer::NotDue);
    }
    if bad_block(fields.block) {
        return answered(channel, Answer::BlockSize);
    }
    channel.tests = Tests {
        out: false,
        again: false,
        wait: 0,
        unanswered: 0,
        interval: channel.tests.interval,
    };
    answered(channel, Answer::Good)
}
