// A whole call, by value: the core that all named functions share.
#![tactic(auto)]

ghost use Rattle.std.specs.Prelude.{ℕ, cond, List, [], ◌≡◌, Ok, length};
ghost use Rattle.wire.specs.Memory.{memory_bytes};
ghost use Rattle.wire.specs.Refusing.{refusal_number, numbered};
ghost use Rattle.exchange.specs.Meaning.{outcome_of};
ghost use Rattle.rules.specs.Calls.{alfid};
ghost use Rattle.requests.specs.Meaning.{call_from, call_of};
ghost use Rattle.requests.specs.Rows.{takes_memory};
ghost use Rattle.calls.specs.Meaning.{setting_of, lent_of, refused_of, is_refused, no_bytes, Called, Writes};
ghost use Rattle.calls.specs.Concluded.{Rechecked, Concluded};

use exchange::types::{Answer, Asked, Channel, Outcome, Place, Timing};
use requests::rows::{Takes, row_of};
use requests::{Call, Prepared};
use wire::refusal::Refusal;
use wire::{MemoryBytes, memory_bytes};

// What is asked, by value: the call, and how it is made.
#[derive(Clone, Copy)]
pub struct Ask {
    pub call: Call,
    pub quiet: bool,
    pub strict: bool,
    pub server: bool,
    pub overall: Option<u32>,
    pub limit: Option<u8>,
    pub channel: Channel,
}

// The answer, the number that calls 11 and 12 return, how many bytes were sent, and the session's timing afterwards.
#[derive(Clone, Copy)]
pub struct Answered {
    pub answer: Answer,
    pub number: u64,
    pub sent: usize,
    pub timing: Timing,
}

// "Refused: the number, time and counts 0, all buffers and timing untouched."
fn refused(session: Timing, refusal: Refusal) -> Answered
    ensures { result ≡ refused_of session (refusal_number refusal) }
{
    let answer = Answer {
        outcome: Outcome::Refused(u8::from(refusal)),
        time: 0,
        events: 0,
        notices: 0,
        reply: Place::NOWHERE,
    };
    Answered {
        answer,
        number: 0,
        sent: 0,
        timing: session,
    }
}

// "The checks after a positive come later still and keep its finishing time."
fn rechecked(ask: Ask, address: &[u8], size: &[u8], replies: &[u8], heard: Answer) -> Outcome
    ensures { Rechecked ask address.now size.now replies.now heard result }
{
    let strict = ask.strict;
    let call = ask.call;
    let outcome = heard.outcome;
    let reply = heard.reply;
    match outcome {
        Outcome::PositiveResponse(_) => {
            checks::check(strict, call, address, size, replies, reply)
        }
        Outcome::Suppressed => outcome,
        Outcome::NegativeResponse(_) => outcome,
        Outcome::Timeout => outcome,
        Outcome::Disconnected => outcome,
        Outcome::Transport(_) => outcome,
        Outcome::Fault(_) => outcome,
        Outcome::Refused(_) => outcome,
        Outcome::PendingLimit => outcome,
    }
}

// What was heard, checked; the number and the session's timing that come of it.
pub fn concluded(
    session: Timing,
    ask: Ask,
    sent: usize,
    address: &[u8],
    size: &[u8],
    replies: &[u8],
    heard: Answer,
) -> Answered
    ensures { Concluded session ask sent address.now size.now replies.now heard result }
{
    let call = ask.call;
    let server = ask.server;
    let outcome = rechecked(ask, address, size, replies, heard);
    let number = checks::number(call, outcome, replies);
    let timing = checks::timing(server, call, outcome, replies, session);
    let reply = heard.reply;
    let answer = Answer {
        outcome,
        time: heard.time,
        events: heard.events,
        notices: heard.notices,
        reply,
    };
    Answered {
        answer,
        number,
        sent,
        timing,
    }
}

// "A refused call returns one number"
pub fn is_refused(outcome: Outcome) -> bool
    ensures { result ≡ is_refused (outcome_of [] outcome) }
{
    match outcome {
        Outcome::PositiveResponse(_) => false,
        Outcome::Suppressed => false,
        Outcome::NegativeResponse(_) => false,
        Outcome::Timeout => false,
        Outcome::Disconnected => false,
        Outcome::Transport(_) => false,
        Outcome::Fault(_) => false,
        Outcome::Refused(_) => true,
        Outcome::PendingLimit => false,
    }
}

// What a call comes to, and the request that is then to be written; none is where it is refused.
#[derive(Clone, Copy)]
struct Decided {
    answered: Answered,
    request: Option<Prepared>,
}

// Refusals 1 to 9 come first, then the exchange with refusal 10. Nothing is written yet: `room` is the request buffer's length.
fn decide(
    session: Timing,
    ask: Ask,
    room: usize,
    address: &[u8],
    size: &[u8],
    data: &[u8],
    events: &[u8],
    replies: &[u8],
) -> Decided
    ensures { (before after : List ℕ) → length before ≡ room → Writes result.request address.now size.now «data».now before after →
        Called ask.strict (setting_of ask session) (call_of ask.call address.now size.now «data».now)
        (lent_of ask.channel before events.now replies.now) result.answered after }
{
    let prepared = match requests::prepare(ask.call, ask.quiet, address, size, data, room) {
        Ok(prepared) => prepared,
        Err(refusal) => {
            return Decided {
                answered: refused(session, refusal),
                request: None,
            };
        }
    };
    let asked = Asked {
        sid: prepared.sid,
        sub: prepared.sub,
        timing: session,
        limit: ask.limit,
    };
    let heard = exchange::exchange(ask.strict, asked, ask.overall, ask.channel, events, replies);
    if is_refused(heard.outcome) {
        return Decided {
            answered: refused(session, Refusal::Events),
            request: None,
        };
    }
    Decided {
        answered: concluded(session, ask, prepared.length, address, size, replies, heard),
        request: Some(prepared),
    }
}

// The answer of a call that nobody sends, as of a log: what `run` answers that is lent a request buffer of so many bytes. There is none, on the stack
// neither.
pub fn unsent(
    session: Timing,
    ask: Ask,
    room: usize,
    address: &[u8],
    size: &[u8],
    data: &[u8],
    events: &[u8],
    replies: &[u8],
) -> Answered
    ensures { (before : List ℕ) → length before ≡ room → (after : List ℕ) × Called ask.strict (setting_of ask session)
        (call_of ask.call address.now size.now «data».now) (lent_of ask.channel before events.now replies.now) result after }
{
    decide(session, ask, room, address, size, data, events, replies).answered
}

// The whole call; the request is written once nothing can refuse it.
pub fn run(
    session: Timing,
    ask: Ask,
    request: &mut [u8],
    address: &[u8],
    size: &[u8],
    data: &[u8],
    events: &[u8],
    replies: &[u8],
) -> Answered
    ensures { Called ask.strict (setting_of ask session)
        (call_of ask.call address.now size.now «data».now)
        (lent_of ask.channel request.old events.now replies.now) result request.new }
{
    let room = request.len();
    let decided = decide(session, ask, room, address, size, data, events, replies);
    // last, since the checks' values and the writing's are then not kept at once, which takes less of the stack
    match decided.request {
        Some(prepared) => {
            requests::write(request, prepared, address, size, data);
        }
        None => {}
    }
    decided.answered
}

// Calls 5, 6, 11 and 12.
fn takes_memory(takes: Takes) -> bool
    ensures { result ≡ takes_memory takes }
{
    match takes {
        Takes::Plain(_, _) => false,
        Takes::Key(_, _) => false,
        Takes::Memory(_) => true,
        Takes::Load(_, _) => true,
    }
}

// A field's bytes. A call that takes neither has none, and no width refuses it.
fn field_bytes(takes: bool, value: u64, width: usize, wide: bool) -> Result<MemoryBytes, Refusal>
    ensures { numbered result ≡ cond takes (memory_bytes value width wide) (Ok no_bytes) }
{
    if !takes {
        return Ok(MemoryBytes {
            len: 0,
            bytes: [0; 15],
        });
    }
    memory_bytes(value, width, wide)
}

// The `alfid` form: "address and size as 64-bit numbers, each with a width in bytes, sent high byte first". Under the wide setting widths 1 to
// 15 are taken, "padded with zeros on the left". Other calls take neither, whatever is handed on to them.
pub fn run_alfid(
    session: Timing,
    ask: Ask,
    request: &mut [u8],
    address: u64,
    size: u64,
    address_width: usize,
    size_width: usize,
    wide: bool,
    data: &[u8],
    events: &[u8],
    replies: &[u8],
) -> Answered
    ensures { Called ask.strict (setting_of ask session)
        (call_from ask.call (alfid address address_width wide) (alfid size size_width wide) «data».now)
        (lent_of ask.channel request.old events.now replies.now) result request.new }
{
    let row = row_of(ask.call);
    let takes = takes_memory(row.takes);
    let a = match field_bytes(takes, address, address_width, wide) {
        Ok(a) => a,
        Err(refusal) => return refused(session, refusal),
    };
    let s = match field_bytes(takes, size, size_width, wide) {
        Ok(s) => s,
        Err(refusal) => return refused(session, refusal),
    };
    let address = a.bytes;
    let size = s.bytes;
    let address = wire::part(&address, 0, a.len);
    let size = wire::part(&size, 0, s.len);
    run(session, ask, request, address, size, data, events, replies)
}
