// The lines of a story, each added from an index on; the answer is where it ends.
#![tactic(auto)]

ghost use Rattle.std.specs.Prelude.{cond, [], ◌++◌, ◌≡◌};
ghost use Rattle.rules.specs.Lines.{ascii};
ghost use Rattle.exchange.specs.Meaning.{entry_of, fault_of, outcome_of};
ghost use Rattle.telling.specs.Words.{pairs, shown, what, timed, tail, breaks, number_of, judged, on_text, end_text, passed};
ghost use Rattle.text.specs.Written.{Adds};

use exchange::error::{Fault, ProtocolDeviation};
use exchange::events::named;
use exchange::types::{Event, Outcome, Settled, State};
use text::{append, append_byte, append_decimal};
use wire::part;

// Bytes, a space before each.
fn put_pairs(text: &mut [u8], at: usize, bytes: &[u8]) -> usize
    ensures { Adds (pairs bytes.now) text.old at result text.new }
{
    let mut n = at;
    for b in bytes {
        n = append_byte(text, n, *b);
    }
    n
}

// "long replies cut with `..` and their length"
pub fn put_shown(text: &mut [u8], at: usize, bytes: &[u8]) -> usize
    ensures { Adds (shown bytes.now) text.old at result text.new }
{
    let a = put_pairs(text, at, part(bytes, 0, 8));
    if bytes.len() <= 8 {
        return a;
    }
    let b = append(text, a, b" .. (");
    let c = append_decimal(text, b, bytes.len() as u64);
    append(text, c, b" bytes)")
}

// A reply from the controller that was asked, or from another.
fn whose(own: bool) -> &'static [u8]
    ensures { result.now ≡ cond own (ascii "reply") (ascii "foreign reply") }
{
    if own { b"reply" } else { b"foreign reply" }
}

// What an event is, in words and bytes.
fn put_what(text: &mut [u8], at: usize, listens: u16, event: Event, replies: &[u8]) -> usize
    ensures { Adds (what listens replies.now (entry_of event)) text.old at result text.new }
{
    match event.kind {
        0 => {
            let place = named(event, replies);
            let a = append(text, at, whose(event.source == listens));
            put_shown(text, a, part(replies, place.at, place.len))
        }
        1 => append(text, at, b"idle"),
        2 => append(text, at, b"end of stream"),
        _ => {
            let a = append(text, at, b"transport error");
            put_shown(text, a, &event.size.to_be_bytes())
        }
    }
}

// A time, and words behind it.
fn put_timed(text: &mut [u8], at: usize, time: u64, words: &[u8]) -> usize
    ensures { Adds (timed time words.now) text.old at result text.new }
{
    let a = append_decimal(text, at, time);
    let b = append(text, a, b" ms  ");
    append(text, b, words)
}

// The time of an event, and what it is.
pub fn put_event(text: &mut [u8], at: usize, listens: u16, event: Event, replies: &[u8]) -> usize
    ensures { Adds (timed event.time (what listens replies.now (entry_of event))) text.old at result text.new }
{
    let a = put_timed(text, at, event.time as u64, b"");
    put_what(text, a, listens, event, replies)
}

// A count, and two numbers on the clock.
fn put_tail(
    text: &mut [u8],
    at: usize,
    count: u64,
    middle: &[u8],
    first: u64,
    between: &[u8],
    second: u64,
) -> usize
    ensures { Adds (tail count middle.now first between.now second) text.old at result text.new }
{
    let a = append_decimal(text, at, count);
    let b = append(text, a, middle);
    let c = append_decimal(text, b, first);
    let d = append(text, c, between);
    let e = append_decimal(text, d, second);
    append(text, e, b" ms.\n")
}

// What an event did that settled nothing: the deadline before it and after.
pub fn put_on(
    text: &mut [u8],
    at: usize,
    listens: u16,
    event: Event,
    before: u64,
    next: State,
) -> usize
    ensures { Adds (on_text listens (entry_of event) before next.read.all next.notices.all next.deadline) text.old at result text.new }
{
    let events = next.read.all as u64;
    let notices = next.notices.all as u64;
    let (words, count, clock): (&[u8], u64, &[u8]) = if event.kind != 0 {
        (
            b": nothing was heard (event ",
            events,
            b"). The clock runs on: deadline ",
        )
    } else if event.source != listens {
        (
            b": passed over (event ",
            events,
            b"). The clock runs on: deadline ",
        )
    } else {
        (
            b": wait (notice ",
            notices,
            b"). A new clock starts: deadline ",
        )
    };
    let a = append(text, at, words);
    put_tail(text, a, count, clock, before, b" -> ", next.deadline)
}

// The rule that a reply broke.
#[tactic(auto, unfolding(telling::specs::Words::breaks))]
fn broken(wrong: Fault) -> &'static [u8]
    ensures { result.now ≡ breaks (number_of (fault_of wrong)) }
{
    match wrong {
        Fault::InvalidResponseLength => b": it is too short to be read (event ",
        Fault::BlockLengthOverflow => b": it breaks a rule (event ",
        Fault::ProtocolDeviation(deviation) => match deviation {
            ProtocolDeviation::InvalidServiceId => b": wrong first byte, deviation 1 (event ",
            ProtocolDeviation::InvalidRequestServiceId =>
                b": wrong second byte, deviation 2 (event ",
            ProtocolDeviation::InvalidSubFunction => b": wrong sub-function, deviation 3 (event ",
            ProtocolDeviation::UnexpectedPositiveResponse =>
                b": silence asked for, deviation 4 (event ",
            ProtocolDeviation::InvalidResponseLength(_, _) =>
                b": wrong length, deviation 8 (event ",
            _ => b": it breaks a rule (event ",
        },
    }
}

// A deviation's number; 0 and 16 for the two that have none.
pub fn number_of(wrong: Fault) -> u8
    ensures { result ≡ number_of (fault_of wrong) }
{
    match wrong {
        Fault::ProtocolDeviation(deviation) => u8::from(deviation),
        Fault::InvalidResponseLength => 0,
        Fault::BlockLengthOverflow => 16,
    }
}

// What an event is judged to be, where it settles the exchange.
#[tactic(auto, unfolding(telling::specs::Words::judged, telling::specs::Words::breaks))]
fn judged(outcome: Outcome) -> &'static [u8]
    ensures { result.now ≡ judged (outcome_of [] outcome) }
{
    match outcome {
        Outcome::PositiveResponse(_) => b": taken as positive (event ",
        Outcome::NegativeResponse(_) => b": refused by its code (event ",
        Outcome::PendingLimit => b": one wait notice too many (event ",
        Outcome::Disconnected => b": disconnected (event ",
        Outcome::Transport(_) => b": the transport failed (event ",
        Outcome::Fault(wrong) => broken(wrong),
        _ => b": it breaks a rule (event ",
    }
}

// What an event did that settled the exchange: when the call ends, and the deadline before it.
pub fn put_end(text: &mut [u8], at: usize, event: Event, before: u64, settled: Settled) -> usize
    ensures { Adds (end_text (entry_of event) before (outcome_of [] settled.outcome) settled.read.all settled.time) text.old at result text.new }
{
    let ends: &[u8] = if (event.time as u64) < settled.time {
        b"). Call is to wait until "
    } else {
        b"). Call ends at "
    };
    let a = append(text, at, judged(settled.outcome));
    put_tail(
        text,
        a,
        settled.read.all as u64,
        ends,
        settled.time,
        b" ms; deadline ",
        before,
    )
}

// The deadline, passed in silence.
pub fn put_late(text: &mut [u8], at: usize, state: State) -> usize
    ensures { Adds (timed state.deadline (passed state.hush)) text.old at result text.new }
{
    let words: &[u8] = if state.hush {
        b"deadline: no answer came in time, as was asked for. The call ends as suppressed.\n"
    } else {
        b"deadline: no answer came in time. The call ends as timeout.\n"
    };
    put_timed(text, at, state.deadline, words)
}

// T.
pub fn put_over(text: &mut [u8], at: usize, overall: u64) -> usize
    ensures { Adds (timed overall (ascii "the overall time is up. The call ends as timeout.\n")) text.old at result text.new }
{
    put_timed(
        text,
        at,
        overall,
        b"the overall time is up. The call ends as timeout.\n",
    )
}

// An event that was never read.
pub fn put_unread(text: &mut [u8], at: usize, listens: u16, event: Event, replies: &[u8]) -> usize
    ensures { Adds (timed event.time (what listens replies.now (entry_of event)) ++ ascii ": never read.\n") text.old at result text.new }
{
    let a = put_event(text, at, listens, event, replies);
    append(text, a, b": never read.\n")
}
