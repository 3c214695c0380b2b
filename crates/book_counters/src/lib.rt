// The counter of a log in the summary of a book: a log is run alone, and its answer says which counter is raised.
#![tactic(auto)]

ghost use Rattle.std.specs.Prelude.{◌≡◌, cond, ◌<◌};
ghost use Rattle.rules.specs.Logs.{layout_ok};
ghost use Rattle.bookkeeping.specs.Summary.{raised, raised_at, slot, class_at};
ghost use Rattle.book_counters.specs.Counted.{meant, class_of, CountsAt};

use exchange::error::Fault;
use exchange::types::Outcome;
use log_line::answer_of;
use wire::byte_at;

// What an answer is counted as: "positive, negative by code 00 to FF, suppressed, timed out, deviating, other"
#[derive(Clone, Copy)]
pub enum Class {
    Positive,
    Negative(u8),
    Suppressed,
    TimedOut,
    Deviating,
    // "disconnected, transport, length, overflow, refused"
    Other,
}

impl From<Outcome> for Class {
    ghost from_gives = { λ outcome r. meant r ≡ class_of outcome };

    fn from(outcome: Outcome) -> Class {
        match outcome {
            Outcome::PositiveResponse(_) => Class::Positive,
            Outcome::NegativeResponse(code) => Class::Negative(code),
            Outcome::Suppressed => Class::Suppressed,
            Outcome::Timeout => Class::TimedOut,
            Outcome::Fault(Fault::ProtocolDeviation(_)) => Class::Deviating,
            Outcome::Fault(Fault::InvalidResponseLength) => Class::Other,
            Outcome::Fault(Fault::BlockLengthOverflow) => Class::Other,
            Outcome::Disconnected
            | Outcome::Transport(_)
            | Outcome::Refused(_)
            | Outcome::PendingLimit => Class::Other,
        }
    }
}

impl Class {
    // The place in a row: "a row of 261 counters u16: positive, negative by code 00 to FF, suppressed, timed out, deviating, other".
    pub fn slot(self) -> usize
        ensures is { result ≡ slot (meant self) }
        ensures within { result < 261 }
    {
        match self {
            Class::Positive => 0,
            Class::Negative(code) => 1 + code as usize,
            Class::Suppressed => 257,
            Class::TimedOut => 258,
            Class::Deviating => 259,
            Class::Other => 260,
        }
    }

    // The class that a place in a row counts.
    pub fn at(slot: usize) -> Class
        ensures { meant result ≡ class_at slot }
    {
        match slot {
            0 => Class::Positive,
            1..=256 => Class::Negative((slot - 1) as u8),
            257 => Class::Suppressed,
            258 => Class::TimedOut,
            259 => Class::Deviating,
            _ => Class::Other,
        }
    }
}

// "running every log in the book alone with its own timing": the answer that `udslog` prints of it. None where it calls the log bad.
pub fn counted_at(log: &[u8]) -> Option<usize>
    ensures { CountsAt log.now result }
{
    let (_, answer) = answer_of(log)?;
    Some(byte_at(log, 2) as usize * 261 + Class::from(answer.outcome).slot())
}

// One more at a place. A counter stays at its largest number.
pub fn raise(summary: &mut [u16], place: usize)
    ensures { summary.new ≡ raised_at summary.old place }
{
    if place < summary.len() {
        summary[place] = summary[place].saturating_add(1);
    }
}

// One more where a log is counted, if `udslog` does not call it bad.
pub fn count_log(summary: &mut [u16], log: &[u8])
    ensures { summary.new ≡ cond (layout_ok log.now) (raised summary.old log.now) summary.old }
{
    if let Some(place) = counted_at(log) {
        raise(summary, place);
    }
}
