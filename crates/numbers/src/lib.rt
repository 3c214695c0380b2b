// An answer as fifteen numbers, which C and Rust can read.
#![tactic(auto)]

ghost use Rattle.std.specs.Prelude.{List, ◌≡◌, ℕ};
ghost use Rattle.rules.specs.Answers.{fault};
ghost use Rattle.exchange.specs.Meaning.{outcome_of, deviation_of, option_of};
ghost use Rattle.exchange.specs.Places.{InsideOutcome};
ghost use Rattle.numbers.specs.Numbers.{upper, plain, values_of, Tells};

use calls::Answered;
use exchange::error::{Fault, ProtocolDeviation};
use exchange::types::Outcome;

// An outcome's number and values, deviation 8's bounds, and the place of a positive's data.
#[derive(Clone, Copy)]
struct Values {
    outcome: u64,
    detail: u64,
    least: u64,
    most: u64,
    at: u64,
    len: u64,
}

fn plain(outcome: u64, detail: u64) -> Values
    ensures { result ≡ plain outcome detail }
{
    Values {
        outcome,
        detail,
        least: 0,
        most: 0,
        at: 0,
        len: 0,
    }
}

fn upper(maximum: Option<usize>) -> u64
    ensures { result ≡ upper (option_of maximum) }
{
    match maximum {
        None => u64::MAX,
        Some(most) => most as u64,
    }
}

// Deviation 8 has bounds.
fn deviation(deviation: ProtocolDeviation) -> Values
    ensures { result ≡ values_of (fault (deviation_of deviation)) }
{
    match deviation {
        ProtocolDeviation::InvalidResponseLength(least, most) => Values {
            least: least as u64,
            most: upper(most),
            ..plain(6, 8)
        },
        _ => plain(6, u8::from(deviation) as u64),
    }
}

fn told(outcome: Outcome) -> Values
    ensures { (replies : List ℕ) → InsideOutcome replies outcome → result ≡ values_of (outcome_of replies outcome) }
{
    match outcome {
        Outcome::PositiveResponse(place) => Values {
            at: place.at as u64,
            len: place.len as u64,
            ..plain(0, 0)
        },
        Outcome::Suppressed => plain(1, 0),
        Outcome::NegativeResponse(code) => plain(2, code as u64),
        Outcome::Timeout => plain(3, 0),
        Outcome::Disconnected => plain(4, 0),
        Outcome::Transport(number) => plain(5, number as u64),
        Outcome::Fault(fault) => match fault {
            Fault::ProtocolDeviation(d) => deviation(d),
            Fault::InvalidResponseLength => plain(7, 0),
            Fault::BlockLengthOverflow => plain(8, 0),
        },
        Outcome::Refused(number) => plain(9, number as u64),
        Outcome::PendingLimit => plain(10, 0),
    }
}

pub fn numbers(x: Answered) -> [u64; 15]
    ensures { Tells x result }
{
    let answer = x.answer;
    let reply = answer.reply;
    let timing = x.timing;
    let v = told(answer.outcome);
    [
        v.outcome,
        v.detail,
        v.least,
        v.most,
        answer.time,
        answer.events as u64,
        answer.notices as u64,
        v.at,
        v.len,
        reply.at as u64,
        reply.len as u64,
        x.number,
        timing.p2 as u64,
        timing.star as u64,
        x.sent as u64,
    ]
}
