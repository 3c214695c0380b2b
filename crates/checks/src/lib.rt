// Document 01's checks after a positive reply, in their order; the data handed out, the number of calls 11 and 12, and the session timing of call 1.
#![tactic(auto)]

ghost use Rattle.std.specs.Prelude.{◌<◌, [], ◌≡◌};
ghost use Rattle.rules.specs.After.{timing_of, number_of};
ghost use Rattle.rules.specs.Answers.{if_positive};
ghost use Rattle.exchange.specs.Meaning.{outcome_of, timed};
ghost use Rattle.requests.specs.Meaning.{bare};
ghost use Rattle.checks.specs.Answered.{Checked, place_of, fitting};

use crate::handed::handed;
use crate::services::verdict;
use exchange::types::{Outcome, Place, Timing};
use lengths::block_length;
use requests::Call;
use wire::{part, u16_at};

mod handed;
mod services;

// The reply at `place` was read as a positive: what its checks say of it, and where the data is that it hands out.
pub fn check(
    strict: bool,
    call: Call,
    address: &[u8],
    size: &[u8],
    replies: &[u8],
    place: Place,
) -> Outcome
    ensures { Checked strict call address.now size.now replies.now place result }
{
    let at = place.at;
    let len = place.len;
    match verdict(strict, call, address, size, part(replies, at, len)) {
        Err(fault) => Outcome::Fault(fault),
        Ok(()) => Outcome::PositiveResponse(handed(call, replies, place)),
    }
}

// The place that an outcome names; (0, 0) where it names none.
fn place_of(outcome: Outcome) -> Place
    ensures { result ≡ place_of outcome }
{
    match outcome {
        Outcome::PositiveResponse(place) => place,
        Outcome::Suppressed => Place::NOWHERE,
        Outcome::NegativeResponse(_) => Place::NOWHERE,
        Outcome::Timeout => Place::NOWHERE,
        Outcome::Disconnected => Place::NOWHERE,
        Outcome::Transport(_) => Place::NOWHERE,
        Outcome::Fault(_) => Place::NOWHERE,
        Outcome::Refused(_) => Place::NOWHERE,
        Outcome::PendingLimit => Place::NOWHERE,
    }
}

// "Handed-out data is a part of the lent reply bytes"; none where the outcome is no positive.
pub fn data<'r>(outcome: Outcome, replies: &'r [u8]) -> &'r [u8]
    ensures { result.now ≡ if_positive (outcome_of replies.now outcome) (λ p. p.bytes) [] }
{
    let place = place_of(outcome);
    let at = place.at;
    let len = place.len;
    part(replies, at, len)
}

// "They also return the value as a number". Of data above 2^64 - 1, which `check` never hands out, 0.
pub fn number(call: Call, outcome: Outcome, replies: &[u8]) -> u64
    ensures { result ≡ fitting (number_of (bare call) (outcome_of replies.now outcome)) }
{
    match call {
        Call::RequestDownload(_, _) => block_length(data(outcome, replies)).unwrap_or(0),
        Call::RequestUpload(_, _) => block_length(data(outcome, replies)).unwrap_or(0),
        _ => 0,
    }
}

// "Call 1, answered positive with four data bytes and server timing on, sets the session's P2 to the first pair and P2* to ten times the second. Nothing else sets it."
pub fn timing(
    server_timing: bool,
    call: Call,
    outcome: Outcome,
    replies: &[u8],
    session: Timing,
) -> Timing
    ensures { timed result ≡ timing_of server_timing (bare call) (outcome_of replies.now outcome) (timed session) }
{
    let Call::DiagnosticSessionControl(_) = call else {
        return session;
    };
    if !server_timing {
        return session;
    }
    let bytes = data(outcome, replies);
    if bytes.len() != 4 {
        return session;
    }
    Timing {
        p2: u16_at(bytes, 0) as u32,
        star: u16_at(bytes, 2) as u32 * 10,
    }
}
