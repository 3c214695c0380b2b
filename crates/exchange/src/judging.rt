// One reply judged, strict and lenient: the checks in their order, and the first that fails.
ghost use Rattle.std.specs.Prelude.{◌≡◌};
ghost use Rattle.rules.specs.Answers.{length_error};
ghost use Rattle.rules.specs.Calls as calls;
ghost use Rattle.rules.specs.Exchange as rules;
ghost use Rattle.exchange.specs.Meaning.{asked_of, option_of, fault_of, verdict_of, first_of, part_of};
ghost use Rattle.exchange.specs.Places.{Whole, Looked};

use crate::error::{Fault, ProtocolDeviation};
use crate::types::{Asked, Outcome, Place, Step};
use wire::constants::{NEGATIVE_RESPONSE, POSITIVE_RESPONSE};
use wire::error::NegativeResponseCode;
use wire::{byte_at, part};

// "A length error is deviation 8 (minimum, maximum) in strict, the plain length outcome in lenient."
pub fn length_error(strict: bool, minimum: usize, maximum: Option<usize>) -> Fault
    ensures { fault_of result ≡ length_error strict minimum (option_of maximum) }
{
    if strict {
        Fault::ProtocolDeviation(ProtocolDeviation::InvalidResponseLength(minimum, maximum))
    } else {
        Fault::InvalidResponseLength
    }
}

// "bit 7 of the sub-function is set"
pub fn suppresses(sub: Option<u8>) -> bool
    ensures { result ≡ calls.suppresses (option_of sub) }
{
    match sub {
        None => false,
        Some(s) => s >= 128,
    }
}

// How many bytes stand before the data.
pub fn head(sub: Option<u8>) -> usize
    ensures { result ≡ calls.head (option_of sub) }
{
    match sub {
        None => 1,
        Some(_) => 2,
    }
}

// "First byte 7F. Length under 3, or in strict not 3: length error (3, 3). Strict, second byte not the request's SID: deviation 2."
fn negative_checks(strict: bool, asked: Asked, reply: &[u8]) -> Result<(), Fault>
    ensures { verdict_of result ≡ first_of (rules.negative_checks strict (asked_of asked) reply.now) }
{
    if reply.len() < 3 {
        return Err(length_error(strict, 3, Some(3)));
    }
    if strict && reply.len() != 3 {
        return Err(length_error(strict, 3, Some(3)));
    }
    if strict && byte_at(reply, 1) != asked.sid {
        return Err(Fault::ProtocolDeviation(ProtocolDeviation::InvalidRequestServiceId));
    }
    Ok(())
}

// "With a sub-function: length 1 gives length error (2, none); strict, second byte not sub-function AND 7F: deviation 3."
fn echoing(strict: bool, sub: Option<u8>, reply: &[u8]) -> Result<(), Fault>
    ensures { verdict_of result ≡ first_of (rules.echoing strict (option_of sub) reply.now) }
{
    match sub {
        None => Ok(()),
        Some(s) => {
            if reply.len() < 2 {
                return Err(length_error(strict, 2, None));
            }
            if strict && byte_at(reply, 1) != s % 128 {
                return Err(Fault::ProtocolDeviation(ProtocolDeviation::InvalidSubFunction));
            }
            Ok(())
        }
    }
}

// "strict, first byte not SID OR 40: deviation 1." .. "Strict, suppressed, no pending: deviation 4." `hush`: suppressed, and no pending was read.
fn positive_checks(strict: bool, asked: Asked, hush: bool, reply: &[u8]) -> Result<(), Fault>
    ensures { verdict_of result ≡ first_of (rules.positive_checks strict (asked_of asked) hush reply.now) }
{
    if strict && byte_at(reply, 0) != asked.sid | POSITIVE_RESPONSE {
        return Err(Fault::ProtocolDeviation(ProtocolDeviation::InvalidServiceId));
    }
    echoing(strict, asked.sub, reply)?;
    if strict && hush {
        return Err(Fault::ProtocolDeviation(ProtocolDeviation::UnexpectedPositiveResponse));
    }
    Ok(())
}

// The bytes at a place that are all there: nothing is left to ask but whether there are any.
fn whole(replies: &[u8], place: Place) -> &[u8]
    requires { Whole replies.now place }
    ensures { result.now ≡ (part_of replies.now place).bytes }
{
    let at = place.at;
    let len = place.len;
    if len == 0 {
        return &replies[..0];
    }
    let end = at + len;
    &replies[at..end]
}

// One reply that is all there, judged by its first byte. "Code 78: deadline becomes this event's time + P2*, read on. Any other code: negative."
pub(crate) fn whole_look(
    strict: bool,
    asked: Asked,
    hush: bool,
    replies: &[u8],
    place: Place,
) -> Step
    requires { Whole replies.now place }
    ensures { Looked replies.now result (rules.look strict (asked_of asked) hush (part_of replies.now place)) }
{
    let at = place.at;
    let reply = whole(replies, place);
    if reply.len() == 0 {
        return Step::Settles(Outcome::Fault(length_error(strict, 1, None)));
    }
    if byte_at(reply, 0) == NEGATIVE_RESPONSE {
        match negative_checks(strict, asked, reply) {
            Err(fault) => {
                return Step::Settles(Outcome::Fault(fault));
            }
            Ok(()) => {
                let code = byte_at(reply, 2);
                if code == NegativeResponseCode::RequestCorrectlyReceivedResponsePending {
                    return Step::Pending;
                }
                return Step::Settles(Outcome::NegativeResponse(code));
            }
        }
    }
    match positive_checks(strict, asked, hush, reply) {
        Err(fault) => Step::Settles(Outcome::Fault(fault)),
        Ok(()) => {
            let sub = asked.sub;
            let before = head(sub);
            Step::Settles(Outcome::PositiveResponse(Place {
                at: at + before,
                len: reply.len() - before,
            }))
        }
    }
}

// The same at any place: a reply is cut at the end of the lent bytes.
pub fn look(strict: bool, asked: Asked, hush: bool, replies: &[u8], place: Place) -> Step
    ensures { Looked replies.now result (rules.look strict (asked_of asked) hush (part_of replies.now place)) }
{
    let at = place.at;
    let reply = part(replies, at, place.len);
    let there = Place {
        at,
        len: reply.len(),
    };
    whole_look(strict, asked, hush, replies, there)
}
