// The session record that the host lends: a whole call over it, and calls in a session that is kept by value.
#![tactic(auto)]

ghost use Rattle.std.specs.Prelude.{◌≡◌};
ghost use Rattle.requests.specs.Meaning.{call_of};
ghost use Rattle.calls.specs.Meaning.{setting_of, lent_of, Called};
ghost use Rattle.sessions.specs.Meaning.{handed_of, HandsOut};

use calls::{Answered, Ask};
use exchange::types::Timing;

// "Handed-out data is a part of the lent reply bytes", with their lifetime.
pub fn handed_out<'r>(answered: Answered, replies: &'r [u8]) -> &'r [u8]
    ensures { result.now ≡ handed_of answered replies.now }
{
    checks::data(answered.answer.outcome, replies)
}

// The answer, and the data that it hands out.
#[derive(Clone, Copy)]
pub struct Handed<'r> {
    pub answer: Answered,
    pub bytes: &'r [u8],
}

// The call over the session record that the host lends.
pub fn call<'r>(
    session: &mut Timing,
    ask: Ask,
    request: &mut [u8],
    address: &[u8],
    size: &[u8],
    data: &[u8],
    events: &[u8],
    replies: &'r [u8],
) -> Handed<'r>
    ensures { (Called ask.strict (setting_of ask session.old)
        (call_of ask.call address.now size.now «data».now)
        (lent_of ask.channel request.old events.now replies.now) result.answer
        request.new) × (result.bytes.now ≡ handed_of result.answer replies.now) ×
        (session.new ≡ result.answer.timing) }
{
    let answer = calls::run(*session, ask, request, address, size, data, events, replies);
    *session = answer.timing;
    Handed {
        answer,
        bytes: handed_out(answer, replies),
    }
}

// A call in a session that is kept by value, for a caller with no session record to lend, as the door, which is handed the two times: the record is
// this function's own, and is lent to `call`. The session afterwards is the answer's.
pub fn in_session(
    mut session: Timing,
    ask: Ask,
    request: &mut [u8],
    address: &[u8],
    size: &[u8],
    data: &[u8],
    events: &[u8],
    replies: &[u8],
) -> Answered
    ensures { Called ask.strict (setting_of ask session)
        (call_of ask.call address.now size.now «data».now)
        (lent_of ask.channel request.old events.now replies.now) result
        request.new }
{
    let handed = call(
        &mut session,
        ask,
        request,
        address,
        size,
        data,
        events,
        replies,
    );
    handed.answer
}

// The data that such a call hands out, with the lifetime of the lent reply bytes; none where its answer is not positive.
pub fn data_in_session<'r>(
    mut session: Timing,
    ask: Ask,
    request: &mut [u8],
    address: &[u8],
    size: &[u8],
    data: &[u8],
    events: &[u8],
    replies: &'r [u8],
) -> &'r [u8]
    ensures { HandsOut ask.strict (setting_of ask session)
        (call_of ask.call address.now size.now «data».now)
        (lent_of ask.channel request.old events.now replies.now) result.now
        request.new }
{
    let handed = call(
        &mut session,
        ask,
        request,
        address,
        size,
        data,
        events,
        replies,
    );
    handed.bytes
}
