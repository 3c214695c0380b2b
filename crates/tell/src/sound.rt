// The story of a log that asks a call: the request, the exchange, the checks behind a positive, and the answer.
ghost use Rattle.std.specs.Prelude.{[], ◌≡◌, Some};
ghost use Rattle.rules.specs.Exchange as rules;
ghost use Rattle.rules.specs.Lines.{ascii};
ghost use Rattle.exchange.specs.Meaning.{answer_of};
ghost use Rattle.log_call.specs.Asking.{RecordedIn};
ghost use Rattle.telling.specs.Telling.{sound_text};
ghost use Rattle.telling.specs.Words.{mode, quiet, begins, concludes, declined_by, declined};
ghost use Rattle.text.specs.Written.{Adds};
ghost use Rattle.tell.specs.Made.{asked_by, call_text};

use calls::Ask;
use exchange::types::{Answer, Asked, Outcome, State, Timing};
use exchange::{exchange, start};
use logs::header::Header;
use logs::layout::{address_of, data_of, events_of, replies_of, size_of};
use requests::rows::row_of;
use requests::with_bit7;
use sessions::in_session;
use story_checks::put_checks;
use story_exchange::put_exchange;
use story_lines::put_shown;
use text::{append, append_decimal};
use wire::part;

// What the exchange knows of the request.
fn asked_by(ask: Ask, session: Timing) -> Asked
    ensures { result ≡ asked_by ask session }
{
    let row = row_of(ask.call);
    Asked {
        sid: row.sid,
        sub: with_bit7(ask.quiet, row.sub),
        timing: session,
        limit: ask.limit,
    }
}

fn mode(strict: bool) -> &'static [u8]
    ensures { result.now ≡ ascii (mode strict) }
{
    if strict {
        b" sent, strict"
    } else {
        b" sent, lenient"
    }
}

fn quiet(hush: bool) -> &'static [u8]
    ensures { result.now ≡ ascii (quiet hush) }
{
    if hush {
        b", silence asked for. The clock starts: deadline "
    } else {
        b". The clock starts: deadline "
    }
}

// The request, how it is judged, whether silence was asked for, and the first deadline.
fn put_begins(text: &mut [u8], at: usize, strict: bool, request: &[u8], state: State) -> usize
    ensures { Adds (begins strict request.now (rules.state state.hush state.deadline [] [])) text.old at result text.new }
{
    let a = append(text, at, b"0 ms  request");
    let b = put_shown(text, a, request);
    let c = append(text, b, mode(strict));
    let d = append(text, c, quiet(state.hush));
    let e = append_decimal(text, d, state.deadline);
    append(text, e, b" ms.\n")
}

fn put_concludes(text: &mut [u8], at: usize, answer: Answer) -> usize
    ensures { Adds (concludes (answer_of [] answer)) text.old at result text.new }
{
    let a = append(text, at, b"The call ends at ");
    let b = append_decimal(text, a, answer.time);
    let c = append(text, b, b" ms. Events read: ");
    let d = append_decimal(text, c, answer.events as u64);
    let e = append(text, d, b". Wait notices: ");
    let f = append_decimal(text, e, answer.notices as u64);
    append(text, f, b".\n")
}

// What a refusal is about.
fn about(refusal: u8) -> &'static [u8]
    ensures { result.now ≡ declined_by refusal }
{
    match refusal {
        10 => b"The call is not made: its list of events breaks a limit, refusal ",
        _ => b"The call is not made: what it asks for is not allowed, refusal ",
    }
}

// A call that is not made.
fn put_refusal(text: &mut [u8], refusal: u8) -> usize
    ensures { Adds (declined refusal) text.old 0 result text.new }
{
    let a = append(text, 0, about(refusal));
    let b = append_decimal(text, a, refusal as u64);
    append(text, b, b".\n")
}

// A call that is made and not refused: its request, its exchange, and what became of it.
fn put_made_call(
    text: &mut [u8],
    ask: Ask,
    session: Timing,
    request: &[u8],
    address: u8,
    size: u8,
    events: &[u8],
    replies: &[u8],
    answer: Answer,
) -> usize
    ensures { Adds (call_text ask session request.now address size events.now replies.now answer) text.old 0 result text.new }
{
    let asked = asked_by(ask, session);
    let a = put_begins(text, 0, ask.strict, request, start(asked));
    let b = put_exchange(
        text,
        a,
        ask.strict,
        asked,
        ask.overall,
        ask.channel,
        events,
        replies,
    );
    let heard = exchange(ask.strict, asked, ask.overall, ask.channel, events, replies);
    let reply = part(replies, answer.reply.at, answer.reply.len);
    let c = put_checks(
        text,
        b,
        ask.strict,
        ask.call,
        address,
        size,
        reply,
        heard.outcome,
        answer.outcome,
    );
    put_concludes(text, c, answer)
}

// The story of a sound log, as far as `udslog`'s line.
pub(crate) fn put_sound(text: &mut [u8], log: &[u8], h: Header, ask: Ask) -> usize
    requires { RecordedIn log.now (Some (h, ask)) }
    ensures { Adds (sound_text log.now) text.old 0 result text.new }
{
    let address = address_of(log, h);
    let size = size_of(log, h);
    let data = data_of(log, h);
    let events = events_of(log, h);
    let replies = replies_of(log, h);
    // as long as the longest request, so that refusal 9 cannot come up
    let mut request = [0u8; 4095];
    let session = Timing {
        p2: h.p2,
        star: h.star,
    };
    let answered = in_session(
        session,
        ask,
        &mut request,
        address,
        size,
        data,
        events,
        replies,
    );
    let answer = answered.answer;
    match answer.outcome {
        Outcome::Refused(refusal) => put_refusal(text, refusal),
        _ => put_made_call(
            text,
            ask,
            session,
            part(&request, 0, answered.sent),
            address.len() as u8,
            size.len() as u8,
            events,
            replies,
            answer,
        ),
    }
}
