// Request Eleven: "a second engine with a state record: begin, one event, or a tick". It takes the list engine's own turns, one event at a time.
#![tactic(auto)]

ghost use Rattle.std.specs.Prelude.{◌≡◌};
ghost use Rattle.exchange.specs.Meaning.{entry_of, option_of};
ghost use Rattle.steps.specs.Stepping.{asked_in, past_of, took, stepped_in, taken, going_on, late_of, Settles, tick_of, Turned, HandsIn, Hands, begun_by, Begins};
ghost use Rattle.rules.specs.Calls.{alfid};
ghost use Rattle.requests.specs.Meaning.{call_of, call_from};
ghost use Rattle.steps.specs.declared.Phase.TheVariants.{Waiting, Settled};

use calls::{Answered, Ask, is_refused};
use exchange::events::sound_alone;
use exchange::types::{Answer, Asked, Event, State, Timing, Turn};
use exchange::{silence, start, turn, under};
use requests::rows::row_of;
use requests::with_bit7;
use wire::refusal::Refusal;

// What the engine was begun with: the call, the session's timing, and how many bytes were sent.
#[derive(Clone, Copy)]
pub struct Begun {
    pub ask: Ask,
    pub session: Timing,
    pub sent: usize,
}

// It waits, or it has settled and this was decided.
#[derive(Clone, Copy)]
pub enum Phase {
    Waiting(State),
    Settled(Answered),
}

// The state record that a host keeps. `last` is the time of the last step that was taken.
#[derive(Clone, Copy)]
pub struct Engine {
    pub begun: Begun,
    pub last: u64,
    pub phase: Phase,
}

// What the exchange knows of the request.
fn asked(begun: Begun) -> Asked
    ensures { result ≡ asked_in begun }
{
    let ask = begun.ask;
    let row = row_of(ask.call);
    Asked {
        sid: row.sid,
        sub: with_bit7(ask.quiet, row.sub),
        timing: begun.session,
        limit: ask.limit,
    }
}

// Past the deadline or past T: "Past, not at it."
fn past(overall: Option<u32>, deadline: u64, time: u64) -> bool
    ensures { result ≡ past_of (option_of overall) deadline time }
{
    time > deadline || overall.is_some_and(|overall| time > overall as u64)
}

// Taken, and still waiting.
fn going_on(engine: Engine, time: u64, state: State) -> Engine
    ensures { took result ≡ going_on time state engine }
{
    Engine {
        last: time,
        phase: Phase::Waiting(state),
        ..engine
    }
}

// Taken, and settled.
fn settled(engine: Engine, time: u64, answered: Answered) -> Engine
    ensures { took result ≡ taken time (Settled answered) engine }
{
    Engine {
        last: time,
        phase: Phase::Settled(answered),
        ..engine
    }
}

// No event in time: timeout or suppressed at the deadline, or timeout at T where T comes first. What came so late is not read.
fn late(engine: Engine, time: u64, state: State) -> Engine
    ensures { took result ≡ late_of time state engine }
{
    let begun = engine.begun;
    let answered = Answered {
        answer: under(begun.ask.overall, silence(state)),
        number: 0,
        sent: begun.sent,
        timing: begun.session,
    };
    settled(engine, time, answered)
}

// An event settled it: "the whole call's answer", with the checks behind a positive, the number and the session's timing.
fn settles(
    engine: Engine,
    time: u64,
    address: &[u8],
    size: &[u8],
    replies: &[u8],
    heard: Answer,
) -> Engine
    ensures { Settles engine time address.now size.now replies.now heard (took result) }
{
    let begun = engine.begun;
    let answered = calls::concluded(
        begun.session,
        begun.ask,
        begun.sent,
        address,
        size,
        replies,
        heard,
    );
    settled(engine, time, answered)
}

// "a tick that says how late it is, in 64 bits": the time since sending. A refused step "changes nothing": the engine, which is passed by value, stays as it was.
pub fn tick(engine: Engine, now: u64) -> Result<Engine, Refusal>
    ensures { stepped_in engine result ≡ tick_of engine now }
{
    match engine.phase {
        Phase::Settled(_) => Err(Refusal::Settled),
        Phase::Waiting(state) => {
            if now < engine.last {
                return Err(Refusal::GoingBack);
            }
            if past(engine.begun.ask.overall, state.deadline, now) {
                return Ok(late(engine, now, state));
            }
            Ok(going_on(engine, now, state))
        }
    }
}

// The list engine's turn, one event in time.
fn turned(
    engine: Engine,
    state: State,
    address: &[u8],
    size: &[u8],
    event: Event,
    replies: &[u8],
) -> Engine
    ensures { Turned engine state address.now size.now (entry_of event) replies.now (took result) }
{
    let ask = engine.begun.ask;
    let time = event.time as u64;
    match turn(
        ask.strict,
        asked(engine.begun),
        ask.overall,
        ask.channel.listens,
        state,
        event,
        replies,
    ) {
        Turn::On(next) => going_on(engine, time, next),
        Turn::Ends(settled) => {
            let heard = under(ask.overall, settled);
            settles(engine, time, address, size, replies, heard)
        }
    }
}

// An event, while the engine waits. "order [..] 10, 20"
fn handed(
    engine: Engine,
    state: State,
    address: &[u8],
    size: &[u8],
    event: Event,
    replies: &[u8],
) -> Result<Engine, Refusal>
    ensures { HandsIn engine address.now size.now (entry_of event) replies.now (Waiting state) (stepped_in engine result) }
{
    let time = event.time as u64;
    if state.read.all >= 512 {
        return Err(Refusal::Events);
    }
    if !sound_alone(event, replies) {
        return Err(Refusal::Events);
    }
    if time < engine.last {
        return Err(Refusal::GoingBack);
    }
    if past(engine.begun.ask.overall, state.deadline, time) {
        return Ok(late(engine, time, state));
    }
    Ok(turned(engine, state, address, size, event, replies))
}

// One event, with the reply bytes lent for it; address and size are those of the call. "Refusals: 20 for going back, 21 after settling, 10
// as before; order 21, 10, 20." Refused, the engine, which is passed by value, stays as it was.
pub fn event(
    engine: Engine,
    address: &[u8],
    size: &[u8],
    event: Event,
    replies: &[u8],
) -> Result<Engine, Refusal>
    ensures { Hands engine address.now size.now (entry_of event) replies.now (stepped_in engine result) }
{
    match engine.phase {
        Phase::Waiting(state) => handed(engine, state, address, size, event, replies),
        Phase::Settled(_) => Err(Refusal::Settled),
    }
}

// What a call that hears nothing answered says how the engine begins: refused, it has settled with that refusal; else it waits from P2's start.
fn begun_by(session: Timing, ask: Ask, unheard: Answered) -> Engine
    ensures { result ≡ begun_by session ask unheard }
{
    let begun = Begun {
        ask,
        session,
        sent: unheard.sent,
    };
    let phase = if is_refused(unheard.answer.outcome) {
        Phase::Settled(unheard)
    } else {
        Phase::Waiting(start(asked(begun)))
    };
    Engine {
        begun,
        last: 0,
        phase,
    }
}

// "begin": takes the call, writes the request and refuses like the call.
pub fn begin(
    session: Timing,
    ask: Ask,
    request: &mut [u8],
    address: &[u8],
    size: &[u8],
    data: &[u8],
) -> Engine
    ensures { Begins session ask (call_of ask.call address.now size.now «data».now) request.old result request.new }
{
    let unheard = calls::run(session, ask, request, address, size, data, b"", b"");
    begun_by(session, ask, unheard)
}

// The same for the `alfid` form.
pub fn begin_alfid(
    session: Timing,
    ask: Ask,
    request: &mut [u8],
    address: u64,
    size: u64,
    address_width: usize,
    size_width: usize,
    wide: bool,
    data: &[u8],
) -> Engine
    ensures { Begins session ask
        (call_from ask.call (alfid address address_width wide) (alfid size size_width wide) «data».now)
        request.old result request.new }
{
    let unheard = calls::run_alfid(
        session,
        ask,
        request,
        address,
        size,
        address_width,
        size_width,
        wide,
        data,
        b"",
        b"",
    );
    begun_by(session, ask, unheard)
}
