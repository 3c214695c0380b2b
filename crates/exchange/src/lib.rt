// The exchange over a lent event list: "The exchange reads until one event settles it".
#![tactic(auto)]

ghost use Rattle.std.specs.Prelude.{◌≡◌, Bool, []};
ghost use Rattle.rules.specs.Events.{within_limits};
ghost use Rattle.rules.specs.Exchange as rules;
ghost use Rattle.exchange.specs.Meaning.{form_of, asked_of, option_of, entry_of, outcome_of};
ghost use Rattle.exchange.specs.Counts.{in_time, one_more, counted};
ghost use Rattle.exchange.specs.States.{start_of, passed_by, silence_of, under_of};
ghost use Rattle.exchange.specs.Places.{WholeReply, Turns, Answers};
ghost use Rattle.exchange.specs.Guarded.{over, guarded};

use events::{cut, event_count, event_in, kind_heard, kind_in, time_in, within_limits};
use judging::{suppresses, whole_look};
use types::{Answer, Asked, Channel, Count, Event, Outcome, Place, Settled, State, Step, Turn};
use wire::refusal::Refusal;

pub mod error;
pub mod events;
pub mod judging;
pub mod types;

// "a negative or positive with suppression waits until P2 if later"
fn waits(outcome: Outcome) -> bool
    ensures { result ≡ rules.waits (outcome_of [] outcome) }
{
    match outcome {
        Outcome::PositiveResponse(_) => true,
        Outcome::NegativeResponse(_) => true,
        Outcome::Suppressed => false,
        Outcome::Timeout => false,
        Outcome::Disconnected => false,
        Outcome::Transport(_) => false,
        Outcome::Fault(_) => false,
        Outcome::Refused(_) => false,
        Outcome::PendingLimit => false,
    }
}

// The time at which an outcome of an event at this time finishes.
fn finish(asked: Asked, outcome: Outcome, time: u64) -> u64
    ensures { result ≡ rules.finish (asked_of asked) (outcome_of [] outcome) time }
{
    let sub = asked.sub;
    let p2 = asked.timing.p2 as u64;
    if waits(outcome) {
        if suppresses(sub) {
            if time < p2 {
                return p2;
            }
        }
    }
    time
}

// Whether a time is up to T.
fn in_time(overall: Option<u32>, time: u64) -> bool
    ensures { result ≡ in_time (option_of overall) time }
{
    match overall {
        None => true,
        Some(overall) => time <= overall as u64,
    }
}

// A count stays at the largest number that it has room for, which no event list reaches.
fn one_more(n: usize) -> usize
    ensures { result ≡ one_more n }
{
    if n < usize::MAX { n + 1 } else { n }
}

// One more, at this time.
fn counted(count: Count, overall: Option<u32>, time: u64) -> Count
    ensures { result ≡ counted (option_of overall) time count }
{
    if in_time(overall, time) {
        Count {
            all: one_more(count.all),
            early: one_more(count.early),
        }
    } else {
        Count {
            all: one_more(count.all),
            early: count.early,
        }
    }
}

// "The deadline starts at P2."
pub fn start(asked: Asked) -> State
    ensures { result ≡ start_of (asked_of asked) }
{
    let sub = asked.sub;
    State {
        hush: suppresses(sub),
        deadline: asked.timing.p2 as u64,
        read: Count::NONE,
        notices: Count::NONE,
    }
}

// Whether the limit allows one more notice behind so many.
fn allows(limit: Option<u8>, notices: usize) -> bool
    ensures { result ≡ rules.allows (option_of limit) notices }
{
    match limit {
        None => true,
        Some(k) => notices < k as usize,
    }
}

// "Idle changes nothing" but that it was read.
fn passed(state: State, overall: Option<u32>, time: u64) -> State
    ensures { result ≡ passed_by (option_of overall) time state }
{
    let read = counted(state.read, overall, time);
    let notices = state.notices;
    State {
        hush: state.hush,
        deadline: state.deadline,
        read,
        notices,
    }
}

// What one event in time does; of a reply, all that it names is there. "The notice after the K-th ends the call with the new outcome `pendinglimit` at its arrival time". "Idle changes nothing. End gives disconnected, error gives transport."
fn whole_turn(
    strict: bool,
    asked: Asked,
    overall: Option<u32>,
    listens: u16,
    state: State,
    event: Event,
    replies: &[u8],
) -> Turn
    requires { WholeReply replies.now (entry_of event) }
    ensures { Turns strict (asked_of asked) (option_of overall) listens state (entry_of event) replies.now result }
{
    let kind = kind_heard(listens, event);
    let time = event.time as u64;
    let hush = state.hush;
    let notices = state.notices;
    let limit = asked.limit;
    let read = counted(state.read, overall, time);
    if kind == 0 {
        let reply = Place {
            at: event.offset as usize,
            len: event.size as usize,
        };
        match whole_look(strict, asked, hush, replies, reply) {
            Step::Pending => {
                let more = allows(limit, notices.all);
                let notices = counted(notices, overall, time);
                if more {
                    return Turn::On(State {
                        hush: false,
                        deadline: time + asked.timing.star as u64,
                        read,
                        notices,
                    });
                }
                return Turn::Ends(Settled {
                    outcome: Outcome::PendingLimit,
                    time,
                    read,
                    notices,
                    reply,
                });
            }
            Step::Settles(outcome) => {
                let finished = finish(asked, outcome, time);
                return Turn::Ends(Settled {
                    outcome,
                    time: finished,
                    read,
                    notices,
                    reply,
                });
            }
        }
    }
    if kind == 1 {
        return Turn::On(passed(state, overall, time));
    }
    if kind == 2 {
        return Turn::Ends(Settled {
            outcome: Outcome::Disconnected,
            time,
            read,
            notices,
            reply: Place::NOWHERE,
        });
    }
    Turn::Ends(Settled {
        outcome: Outcome::Transport(event.size),
        time,
        read,
        notices,
        reply: Place::NOWHERE,
    })
}

// The same of any event: a reply is cut at the end of the lent bytes.
pub fn turn(
    strict: bool,
    asked: Asked,
    overall: Option<u32>,
    listens: u16,
    state: State,
    event: Event,
    replies: &[u8],
) -> Turn
    ensures { Turns strict (asked_of asked) (option_of overall) listens state (entry_of event) replies.now result }
{
    let there = cut(event, replies);
    whole_turn(strict, asked, overall, listens, state, there, replies)
}

// "No event in time: suppressed if bit 7 of the sub-function is set and no pending was read, else timeout. It finishes at the deadline."
pub fn silence(state: State) -> Settled
    ensures { result ≡ silence_of state }
{
    let read = state.read;
    let notices = state.notices;
    if state.hush {
        Settled {
            outcome: Outcome::Suppressed,
            time: state.deadline,
            read,
            notices,
            reply: Place::NOWHERE,
        }
    } else {
        Settled {
            outcome: Outcome::Timeout,
            time: state.deadline,
            read,
            notices,
            reply: Place::NOWHERE,
        }
    }
}

// "If that time exceeds T, the outcome is timeout at T." "Under a timeout at T these count only events at times up to T."
pub fn under(overall: Option<u32>, settled: Settled) -> Answer
    ensures { result ≡ under_of (option_of overall) settled }
{
    let outcome = settled.outcome;
    let read = settled.read;
    let notices = settled.notices;
    let reply = settled.reply;
    let whole = Answer {
        outcome,
        time: settled.time,
        events: read.all,
        notices: notices.all,
        reply,
    };
    match overall {
        None => whole,
        Some(overall) => {
            let overall = overall as u64;
            if settled.time <= overall {
                whole
            } else {
                Answer {
                    outcome: Outcome::Timeout,
                    time: overall,
                    events: read.early,
                    notices: notices.early,
                    reply: Place::NOWHERE,
                }
            }
        }
    }
}

// No `for`: document 01 asks here for "a loop over the event list that yields its outcome by break, with the deadline carried".
// The loop over the list, with the state and its deadline carried. "An event exactly at a deadline is in time." Of an idle event no more is read than that it is one.
fn settle(
    strict: bool,
    asked: Asked,
    overall: Option<u32>,
    channel: Channel,
    events: &[u8],
    replies: &[u8],
) -> Answer
    requires { within_limits (form_of channel.form) events.now replies.now ≡ Bool.true }
    ensures { Answers replies.now result (over strict (asked_of asked) (option_of overall) (form_of channel.form) channel.listens events.now replies.now) }
{
    let form = channel.form;
    let listens = channel.listens;
    let n = event_count(form, events);
    let mut i = 0;
    let mut state = start(asked);
    let answer = loop {
        if i >= n {
            break under(overall, silence(state));
        }
        let time = time_in(form, events, i) as u64;
        if time > state.deadline {
            break under(overall, silence(state));
        }
        if kind_in(form, events, i) == 1 {
            state = passed(state, overall, time);
            i += 1;
        } else {
            let event = event_in(form, events, i);
            i += 1;
            match whole_turn(strict, asked, overall, listens, state, event, replies) {
                Turn::On(next) => state = next,
                Turn::Ends(settled) => break under(overall, settled),
            }
        }
    };
    answer
}

// An event list that breaks a limit is refused with 10. "Refused: the number, time and counts 0"
pub fn exchange(
    strict: bool,
    asked: Asked,
    overall: Option<u32>,
    channel: Channel,
    events: &[u8],
    replies: &[u8],
) -> Answer
    ensures { Answers replies.now result (guarded strict (asked_of asked) (option_of overall) (form_of channel.form) channel.listens events.now replies.now) }
{
    let form = channel.form;
    if !within_limits(form, events, replies) {
        return Answer {
            outcome: Outcome::Refused(u8::from(Refusal::Events)),
            time: 0,
            events: 0,
            notices: 0,
            reply: Place::NOWHERE,
        };
    }
    settle(strict, asked, overall, channel, events, replies)
}
