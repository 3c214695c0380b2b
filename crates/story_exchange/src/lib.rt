// The story of an exchange, over the exchange's own turn: "a line for each event read and each deadline".
#![tactic(auto)]

ghost use Rattle.std.specs.Prelude.{◌&&◌, [], ◌++◌, ◌≡◌, leb};
ghost use Rattle.rules.specs.Events.{entries};
ghost use Rattle.rules.specs.Exchange as rules;
ghost use Rattle.exchange.specs.Meaning.{form_of, asked_of, option_of, entry_of, outcome_of};
ghost use Rattle.telling.specs.Story.{within, tell};
ghost use Rattle.telling.specs.Words.{what, timed, on_text, end_text, joined};
ghost use Rattle.text.specs.Written.{Adds};
ghost use Rattle.story_exchange.specs.Ends.{silent_text, cut_text, rest_text};

use exchange::events::{event_at, event_count};
use exchange::types::{Asked, Channel, Event, Settled, State, Turn};
use exchange::{start, turn};
use story_lines::{put_end, put_event, put_late, put_on, put_over, put_unread};

// Whether an event is read: by the deadline, and by T.
fn is_read(overall: Option<u32>, deadline: u64, time: u64) -> bool
    ensures { result ≡ (leb time deadline && within (option_of overall) time) }
{
    time <= deadline && overall.is_none_or(|overall| time <= overall as u64)
}

// No event in time: the deadline ends the call, or T where it comes first.
fn put_silent(text: &mut [u8], at: usize, overall: Option<u32>, state: State) -> usize
    ensures { Adds (silent_text (option_of overall) state.deadline state.hush) text.old at result text.new }
{
    match overall {
        Some(overall) if (overall as u64) < state.deadline => put_over(text, at, overall as u64),
        _ => put_late(text, at, state),
    }
}

// "If that time exceeds T, the outcome is timeout at T."
fn put_cut(text: &mut [u8], at: usize, overall: Option<u32>, finish: u64) -> usize
    ensures { Adds (cut_text (option_of overall) finish) text.old at result text.new }
{
    match overall {
        Some(overall) if (overall as u64) < finish => put_over(text, at, overall as u64),
        _ => at,
    }
}

// The events as they are lent, the bytes that their replies name, and T.
#[derive(Clone, Copy)]
struct Lent<'a> {
    overall: Option<u32>,
    channel: Channel,
    events: &'a [u8],
    replies: &'a [u8],
}

// "Events that were never read are told as such": those from number `first` on.
fn put_rest(text: &mut [u8], at: usize, lent: Lent, first: usize) -> usize
    ensures { let l = lent.entry in Adds (rest_text (form_of l.channel.form) l.channel.listens l.events.now l.replies.now first) text.old at result text.new }
{
    let form = lent.channel.form;
    let mut n = at;
    for i in first..event_count(form, lent.events) {
        let event = event_at(form, lent.events, i);
        n = put_unread(text, n, lent.channel.listens, event, lent.replies);
    }
    n
}

// An event that settled nothing.
fn put_going(
    text: &mut [u8],
    at: usize,
    listens: u16,
    replies: &[u8],
    event: Event,
    before: u64,
    next: State,
) -> usize
    ensures { Adds
        (timed event.time (what listens replies.now (entry_of event)) ++
        on_text listens (entry_of event) before next.read.all next.notices.all next.deadline)
        text.old at result text.new }
{
    let a = put_event(text, at, listens, event, replies);
    put_on(text, a, listens, event, before, next)
}

// The event that settled the exchange, T where it comes first, and the events behind it, from number `first` on.
fn put_settled(
    text: &mut [u8],
    at: usize,
    lent: Lent,
    first: usize,
    event: Event,
    before: u64,
    settled: Settled,
) -> usize
    ensures { let l = lent.entry in Adds
        (timed event.time (what l.channel.listens l.replies.now (entry_of event)) ++
        end_text (entry_of event) before (outcome_of [] settled.outcome) settled.read.all settled.time ++
        cut_text (option_of l.overall) settled.time ++
        rest_text (form_of l.channel.form) l.channel.listens l.events.now l.replies.now first)
        text.old at result text.new }
{
    let a = put_event(text, at, lent.channel.listens, event, lent.replies);
    let b = put_end(text, a, event, before, settled);
    let c = put_cut(text, b, lent.overall, settled.time);
    put_rest(text, c, lent, first)
}

// No event in time, and the events that came too late, from number `first` on.
fn put_silence(text: &mut [u8], at: usize, lent: Lent, first: usize, state: State) -> usize
    ensures { let l = lent.entry in Adds
        (silent_text (option_of l.overall) state.deadline state.hush ++
        rest_text (form_of l.channel.form) l.channel.listens l.events.now l.replies.now first)
        text.old at result text.new }
{
    let a = put_silent(text, at, lent.overall, state);
    put_rest(text, a, lent, first)
}

// The loop over the list, in step with the list engine's: each event that is read has its line.
pub fn put_exchange(
    text: &mut [u8],
    at: usize,
    strict: bool,
    asked: Asked,
    overall: Option<u32>,
    channel: Channel,
    events: &[u8],
    replies: &[u8],
) -> usize
    ensures { Adds
        (joined channel.listens replies.now
        (tell strict (asked_of asked) (option_of overall) channel.listens replies.now
        (entries (form_of channel.form) events.now) (rules.start (asked_of asked))))
        text.old at result text.new }
{
    let lent = Lent {
        overall,
        channel,
        events,
        replies,
    };
    let listens = channel.listens;
    let count = event_count(channel.form, events);
    let mut n = at;
    let mut state = start(asked);
    for i in 0..count {
        let event = event_at(channel.form, events, i);
        let before = state.deadline;
        if !is_read(overall, before, event.time as u64) {
            return put_silence(text, n, lent, i, state);
        }
        match turn(strict, asked, overall, listens, state, event, replies) {
            Turn::On(next) => {
                n = put_going(text, n, listens, replies, event, before, next);
                state = next;
            }
            Turn::Ends(settled) => {
                return put_settled(text, n, lent, i + 1, event, before, settled);
            }
        }
    }
    put_silence(text, n, lent, count, state)
}
