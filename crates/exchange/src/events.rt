// The event list as it is lent, in either form, and the limits whose breach is refusal 10.
ghost use Rattle.std.specs.Prelude.{Bool, ◌≡◌, ◌/◌, ◌<◌, length};
ghost use Rattle.rules.specs.Bytes.{every, is_byte};
ghost use Rattle.rules.specs.Events.{addressed, event_size, entry_in, entry_at, within_limits};
ghost use Rattle.rules.specs.Events as rules;
ghost use Rattle.exchange.specs.Meaning.{form_of, entry_of, kind_heard};
ghost use Rattle.exchange.specs.Places.{Named, cut};

use crate::types::{Event, Form, Place};
use wire::{part, u16_at, u32_at};

// "Event, 10 bytes"; "12-byte events with the address last"
pub fn event_size(form: Form) -> usize
    ensures { result ≡ event_size (form_of form) }
{
    match form {
        Form::Plain => 10,
        Form::Addressed => 12,
    }
}

// How many whole events there are.
pub fn event_count(form: Form, events: &[u8]) -> usize
    ensures { result ≡ length events.now / event_size (form_of form) }
{
    let size = event_size(form);
    events.len() / size
}

// The event whose bytes these are. Bytes past the end read as 0, and so does the address of an event that has none.
fn event_of(entry: &[u8]) -> Event
    ensures { entry_of result ≡ entry_in addressed entry.now 0 }
{
    Event {
        time: u32_at(entry, 0),
        kind: u16_at(entry, 4),
        offset: u16_at(entry, 6),
        size: u16_at(entry, 8),
        source: u16_at(entry, 10),
    }
}

// Event number `i` of those that are whole: a part of a length that is known asks nothing at each read.
pub(crate) fn event_in(form: Form, events: &[u8], i: usize) -> Event
    requires { i < length events.now / event_size (form_of form) }
    ensures { entry_of result ≡ entry_at (form_of form) events.now i }
{
    let size = event_size(form);
    let at = i * size;
    let end = at + size;
    event_of(&events[at..end])
}

// Of such an event the time and the kind alone, which are all that an idle event says.
pub(crate) fn time_in(form: Form, events: &[u8], i: usize) -> u32
    requires { i < length events.now / event_size (form_of form) }
    ensures { result ≡ (entry_at (form_of form) events.now i).time }
{
    let size = event_size(form);
    let at = i * size;
    let end = at + 4;
    u32_at(&events[at..end], 0)
}

pub(crate) fn kind_in(form: Form, events: &[u8], i: usize) -> u16
    requires { i < length events.now / event_size (form_of form) }
    ensures { result ≡ (entry_at (form_of form) events.now i).kind }
{
    let size = event_size(form);
    let at = i * size + 4;
    let end = at + 2;
    u16_at(&events[at..end], 0)
}

// Event number `i`. Bytes past the end read as 0, and so does the address of an event that has none.
pub fn event_at(form: Form, events: &[u8], i: usize) -> Event
    ensures { entry_of result ≡ entry_at (form_of form) events.now i }
{
    let n = event_count(form, events);
    if i < n {
        return event_in(form, events, i);
    }
    if i > n {
        return event_of(b"");
    }
    let size = event_size(form);
    event_of(part(events, i * size, size))
}

// "Replies from other addresses are read and passed over": a foreign reply is heard as an idle event.
pub fn kind_heard(listens: u16, event: Event) -> u16
    ensures { result ≡ kind_heard listens (entry_of event) }
{
    if event.kind == 0 {
        if event.source != listens {
            return 1;
        }
    }
    event.kind
}

// The part that a reply names, cut at the end of the lent bytes.
pub fn named(event: Event, replies: &[u8]) -> Place
    ensures { Named replies.now (entry_of event) result }
{
    let at = event.offset as usize;
    let reply = part(replies, at, event.size as usize);
    Place {
        at,
        len: reply.len(),
    }
}

// A reply cut at the end of the lent bytes: all that it then names is there.
pub(crate) fn cut(event: Event, replies: &[u8]) -> Event
    ensures { entry_of result ≡ cut replies.now (entry_of event) }
{
    if event.kind != 0 {
        return event;
    }
    let place = named(event, replies);
    Event {
        time: event.time,
        kind: event.kind,
        offset: event.offset,
        size: place.len as u16,
        source: event.source,
    }
}

// "a reply has 0..4,095 bytes"; a known kind; a reply inside the lent bytes; no address on any other kind. (Times and numbers fit by
// their types.)
fn sound(event: Event, replies: &[u8]) -> bool
    requires { every is_byte replies.now ≡ Bool.true }
    ensures { result ≡ rules.sound replies.now (entry_of event) }
{
    if event.kind != 0 {
        if event.source != 0 {
            return false;
        }
        return event.kind <= 3;
    }
    if event.size > 4095 {
        return false;
    }
    event.offset as usize + event.size as usize <= replies.len()
}

// The same of an event alone, for the engine that is handed one at a time.
pub fn sound_alone(event: Event, replies: &[u8]) -> bool
    ensures { result ≡ rules.sound replies.now (entry_of event) }
{
    sound(event, replies)
}

// "At most 512 events"; "Times in the list never fall."; "Every event is checked, those never read too."
pub fn within_limits(form: Form, events: &[u8], replies: &[u8]) -> bool
    ensures { result ≡ within_limits (form_of form) events.now replies.now }
{
    let size = event_size(form);
    if events.len() % size != 0 {
        return false;
    }
    let n = event_count(form, events);
    if n > 512 {
        return false;
    }
    let mut last = 0;
    for i in 0..n {
        let event = event_in(form, events, i);
        if event.time < last {
            return false;
        }
        if !sound(event, replies) {
            return false;
        }
        last = event.time;
    }
    true
}
