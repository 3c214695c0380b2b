// The layout of a log: a sound one, or "any other layout".
ghost use Rattle.std.specs.Prelude.{◌≡◌, ◌-◌};
ghost use Rattle.rules.specs.Bytes.{every};
ghost use Rattle.rules.specs.Events.{entries};
ghost use Rattle.rules.specs.Logs.{uses_of, all, most_listens, fields_ok, areas_ok, event_ok, event_bytes, reply_bytes, laid_out, address_of, size_of};
ghost use Rattle.rules.specs.Calls.{given};
ghost use Rattle.exchange.specs.Meaning.{form_of, entry_of};
ghost use Rattle.logs.specs.Layout.{said, meant, data_bytes};

use crate::header::{Header, form_in, header_size};
use crate::reader::read_area;
use exchange::events::{event_at, event_count, event_size};
use exchange::types::{Event, Form};

// What a call uses, a row of `uses_by_call` of `rules`: the largest value, sub and lengths, whether flag 16 is its own, and whether data may and
// must be present. These are 0 or 1 and no bool: `fields_ok` reckons with them, so that its tests take no branch.
#[derive(Clone, Copy)]
pub struct Uses(pub u16, pub u8, pub u8, pub u8, pub u8, pub u8);

pub fn uses_of(call: u8) -> Uses
    ensures { meant result ≡ uses_of call }
{
    match call {
        0 => Uses(255, 0, 0, 1, 1, 0),
        1 => Uses(0, 255, 0, 0, 0, 0),
        2 => Uses(0, 255, 0, 0, 0, 0),
        3 => Uses(0, 255, 0, 0, 1, 0),
        4 => Uses(0, 0, 0, 0, 0, 0),
        5 => Uses(0, 0, 255, 0, 0, 0),
        6 => Uses(0, 0, 255, 0, 1, 1),
        7 => Uses(65535, 0, 0, 0, 0, 0),
        8 => Uses(65535, 0, 0, 0, 1, 1),
        9 => Uses(255, 0, 0, 0, 0, 0),
        10 => Uses(65535, 255, 0, 0, 1, 0),
        11 => Uses(65535, 0, 255, 0, 0, 0),
        12 => Uses(65535, 0, 255, 0, 0, 0),
        13 => Uses(255, 0, 0, 0, 1, 0),
        14 => Uses(0, 0, 0, 0, 1, 0),
        15 => Uses(255, 0, 0, 0, 0, 0),
        _ => Uses(0, 0, 0, 0, 0, 0),
    }
}

// All are asked: with no way out of its loop the compiler needs none, and keeps no array.
pub fn all(tests: &[bool]) -> bool
    ensures { result ≡ all tests.now }
{
    let mut passed = true;
    for &test in tests {
        passed = passed & test;
    }
    passed
}

// The largest listening address: none in version 1.
pub fn most_listens(form: Form) -> u16
    ensures { result ≡ most_listens (form_of form) }
{
    match form {
        Form::Plain => 0,
        Form::Addressed => 65535,
    }
}

// "Unused fields and bits are zero; flags 1, 2, 4, 8 suit every call"; "Without flag 32 no data bytes; calls 6 and 8 need it."
fn fields_ok(h: Header, u: Uses) -> bool
    ensures { result ≡ fields_ok (said h) (meant u) }
{
    let Uses(value, sub, lengths, named, may, must) = u;
    let flags = h.flags;
    let address = h.address_length;
    let size = h.size_length;
    let both = address as u32 + size as u32;
    let arguments = h.arguments as u32;
    let most = most_listens(form_in(h));
    let tests = [
        flags / 32 <= may,
        must <= flags / 32,
        flags / 16 % 2 <= named,
        h.value <= value,
        h.sub as u16 <= sub as u16 + (flags / 16 % 2) as u16 * 255,
        address <= lengths,
        size <= lengths,
        h.listens <= most,
        h.overall <= (flags / 8 % 2) as u32 * 4294967295,
        both <= arguments,
        arguments <= both + (flags / 32 % 2) as u32 * 65535,
    ];
    all(&tests)
}

// Whether every field suits the header's call.
pub fn suits(h: Header) -> bool
    ensures { result ≡ fields_ok (said h) (uses_of h.call) }
{
    fields_ok(h, uses_of(h.call))
}

// "The areas follow in that order, no gaps", in a log of n bytes.
fn areas_ok(h: Header, n: usize) -> bool
    ensures { result ≡ areas_ok (said h) n }
{
    // each read once: every read of a field brings the bounds of all eighteen into the proof
    let arguments = h.arguments;
    let arguments_at = h.arguments_at;
    let events = h.events;
    let events_at = h.events_at;
    let replies = h.replies;
    let replies_at = h.replies_at;
    let total = h.total;
    let header = header_size(h);
    let event = event_size(form_in(h));
    let tests = [
        arguments_at as usize == header,
        events_at as usize == header + arguments as usize,
        replies_at as usize == events_at as usize + events as usize * event,
        total as usize == replies_at as usize + replies as usize,
        total as usize == n,
    ];
    all(&tests)
}

// "kind 3 puts its number in length"; "an event of unknown kind has no unused field". Nothing is skipped by the kind, since what kind comes next is not foreseen.
pub fn event_ok(event: Event) -> bool
    ensures { result ≡ event_ok (entry_of event) }
{
    let kind = event.kind;
    let size = if kind == 3 { 0 } else { event.size };
    (kind == 0) | (kind > 3) | ((event.offset == 0) & (size == 0))
}

// All are asked, as in `all`.
fn events_ok(form: Form, events: &[u8]) -> bool
    ensures { result ≡ every event_ok (entries (form_of form) events.now) }
{
    let n = event_count(form, events);
    let mut passed = true;
    for i in 0..n {
        passed = passed & event_ok(event_at(form, events, i));
    }
    passed
}

// "The areas follow in that order": the events, and the replies behind them.
pub fn events_of<'a>(log: &'a [u8], h: Header) -> &'a [u8]
    ensures { result.now ≡ event_bytes (said h) log.now }
{
    let size = event_size(form_in(h));
    read_area(log, h.events_at as usize, h.events as usize * size)
}

pub fn replies_of<'a>(log: &'a [u8], h: Header) -> &'a [u8]
    ensures { result.now ≡ reply_bytes (said h) log.now }
{
    read_area(log, h.replies_at as usize, h.replies as usize)
}

// "Arguments are address, size, data."
pub fn address_of<'a>(log: &'a [u8], h: Header) -> &'a [u8]
    ensures { given result.now ≡ address_of (said h) log.now }
{
    let header = header_size(h);
    read_area(log, header, h.address_length as usize)
}

pub fn size_of<'a>(log: &'a [u8], h: Header) -> &'a [u8]
    ensures { given result.now ≡ size_of (said h) log.now }
{
    let header = header_size(h);
    read_area(
        log,
        header + h.address_length as usize,
        h.size_length as usize,
    )
}

// The argument bytes behind address and size: `data_of` of `rules` where flag 32 says that data is present.
pub fn data_of<'a>(log: &'a [u8], h: Header) -> &'a [u8]
    ensures { result.now ≡ data_bytes (said h) log.now }
{
    let header = header_size(h);
    let a = h.address_length as usize;
    let s = h.size_length as usize;
    read_area(
        log,
        header + a + s,
        (h.arguments as usize).saturating_sub(a + s),
    )
}

// Every test of the layout but that the fields suit the call.
pub fn laid_out(log: &[u8], h: Header) -> bool
    ensures { result ≡ laid_out (said h) log.now }
{
    let form = form_in(h);
    let header = header_size(h);
    let tests = [
        header <= log.len(),
        h.version == 1 || h.version == 2,
        h.call <= 15,
        areas_ok(h, log.len()),
        events_ok(form, events_of(log, h)),
    ];
    all(&tests)
}
