// Of a bad log the first field that is off, and what it should be, as a line that is added to a text.
#![tactic(auto)]

ghost use Rattle.std.specs.Prelude.{false, ◌++◌, map, not, ◌≡◌, ◌+◌, ◌*◌, ◌≤◌, ◌<◌, length};
ghost use Rattle.std.proofs.Math.Option.{some};
ghost use Rattle.rules.specs.Events.{event_size, entries};
ghost use Rattle.rules.specs.Lines.{ascii, decimal};
ghost use Rattle.rules.specs.Logs.{event_ok};
ghost use Rattle.exchange.specs.Meaning.{form_of, entry_of};
ghost use Rattle.logs.specs.Layout.{said};
ghost use Rattle.log_fields.specs.Fields.{entry_fields, entries_fields, first};
ghost use Rattle.log_fields.specs.Words.{should, text_of, off_line};
ghost use Rattle.off_field.specs.Numbers.{row_of, named_fields, lies, first_row, behind, file_text};
ghost use Rattle.text.specs.Written.{Adds};

use exchange::events::{event_at, event_count, event_size};
use exchange::types::{Event, Form};
use logs::header::{Header, form_in, header_size, moved_by};
use logs::layout::{Uses, event_ok, events_of, most_listens, uses_of};
use logs::reader::read_header;
use text::{append, append_decimal};

// A field: its name, where it stands, the number found there, and between which it should lie.
#[derive(Clone, Copy)]
struct Row {
    name: &'static [u8],
    at: u64,
    found: u64,
    least: u64,
    most: u64,
}

impl Row {
    fn is_off(self) -> bool
        ensures { result ≡ not (lies self) }
    {
        self.found < self.least || self.most < self.found
    }
}

fn between(name: &'static [u8], at: u64, found: u64, least: u64, most: u64) -> Row
    ensures { row_of result ≡ (name.now, at, found, least, some most) }
{
    Row {
        name,
        at,
        found,
        least,
        most,
    }
}

fn exactly(name: &'static [u8], at: u64, found: u64, n: u64) -> Row
    ensures { row_of result ≡ (name.now, at, found, n, some n) }
{
    between(name, at, found, n, n)
}

// The fields of a header, `header_fields` of `log_fields` up to T, by what its call uses. Behind the listening address all stand further in version 2.
#[tactic(auto, using(crate::proofs::Rowing::little))]
fn rows(h: Header) -> [Row; 17]
    ensures { map row_of result ≡ named_fields (said h) }
{
    let Uses(value, sub, lengths, named, may, must) = uses_of(h.call);
    let form = form_in(h);
    let moved = moved_by(form) as u64;
    let size = header_size(h) as u64;
    let both = h.address_length as u64 + h.size_length as u64;
    let events_at = size + h.arguments as u64;
    let replies_at = h.events_at as u64 + h.events as u64 * event_size(form) as u64;
    let total = h.replies_at as u64 + h.replies as u64;
    // where an area begins and where the last one ends stands in two bytes
    let left: u64 = 65535;
    let flag_16 = (h.flags / 16 % 2) as u64;
    let most_arguments = (both + (h.flags / 32 % 2) as u64 * 65535).min(left.saturating_sub(size));
    let most_events = left.saturating_sub(events_at) / event_size(form) as u64;
    let most_replies = left.saturating_sub(replies_at);
    [
        between(b"version", 0, h.version as u64, 1, 2),
        between(b"call", 2, h.call as u64, 0, 15),
        between(
            b"flags",
            3,
            h.flags as u64,
            must as u64 * 32,
            may as u64 * 32 + 31,
        ),
        between(b"flag-16", 3, flag_16, 0, named as u64),
        between(b"value", 4, h.value as u64, 0, value as u64),
        between(
            b"sub-function",
            6,
            h.sub as u64,
            0,
            sub as u64 + flag_16 * 255,
        ),
        between(
            b"address-length",
            7,
            h.address_length as u64,
            0,
            lengths as u64,
        ),
        between(b"size-length", 8, h.size_length as u64, 0, lengths as u64),
        between(
            b"listening-address",
            9,
            h.listens as u64,
            0,
            most_listens(form) as u64,
        ),
        between(
            b"arguments-count",
            10 + moved,
            h.arguments as u64,
            both,
            most_arguments,
        ),
        exactly(b"arguments-offset", 12 + moved, h.arguments_at as u64, size),
        between(b"events-count", 14 + moved, h.events as u64, 0, most_events),
        exactly(b"events-offset", 16 + moved, h.events_at as u64, events_at),
        between(
            b"replies-count",
            18 + moved,
            h.replies as u64,
            0,
            most_replies,
        ),
        exactly(
            b"replies-offset",
            20 + moved,
            h.replies_at as u64,
            replies_at,
        ),
        exactly(b"total", 22 + moved, h.total as u64, total),
        between(
            b"T",
            32 + moved,
            h.overall as u64,
            0,
            (h.flags / 8 % 2) as u64 * 4294967295,
        ),
    ]
}

// The first row that is off; None where none is.
fn first_row(rows: &[Row]) -> Option<Row>
    ensures { result ≡ first_row rows.now }
{
    for row in rows {
        if row.is_off() {
            return Some(*row);
        }
    }
    None
}

fn put_should(text: &mut [u8], at: usize, least: u64, most: u64) -> usize
    ensures { Adds (should least (some most)) text.old at result text.new }
{
    let a = append_decimal(text, at, least);
    if least == most {
        return a;
    }
    let b = append(text, a, b" to ");
    append_decimal(text, b, most)
}

// A row's name, and what stands behind it.
fn put_row(text: &mut [u8], at: usize, row: Row) -> usize
    ensures { Adds (row.name.now ++ behind row) text.old at result text.new }
{
    let a = append(text, at, row.name);
    let b = append(text, a, b" (byte ");
    let c = append_decimal(text, b, row.at);
    let d = append(text, c, b") is ");
    let e = append_decimal(text, d, row.found);
    let f = append(text, e, b" and should be ");
    let g = put_should(text, f, row.least, row.most);
    append(text, g, b".\n")
}

// Of a file's length: the least that it should be, and what stands behind that.
fn put_file(text: &mut [u8], at: usize, n: usize, least: u64, tail: &[u8]) -> usize
    ensures { Adds (file_text n least tail.now) text.old at result text.new }
{
    let a = append(text, at, b"This is no log: the file has ");
    let b = append_decimal(text, a, n as u64);
    let c = append(text, b, b" bytes and should have ");
    let d = append_decimal(text, c, least);
    append(text, d, tail)
}

// The line for an event with a field that is off: its number, and where it begins.
fn put_event(text: &mut [u8], at: usize, number: u64, begins: u64, event: Event) -> usize
    requires { (begins < 4294967296) × (event_ok (entry_of event) ≡ false) }
    ensures { Adds (text_of (first (entry_fields number begins (entry_of event)))) text.old at result text.new }
{
    let row = if event.offset != 0 {
        Row {
            name: b": offset",
            at: begins + 6,
            found: event.offset as u64,
            least: 0,
            most: 0,
        }
    } else {
        Row {
            name: b": length",
            at: begins + 8,
            found: event.size as u64,
            least: 0,
            most: 0,
        }
    };
    let a = append(text, at, b"This is no log: event ");
    let b = append_decimal(text, a, number);
    put_row(text, b, row)
}

// The line for the first event with a field that is off; the events begin at index `from` of the log.
fn put_events(text: &mut [u8], at: usize, form: Form, from: u16, events: &[u8]) -> usize
    requires { length events.now ≤ 786420 }
    ensures { Adds (text_of (first (entries_fields (form_of form) from 0 (entries (form_of form) events.now)))) text.old at result text.new }
{
    for i in 0..event_count(form, events) {
        let event = event_at(form, events, i);
        if !event_ok(event) {
            let begins = from as usize + i * event_size(form);
            return put_event(text, at, i as u64 + 1, begins as u64, event);
        }
    }
    at
}

// The line for the first field of a log that is off, added to a text from index `at` on; nothing where none is off.
pub fn put_off(text: &mut [u8], at: usize, log: &[u8]) -> usize
    ensures { Adds (off_line log.now) text.old at result text.new }
{
    let h = read_header(log);
    let size = header_size(h);
    if log.len() < size {
        return put_file(text, at, log.len(), size as u64, b" or more.\n");
    }
    match first_row(&rows(h)) {
        Some(row) => {
            let a = append(text, at, b"This is no log: ");
            put_row(text, a, row)
        }
        None if log.len() != h.total as usize => {
            put_file(text, at, log.len(), h.total as u64, b".\n")
        }
        None => put_events(text, at, form_in(h), h.events_at, events_of(log, h)),
    }
}
