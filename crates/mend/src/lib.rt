// Request Ten, "Mend a damaged log": the mended log is written into a lent buffer. What it is, is `mend` of `mending`.
#![tactic(auto)]

ghost use Rattle.std.specs.Prelude.{◌+◌, ◌*◌, ◌≤◌, ◌≡◌, length, take};
ghost use Rattle.rules.specs.Events.{event_size, entries};
ghost use Rattle.rules.specs.Logs.{header_size, form_in};
ghost use Rattle.wire.specs.Buffers.{with};
ghost use Rattle.exchange.specs.Meaning.{form_of, entry_of};
ghost use Rattle.logs.specs.Layout.{said};
ghost use Rattle.mending.specs.Mend.{arguments_in, events_in, left_in, goes_on, run, corrected, mended_header, mended_log, headed, argued};
ghost use Rattle.mend.specs.Answered.{Mends};
ghost use Rattle.mend.specs.Recounted.{header_of, recounted};

use exchange::events::{event_at, event_count, event_size};
use exchange::types::{Event, Form};
use logs::header::{Header, form_in, header_size};
use logs::reader::{read_area, read_header};
use logs::writer::put_header;
use wire::part;
use wire::refusal::Refusal;

// "bytes past 65,535 are not read"
const MOST_READ: usize = 65535;

// "events past the 512th are not kept"
const MOST_EVENTS: usize = 512;

// The header that was read, and the one that was written in its place: they say the events promised and kept, and each field rewritten.
#[derive(Clone, Copy)]
pub struct Report {
    pub old: Header,
    pub new: Header,
}

// Why nothing is written: a refusal, or a buffer that is shorter than the mended log.
#[derive(Clone, Copy)]
pub enum MendError {
    Refused(Refusal),
    NoRoom,
}

// "Areas are found from the counts"
fn arguments_in<'a>(log: &'a [u8], h: Header) -> &'a [u8]
    ensures { result.now ≡ arguments_in (said h) log.now }
{
    let header = header_size(h);
    read_area(log, header, h.arguments as usize)
}

fn events_in<'a>(log: &'a [u8], h: Header) -> &'a [u8]
    ensures { result.now ≡ events_in (said h) log.now }
{
    let header = header_size(h);
    let size = event_size(form_in(h));
    let arguments = h.arguments as usize;
    read_area(log, header + arguments, h.events as usize * size)
}

// "what is left of the reply area"
fn left_in<'a>(log: &'a [u8], h: Header) -> &'a [u8]
    ensures { result.now ≡ left_in (said h) log.now }
{
    let header = header_size(h);
    let size = event_size(form_in(h));
    let arguments = h.arguments as usize;
    let events = h.events as usize;
    read_area(log, header + arguments + events * size, h.replies as usize)
}

// "of known kind, with times that don't fall and with their reply bytes inside what is left"
fn goes_on(last: u32, left: usize, event: Event) -> bool
    ensures { result ≡ goes_on last left (entry_of event) }
{
    event.kind <= 3
        && event.time >= last
        && (event.kind != 0 || event.offset as usize + event.size as usize <= left)
}

// "the longest run of leading events": how many are kept.
fn kept(form: Form, events: &[u8], left: usize) -> usize
    ensures { result ≡ run 0 left (take 512 (entries (form_of form) events.now)) }
{
    let n = event_count(form, events).min(MOST_EVENTS);
    let mut last = 0;
    for i in 0..n {
        let event = event_at(form, events, i);
        if !goes_on(last, left, event) {
            return i;
        }
        last = event.time;
    }
    n
}

// "with corrected counts and offsets", which fit since the mended log is no longer than the damaged one.
fn corrected(h: Header, events: usize, replies: usize) -> Header
    requires { header_size (form_in (said h)) + h.arguments + events * event_size (form_in (said h)) + replies ≤ 65535 }
    ensures { said result ≡ corrected (said h) events replies }
{
    let arguments_at = header_size(h);
    let events_at = arguments_at + h.arguments as usize;
    let replies_at = events_at + events * event_size(form_in(h));
    Header {
        arguments_at: arguments_at as u16,
        events: events as u16,
        events_at: events_at as u16,
        replies: replies as u16,
        replies_at: replies_at as u16,
        total: (replies_at + replies) as u16,
        ..h
    }
}

pub fn recount(h: Header, events: usize, replies: usize) -> Option<Header>
    ensures { header_of result ≡ recounted (said h) events replies }
{
    if events > MOST_READ || replies > MOST_READ {
        return None;
    }
    let size = event_size(form_in(h));
    let arguments = h.arguments as usize;
    if header_size(h) + arguments + events * size + replies > MOST_READ {
        return None;
    }
    Some(corrected(h, events, replies))
}

// The header that is written in the old one's place.
fn mended_header(log: &[u8], old: Header) -> Header
    requires whole { header_size (form_in (said old)) + old.arguments ≤ length log.now }
    requires short { length log.now ≤ 65535 }
    ensures { said result ≡ mended_header (said old) log.now }
{
    let left = left_in(log, old).len();
    let events = kept(form_in(old), events_in(log, old), left);
    corrected(old, events, left)
}

// Puts the mended log at the front of `out`, which has room for it: the header, the arguments, the kept events, and what is left of the reply area.
fn put_log(out: &mut [u8], log: &[u8], old: Header, new: Header)
    requires new { said new ≡ mended_header (said old) log.now }
    requires whole { header_size (form_in (said old)) + old.arguments ≤ length log.now }
    requires room { new.total ≤ length out.old }
    ensures { out.new ≡ with out.old 0 (mended_log (said old) log.now) }
{
    let arguments_at = new.arguments_at as usize;
    let events_at = new.events_at as usize;
    let replies_at = new.replies_at as usize;
    put_header(out, 0, new);
    out[arguments_at..events_at].copy_from_slice(arguments_in(log, old));
    out[events_at..replies_at].copy_from_slice(&events_in(log, old)[..replies_at - events_at]);
    out[replies_at..new.total as usize].copy_from_slice(left_in(log, old));
}

// "18 header shorter than its version's size or of unknown version or call"
fn headed(log: &[u8], h: Header) -> bool
    ensures { result ≡ headed (said h) log.now }
{
    header_size(h) <= log.len() && matches!(h.version, 1 | 2) && h.call <= 15
}

// "19 argument bytes not whole"
fn argued(log: &[u8], h: Header) -> bool
    ensures { result ≡ argued (said h) log.now }
{
    header_size(h) + h.arguments as usize <= log.len()
}

// Writes the mended log at the front of `out`, whose rest keeps its bytes; answers how many bytes it is, and the report. "18 first; output untouched"
#[tactic(auto, unfolding(mending::specs::Mend::mend))]
pub fn mend(log: &[u8], out: &mut [u8]) -> Result<(usize, Report), MendError>
    ensures { Mends log.now out.old result out.new }
{
    let read = part(log, 0, MOST_READ);
    let old = read_header(read);
    if !headed(read, old) {
        return Err(MendError::Refused(Refusal::Header));
    }
    if !argued(read, old) {
        return Err(MendError::Refused(Refusal::Arguments));
    }
    let new = mended_header(read, old);
    if out.len() < new.total as usize {
        return Err(MendError::NoRoom);
    }
    put_log(out, read, old, new);
    Ok((new.total as usize, Report { old, new }))
}
