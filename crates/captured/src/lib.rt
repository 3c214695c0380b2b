// A whole log of a capture: header and arguments of a call, the events and the replies of a text. What it is, is `capture` of the definitions.
#![tactic(auto)]

ghost use Rattle.std.specs.Prelude.{◌*◌, ◌++◌, map, ◌≡◌, length};
ghost use Rattle.rules.specs.Events.{plain, event_size, entries};
ghost use Rattle.rules.specs.Logs.{form_in, header_of, argument_bytes};
ghost use Rattle.rules.specs.Writing.{put_header, put_entries};
ghost use Rattle.wire.specs.Buffers.{with};
ghost use Rattle.exchange.specs.Meaning.{form_of, entry_of};
ghost use Rattle.logs.specs.Layout.{said};
ghost use Rattle.captured.specs.Capture.{is_call, from};
ghost use Rattle.captured.specs.Answered.{Places, Captures};

use exchange::events::{event_at, event_count, event_size};
use exchange::types::{Event, Form};
use logs::header::{Header, form_in};
use logs::layout::{laid_out, suits};
use logs::reader::{read_area, read_header};
use logs::writer::{put_event, put_header};
use mend::recount;

// Why there is no log: the first bytes are no sound log without events, or the log would be longer than 65,535 bytes.
#[derive(Clone, Copy)]
pub enum NoCapture {
    NoCall,
    TooLong,
}

// Whether it is a log without events that `udslog` does not call bad.
#[tactic(auto, unfolding(rules::specs::Logs::layout_ok))]
pub fn is_call(call: &[u8]) -> bool
    ensures { result ≡ is_call call.now }
{
    let h = read_header(call);
    laid_out(call, h) && suits(h) && h.events == 0
}

// All events are of the one that answers: each carries the address that the call listens to.
fn sent_from(source: u16, event: Event) -> Event
    ensures { entry_of result ≡ from source (entry_of event) }
{
    Event { source, ..event }
}

// Puts the events of version 1 in a form, all from one address. They fill `out`.
fn put_events(out: &mut [u8], form: Form, source: u16, events: &[u8])
    requires { length out.old ≡ length (entries plain events.now) * event_size (form_of form) }
    ensures { out.new ≡ put_entries (form_of form) (map (from source) (entries plain events.now)) }
{
    let size = event_size(form);
    for i in 0..event_count(Form::Plain, events) {
        let event = sent_from(source, event_at(Form::Plain, events, i));
        put_event(out, i * size, form, event);
    }
}

// Puts each part where the header says.
fn put_log(out: &mut [u8; 65535], h: Header, arguments: &[u8], events: &[u8], replies: &[u8])
    requires { Places (said h) (length arguments.now) (length (entries plain events.now)) (length replies.now) }
    ensures { out.new ≡ with out.old 0
        (put_header (said h) ++ (arguments.now ++
        (put_entries (form_in (said h)) (map (from h.listens) (entries plain events.now)) ++ replies.now))) }
{
    let arguments_at = h.arguments_at as usize;
    let events_at = h.events_at as usize;
    let replies_at = h.replies_at as usize;
    put_header(out, 0, h);
    out[arguments_at..events_at].copy_from_slice(arguments);
    put_events(
        &mut out[events_at..replies_at],
        form_in(h),
        h.listens,
        events,
    );
    out[replies_at..replies_at + replies.len()].copy_from_slice(replies);
}

// Writes the log at the front of `out`, whose rest keeps its bytes, and answers how many bytes it is. The events are as version 1 has them.
// Where there is no call, or the log would be too long, nothing is written.
pub fn capture(
    call: &[u8],
    events: &[u8],
    replies: &[u8],
    out: &mut [u8; 65535],
) -> Result<usize, NoCapture>
    ensures { Captures call.now (entries plain events.now) replies.now out.old result out.new }
{
    if !is_call(call) {
        return Err(NoCapture::NoCall);
    }
    let old = read_header(call);
    let Some(new) = recount(old, event_count(Form::Plain, events), replies.len()) else {
        return Err(NoCapture::TooLong);
    };
    let arguments = read_area(call, old.arguments_at as usize, old.arguments as usize);
    put_log(out, new, arguments, events, replies);
    Ok(new.total as usize)
}
