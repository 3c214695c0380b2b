// Request Eight, "Import from candump": the lines of a text, byte by byte, in bounded memory. What is kept of them is `Kept` of `importing`.
#![tactic(auto)]

ghost use Rattle.std.specs.Prelude.{◌-◌, ◌/◌, ◌≤◌, cond, [], ◌≡◌, length};
ghost use Rattle.std.proofs.Math.Option.{none};
ghost use Rattle.isotp.specs.Held.{given_of};
ghost use Rattle.candump.specs.Reading.{line_of};
ghost use Rattle.importing.specs.Import.{next};
ghost use Rattle.importing.specs.Kept.{note_drop, note_request, note_reply, note_given, fits_in, log_reply, log_given};
ghost use Rattle.importing.specs.Kept.{framed, step, bytes, lines, ended};
ghost use Rattle.imports.specs.declared.ImportError.TheVariants.{Line};
ghost use Rattle.imports.specs.Held.{start_of, message_of, tally_of, log_in, log_of, kept_of, going_of};
ghost use Rattle.imports.specs.Held.{stream_of, settled_in, Begins, Tallied, Finished};

use candump::{Found, Reader};
use exchange::types::{Event, Form};
use isotp::{Joiner, feed};
use logs::writer::put_event;
use text::put_item;
use wire::part;
use wire::refusal::Refusal;

// Of the lines at which a message was given up, so many are kept.
const MOST_DROPS: u64 = 4096;

// "more than 512 events", "a time above document 01's limit", "The reply buffer holds 65,535 bytes."
const MOST_EVENTS: u64 = 512;

const LATEST: u64 = 4294967295;

const MOST_BYTES: u64 = 65535;

// A buffer of so many bytes has room for every line that is kept (`importing/proofs/Room.suffices`): one of a request, 8,220; 4,096 of 29 at which a
// message was given up; 512 replies of 28, and twice their 65,535 bytes.
pub const ROOM: usize = 272410;

// The events for a log stand at the front of a lent buffer, ten bytes each; behind 512 of them their replies.
pub const REPLIES_AT: usize = 5120;

pub const LOG_ROOM: usize = 70655;

// What is kept of the lines: the request's time, how many events and reply bytes, how many messages were given up, whether refusal 17 is due, and
// how many bytes of text stand at the front of the lent buffer.
#[derive(Clone, Copy)]
pub struct Tally {
    pub start: Option<u64>,
    pub events: u64,
    pub bytes: u64,
    pub drops: u64,
    pub over: bool,
    pub size: usize,
}

// How far the lines were read.
#[derive(Clone, Copy)]
pub struct Import {
    pub line: u64,
    pub time: u64,
    pub asking: Option<Joiner>,
    pub answering: Option<Joiner>,
    pub tally: Tally,
}

// The line that is refused, with 14 or 16: nothing behind it is read. The refusal's number: a `Refusal` would take fewer states of whoever hands one in.
#[derive(Clone, Copy)]
pub struct RefusedLine {
    pub refusal: u8,
    pub line: u64,
}

// Why a text tells nothing: refusal 14 or 16 of a line, or 15 or 17 of all of it.
#[derive(Clone, Copy)]
pub enum ImportError {
    Line(RefusedLine),
    Text(Refusal),
}

impl From<RefusedLine> for ImportError {
    ghost from_gives = { λ line e. e ≡ Line line };

    fn from(line: RefusedLine) -> ImportError {
        ImportError::Line(line)
    }
}

// How many bytes of lines stand at the front of the buffer for lines, and how many `dropped` lines are left out of them; how many bytes of events
// and of replies stand in the buffer for a log.
#[derive(Clone, Copy)]
pub struct Told {
    pub lines: usize,
    pub left_out: u64,
    pub events: usize,
    pub replies: usize,
}

// How far a text was read: the line under way, and the lines before it, unless one of them is refused.
#[derive(Clone, Copy)]
pub struct Stream {
    pub reader: Reader,
    pub import: Result<Import, RefusedLine>,
}

// The identifiers of the request's frames and of the replies'.
#[derive(Clone, Copy)]
pub struct Identifiers {
    pub ask: u64,
    pub answer: u64,
}

// What is lent beside the buffer for lines: the bytes of the messages under way, by their identifiers, and the events for a log with their replies.
#[derive(Drop)]
pub struct Lent {
    pub asked: [u8; 4095],
    pub answered: [u8; 4095],
    pub log: [u8; LOG_ROOM],
}

impl Lent {
    pub const NONE: Lent = Lent {
        asked: [0; 4095],
        answered: [0; 4095],
        log: [0; LOG_ROOM],
    };
}

fn next(n: u64) -> u64
    ensures { result ≡ next n }
{
    n.saturating_add(1)
}

fn note_drop(t: Tally, drops: bool, line: u64, out: &mut [u8]) -> Tally
    ensures { Tallied (cond drops (note_drop (length out.old) line (tally_of t out.old)) (tally_of t out.old)) out.old result out.new }
{
    let at = t.size.min(out.len());
    if !drops {
        return Tally { size: at, ..t };
    }
    let drops = next(t.drops);
    if t.drops >= MOST_DROPS {
        return Tally {
            drops,
            size: at,
            ..t
        };
    }
    Tally {
        drops,
        size: put_item(out, at, b"dropped", line, b""),
        ..t
    }
}

fn note_request(t: Tally, line: u64, time: u64, message: &[u8], out: &mut [u8]) -> Tally
    requires { t.size ≤ length out.old }
    ensures { Tallied (note_request (length out.old) line time message.now (tally_of t out.old)) out.old result out.new }
{
    Tally {
        start: Some(time),
        size: put_item(out, t.size, b"request", line, message),
        ..t
    }
}

// Whether a reply is one too many, too late, or too long for what is left.
fn fits(t: Tally, ms: u64, message: &[u8]) -> bool
    ensures { result ≡ fits_in t.events t.bytes ms (length message.now) }
{
    t.events < MOST_EVENTS
        && ms <= LATEST
        && t.bytes <= MOST_BYTES
        && message.len() as u64 <= MOST_BYTES - t.bytes
}

fn note_reply(t: Tally, ms: u64, message: &[u8], out: &mut [u8]) -> Tally
    requires { t.size ≤ length out.old }
    ensures { Tallied (note_reply (length out.old) ms message.now (tally_of t out.old)) out.old result out.new }
{
    if !fits(t, ms, message) {
        return Tally { over: true, ..t };
    }
    Tally {
        events: t.events + 1,
        bytes: t.bytes + message.len() as u64,
        size: put_item(out, t.size, b"reply", ms, message),
        ..t
    }
}

// "milliseconds since that request, rounded down"
fn since(time: u64, start: u64) -> u64
    ensures { result ≡ (time - start) / 1000 }
{
    time.saturating_sub(start) / 1000
}

// Before the request is whole, a message of its identifier is the request; behind it, one of the other is a reply.
fn note_given(
    t: Tally,
    line: u64,
    time: u64,
    question: Option<&[u8]>,
    response: Option<&[u8]>,
    out: &mut [u8],
) -> Tally
    requires { t.size ≤ length out.old }
    ensures { Tallied
        (note_given (length out.old) (start_of t.start) line time (message_of question.entry) (message_of response.entry)
        (tally_of t out.old)) out.old result out.new }
{
    match t.start {
        None => match question {
            None => t,
            Some(message) => note_request(t, line, time, message, out),
        },
        Some(start) => match response {
            None => t,
            Some(message) => note_reply(t, since(time, start), message, out),
        },
    }
}

// A reply that fits, among the events for a log: its event behind those before it, and its bytes behind theirs.
fn log_reply(t: Tally, ms: u64, message: &[u8], log: &mut [u8; LOG_ROOM])
    ensures { log_in (note_reply 0 ms message.now (tally_of t [])) log.new ≡
        log_reply ms message.now (tally_of t []) (log_of t log.old) }
{
    if !fits(t, ms, message) {
        return;
    }
    let event = Event {
        time: ms as u32,
        kind: 0,
        offset: t.bytes as u16,
        size: message.len() as u16,
        source: 0,
    };
    put_event(log, t.events as usize * 10, Form::Plain, event);
    let at = REPLIES_AT + t.bytes as usize;
    log[at..at + message.len()].copy_from_slice(message);
}

// The same where a reply is given, behind the request.
#[tactic(auto, unfolding(importing::specs::Kept::log_given))]
fn log_given(t: Tally, time: u64, response: Option<&[u8]>, log: &mut [u8; LOG_ROOM])
    ensures { log_in (note_given 0 (start_of t.start) 0 time none (message_of response.entry) (tally_of t [])) log.new ≡
        log_given (start_of t.start) time (message_of response.entry) (tally_of t []) (log_of t log.old) }
{
    if let (Some(start), Some(message)) = (t.start, response) {
        log_reply(t, since(time, start), message, log);
    }
}

// Frames of another identifier say nothing, as a frame without data does.
fn only<'a>(mine: bool, frame: &'a [u8]) -> &'a [u8]
    ensures { result.now ≡ cond mine frame.now [] }
{
    if mine { frame } else { &frame[..0] }
}

// The message that is given, at the front of its buffer.
fn given<'a>(gives: Option<usize>, buffer: &'a [u8]) -> Option<&'a [u8]>
    ensures { message_of result ≡ given_of gives buffer.now }
{
    let n = gives?;
    Some(part(buffer, 0, n))
}

// A line that tells nothing.
fn passed(i: Import, time: u64) -> Import
    ensures { result ≡ record { line = next i.line; time = time; asking = i.asking; answering = i.answering; tally = i.tally } }
{
    Import {
        line: next(i.line),
        time,
        ..i
    }
}

// A classic data frame, heard for both identifiers.
fn framed(
    i: Import,
    time: u64,
    id: u64,
    frame: &[u8],
    ids: Identifiers,
    lent: &mut Lent,
    out: &mut [u8],
) -> Import
    ensures { kept_of result lent.new out.new ≡
        framed (length out.old) ids.ask ids.answer (kept_of i lent.old out.old) time id frame.now }
{
    let line = next(i.line);
    let asks = feed(i.asking, only(id == ids.ask, frame), &mut lent.asked);
    let answers = feed(
        i.answering,
        only(id == ids.answer, frame),
        &mut lent.answered,
    );
    let question = given(asks.gives, &lent.asked);
    let response = given(answers.gives, &lent.answered);
    log_given(i.tally, time, response, &mut lent.log);
    let noted = note_drop(i.tally, asks.drops || answers.drops, line, out);
    Import {
        line,
        time,
        asking: asks.joiner,
        answering: answers.joiner,
        tally: note_given(noted, line, time, question, response, out),
    }
}

// One line more: "14 and 16 as the lines come".
#[tactic(auto, unfolding(importing::specs::Kept::step))]
fn step(
    import: Result<Import, RefusedLine>,
    found: Found,
    frame: &[u8],
    ids: Identifiers,
    lent: &mut Lent,
    out: &mut [u8],
) -> Result<Import, RefusedLine>
    ensures { going_of result lent.new out.new ≡
        step (length out.old) ids.ask ids.answer (going_of import lent.old out.old) (line_of found frame.now) }
{
    let i = import?;
    match found {
        Found::Blank => Ok(passed(i, i.time)),
        Found::Unreadable => Err(RefusedLine {
            refusal: u8::from(Refusal::UnreadableLine),
            line: next(i.line),
        }),
        Found::Other(time) | Found::Frame(time, _, _) if time < i.time => Err(RefusedLine {
            refusal: u8::from(Refusal::TimeGoesBack),
            line: next(i.line),
        }),
        Found::Other(time) => Ok(passed(i, time)),
        Found::Frame(time, id, n) => {
            let bytes = part(frame, 0, n as usize);
            Ok(framed(i, time, id, bytes, ids, lent, out))
        }
    }
}

// A text of which nothing was read.
pub fn begin() -> Stream
    ensures { Begins result }
{
    Stream {
        reader: candump::begin(),
        import: Ok(Import {
            line: 0,
            time: 0,
            asking: isotp::idle(),
            answering: isotp::idle(),
            tally: Tally {
                start: None,
                events: 0,
                bytes: 0,
                drops: 0,
                over: false,
                size: 0,
            },
        }),
    }
}

// The line under way ends here.
fn line_ends(
    import: Result<Import, RefusedLine>,
    found: Found,
    bytes: [u8; 8],
    ids: Identifiers,
    lent: &mut Lent,
    out: &mut [u8],
) -> Result<Import, RefusedLine>
    ensures { going_of result lent.new out.new ≡
        step (length out.old) ids.ask ids.answer (going_of import lent.old out.old) (line_of found bytes) }
{
    step(import, found, &bytes, ids, lent, out)
}

// The next bytes of a text. Messages under way stand in `lent`, and so do the events for a log and their replies; the lines to be written stand at
// the front of `out`.
pub fn read_on(s: Stream, chunk: &[u8], ids: Identifiers, lent: &mut Lent, out: &mut [u8]) -> Stream
    ensures { stream_of result lent.new out.new ≡
        bytes (length out.old) ids.ask ids.answer (stream_of s lent.old out.old) chunk.now }
{
    // the reader alone goes on with a byte: a whole `Stream` handed on with each takes three times as long
    let mut reader = s.reader;
    let mut import = s.import;
    for &c in chunk {
        if c == b'\n' {
            let found = candump::ended(reader);
            import = line_ends(import, found, reader.bytes, ids, lent, out);
            reader = candump::begin();
        } else {
            reader = candump::next(reader, c);
        }
    }
    Stream { reader, import }
}

// Whether nothing that follows changes what comes of the text (`importing/proofs/Settles.settles`). Refusals 15 and 17 are never due before its end.
pub fn settled(s: Stream) -> bool
    ensures { result ≡ settled_in s }
{
    s.import.is_err() || candump::hopeless(s.reader)
}

// What stands in the buffers, and no further than their ends.
fn all_told(t: Tally, out: &[u8], log: &[u8; LOG_ROOM]) -> Told
    ensures { Finished (lines (tally_of t out.now).text (t.drops - 4096) (log_of t log.now)) (Ok result) out.now log.now }
{
    Told {
        lines: t.size.min(out.len()),
        left_out: t.drops.saturating_sub(MOST_DROPS),
        events: (t.events as usize).saturating_mul(10).min(LOG_ROOM),
        replies: (t.bytes as usize).min(LOG_ROOM - REPLIES_AT),
    }
}

// The text ends here: "14 and 16 as the lines come, then 15, then 17".
#[tactic(auto, unfolding(importing::specs::Kept::ended))]
pub fn finish(
    s: Stream,
    ids: Identifiers,
    lent: &mut Lent,
    out: &mut [u8],
) -> Result<Told, ImportError>
    ensures { Finished (ended (length out.old) ids.ask ids.answer (stream_of s lent.old out.old)) result out.new lent.new.log }
{
    let found = candump::ended(s.reader);
    let tally = line_ends(s.import, found, s.reader.bytes, ids, lent, out)?.tally;
    if tally.start.is_none() {
        return Err(ImportError::Text(Refusal::NoRequest));
    }
    if tally.over {
        return Err(ImportError::Text(Refusal::TooManyEvents));
    }
    Ok(all_told(tally, out, &lent.log))
}
