// log2uds REQUEST REPLY [CALL]: the text of `candump -L` on standard input; on standard output the request and its replies as lines, or, with CALL, a
// log without events, the log of that call with the events of the text, and the other lines on standard error. A read or a write that fails ends
// it with an error.
#![tactic(auto)]

ghost use Rattle.std.specs.Prelude.{◌+◌, ◌≤◌, true, not, ◌++◌, [], ◌≡◌, Err, IfOk, length, take};
ghost use Rattle.std.specs.Io.KnownBytes.{Consumes};
ghost use Rattle.importing.specs.Kept.{start};
ghost use Rattle.imports.specs.Held.{stream_of, settled_in, written_of};
ghost use Rattle.log2uds.specs.Streams.{is_reply, noted, shown, left_in, reported, log_shown, log_said};
ghost use Rattle.log2uds.specs.Runs.{Came, Turned, Ends, Lines, Log};

use captured::{NoCapture, capture, is_call};
use imports::{Identifiers, ImportError, Lent, REPLIES_AT, ROOM, Stream, Told};
use std::fs::File;
use std::io;
use std::io::{Read, Write};
use streams::{arg, arg_count, open, read_full, write_full};
use text::{put_counted, put_item};
use wire::refusal::Refusal;
use wire::{byte_at, part};

// With CALL, standard error has at most the lines of the text and how many `dropped` lines are left out.
const SAID_ROOM: usize = 272470;

// A refusal as a line, with the number of the text's line that it refuses, if any: how many bytes are written.
fn put_error(error: ImportError, out: &mut [u8]) -> usize
    requires { 60 ≤ length out.old }
    ensures { take result out.new ≡ shown (written_of (Err error) [] []) }
{
    match error {
        ImportError::Text(refusal) => put_item(out, 0, b"refused", u8::from(refusal) as u64, b""),
        ImportError::Line(refused) => {
            let n = put_counted(out, 0, b"refused", refused.refusal as u64);
            put_item(out, n, b"", refused.line, b"")
        }
    }
}

// The lines that stand at the front of the buffer, or the refusal, which is put there: how many bytes are written.
fn put_outcome(outcome: Result<Told, ImportError>, out: &mut [u8]) -> usize
    requires { 60 ≤ length out.old }
    ensures { take result out.new ≡ shown (written_of outcome out.old []) }
{
    match outcome {
        Ok(told) => told.lines,
        Err(error) => put_error(error, out),
    }
}

fn left_out(outcome: Result<Told, ImportError>) -> u64
    ensures { result ≡ left_in (written_of outcome [] []) }
{
    match outcome {
        Ok(told) => told.left_out,
        Err(_) => 0,
    }
}

// How many `dropped` lines are left out, as a line behind what stands there; nothing where none is.
fn put_left_out(left: u64, out: &mut [u8], at: usize) -> usize
    requires { at + 60 ≤ length out.old }
    ensures { take result out.new ≡ take at out.old ++ reported left }
{
    if left == 0 {
        return at;
    }
    put_item(out, at, b"log2uds: 'dropped' lines left out:", left, b"")
}

// Whether the line that these bytes begin with is a reply's.
fn is_reply(line: &[u8]) -> bool
    ensures { result ≡ is_reply line.now }
{
    byte_at(line, 2) == b'p'
}

// The lines but those of replies, at the buffer's front. Behind an LF another line begins.
fn put_notes(lines: &[u8], out: &mut [u8]) -> usize
    requires { length lines.now ≤ length out.old }
    ensures { (take result out.new ≡ noted lines.now) × (result ≤ length lines.now) }
{
    let mut keep = !is_reply(lines);
    let mut n = 0;
    for (i, &c) in lines.iter().enumerate() {
        if keep {
            out[n] = c;
            n += 1;
        }
        if c == b'\n' {
            keep = !is_reply(&lines[i + 1..]);
        }
    }
    n
}

// The same, and how many `dropped` lines are left out.
fn put_said(lines: &[u8], left: u64, out: &mut [u8]) -> usize
    requires { length lines.now + 60 ≤ length out.old }
    ensures { take result out.new ≡ noted lines.now ++ reported left }
{
    let n = put_notes(lines, out);
    put_left_out(left, out, n)
}

// How many bytes at the front of two buffers are for standard output, and for standard error.
#[derive(Clone, Copy)]
struct Streams {
    out: usize,
    said: usize,
}

// The log of the call with the events of the text, for standard output, and the lines but the replies, for standard error; a refusal, for the latter.
fn put_capture(
    outcome: Result<Told, ImportError>,
    call: &[u8],
    out: &[u8],
    log: &[u8],
    whole: &mut [u8; 65535],
    said: &mut [u8],
) -> Streams
    requires { length out.now + 60 ≤ length said.old }
    ensures { (take result.out whole.new ≡ log_shown call.now (written_of outcome out.now log.now)) ×
        (take result.said said.new ≡ log_said call.now (written_of outcome out.now log.now)) }
{
    let told = match outcome {
        Ok(told) => told,
        Err(error) => {
            return Streams {
                out: 0,
                said: put_error(error, said),
            };
        }
    };
    let lines = part(out, 0, told.lines);
    let events = part(log, 0, told.events);
    let replies = part(log, REPLIES_AT, told.replies);
    match capture(call, events, replies, whole) {
        Ok(n) => Streams {
            out: n,
            said: put_said(lines, told.left_out, said),
        },
        Err(NoCapture::TooLong) => Streams {
            out: 0,
            said: put_error(ImportError::Text(Refusal::TooManyEvents), said),
        },
        Err(NoCapture::NoCall) => Streams { out: 0, said: 0 },
    }
}

// How much of a text was read, and whether that is all of it.
#[derive(Clone, Copy)]
struct Reached {
    stream: Stream,
    ended: bool,
}

// One read. No Option: the end is told beside what was read, so that a read can't lose what it took.
fn read_more<R: Read>(
    text: &mut R,
    s: Stream,
    ids: Identifiers,
    lent: &mut Lent,
    out: &mut [u8],
) -> io::Result<Reached>
    ensures { IfOk result (λ r. (t : Turned (length out.old) ids.ask ids.answer (stream_of s lent.old out.old)
        (stream_of r.stream lent.new out.new) r.ended) ×
        Consumes (R.remaining text.old) (R.remaining text.new) t.came.text) }
{
    let mut chunk = [0u8; 65536];
    let n = read_full(text, &mut chunk)?;
    Ok(Reached {
        stream: imports::read_on(s, part(&chunk, 0, n), ids, lent, out),
        ended: n == 0,
    })
}

// All of the text, or so much of it that nothing behind it changes what comes of it. A proved loop has to end, and nothing says that the input does:
// it ends behind so many turns as no run uses up, which counts as the end of the text.
fn read_text<R: Read>(
    text: &mut R,
    ids: Identifiers,
    lent: &mut Lent,
    out: &mut [u8],
) -> io::Result<Reached>
    ensures came { IfOk result (λ r. (c : Came (length out.old) ids.ask ids.answer start (stream_of r.stream lent.new out.new)) ×
        Consumes (R.remaining text.old) (R.remaining text.new) c.text) }
    ensures stops { IfOk result (λ r. r.ended ≡ not (settled_in r.stream)) }
{
    let mut stream = imports::begin();
    for _ in 0..u64::MAX {
        let reached = read_more(text, stream, ids, lent, out)?;
        stream = reached.stream;
        let settled = imports::settled(stream);
        if settled {
            return Ok(Reached {
                stream,
                ended: false,
            });
        }
        if reached.ended {
            break;
        }
    }
    Ok(Reached {
        stream,
        ended: true,
    })
}

// What comes of a text, and whether it was read to its end.
#[derive(Clone, Copy)]
struct Whole {
    outcome: Result<Told, ImportError>,
    ended: bool,
}

fn import<R: Read>(
    text: &mut R,
    ids: Identifiers,
    lent: &mut Lent,
    out: &mut [u8],
) -> io::Result<Whole>
    ensures { IfOk result (λ whole. (e : Ends (length out.old) ids.ask ids.answer whole.ended whole.outcome out.new lent.new.log) ×
        Consumes (R.remaining text.old) (R.remaining text.new) e.text) }
{
    let reached = read_text(text, ids, lent, out)?;
    Ok(Whole {
        outcome: imports::finish(reached.stream, ids, lent, out),
        ended: reached.ended,
    })
}

// What goes to both streams, and whether the text was read to its end.
#[derive(Clone, Copy)]
struct Imported {
    streams: Streams,
    ended: bool,
}

// `log2uds REQUEST REPLY`
fn import_lines<R: Read>(
    text: &mut R,
    ids: Identifiers,
    lent: &mut Lent,
    out: &mut [u8],
    said: &mut [u8],
) -> io::Result<Imported>
    requires { (length out.old ≡ 272410) × (60 ≤ length said.old) }
    ensures { IfOk result (λ r. (l : Lines ids.ask ids.answer r.ended r.streams.out out.new r.streams.said said.new) ×
        Consumes (R.remaining text.old) (R.remaining text.new) l.text) }
{
    let whole = import(text, ids, lent, out)?;
    let streams = Streams {
        out: put_outcome(whole.outcome, out),
        said: put_left_out(left_out(whole.outcome), said, 0),
    };
    Ok(Imported {
        streams,
        ended: whole.ended,
    })
}

// `log2uds REQUEST REPLY CALL`
fn import_log<R: Read>(
    text: &mut R,
    ids: Identifiers,
    call: &[u8],
    lent: &mut Lent,
    out: &mut [u8],
    log: &mut [u8; 65535],
    said: &mut [u8],
) -> io::Result<Imported>
    requires { (length out.old ≡ 272410) × (272470 ≤ length said.old) }
    ensures { IfOk result (λ r. (l : Log ids.ask ids.answer call.now r.ended r.streams.out log.new r.streams.said said.new) ×
        Consumes (R.remaining text.old) (R.remaining text.new) l.text) }
{
    let whole = import(text, ids, lent, out)?;
    Ok(Imported {
        streams: put_capture(whole.outcome, call, out, &lent.log, log, said),
        ended: whole.ended,
    })
}

fn usage(rt: &HostRuntime) -> io::Result<()> {
    write_full(
        &mut rt.stderr(),
        b"usage: log2uds REQUEST REPLY [CALL] < TEXT, identifiers of three hex digits up to 7FF or eight up to 1FFFFFFF, and a log without events\n",
    )
}

fn run(rt: &HostRuntime, ids: Identifiers) -> io::Result<()> {
    let mut lent = Lent::NONE;
    let mut out = [0u8; ROOM];
    let mut said = [0u8; 60];
    let streams = import_lines(&mut rt.stdin(), ids, &mut lent, &mut out, &mut said)?.streams;
    write_full(&mut rt.stderr(), part(&said, 0, streams.said))?;
    write_full(&mut rt.stdout(), part(&out, 0, streams.out))
}

// A file to read, by the third word.
fn open_call(rt: &HostRuntime) -> io::Result<File> {
    let mut path = [0u8; 4096];
    let n = arg(rt, 3, &mut path).unwrap_or(0);
    open(rt, part(&path, 0, n))
}

// What that file holds, so much of it as the buffer has room for; nothing, which is no call, where it cannot be opened.
fn read_call(rt: &HostRuntime, call: &mut [u8]) -> io::Result<usize> {
    match open_call(rt) {
        Ok(mut file) => read_full(&mut file, call),
        Err(_) => Ok(0),
    }
}

fn write_log(rt: &HostRuntime, whole: &[u8; 65535], n: usize) -> io::Result<()> {
    write_full(&mut rt.stdout(), part(whole, 0, n))
}

fn run_call(rt: &HostRuntime, ids: Identifiers) -> io::Result<()> {
    // one byte more than the longest log
    let mut file = [0u8; 65536];
    let n = read_call(rt, &mut file)?;
    let call = part(&file, 0, n);
    if !is_call(call) {
        return usage(rt);
    }
    let mut lent = Lent::NONE;
    let mut out = [0u8; ROOM];
    let mut log = [0u8; 65535];
    let mut said = [0u8; SAID_ROOM];
    let streams = import_log(
        &mut rt.stdin(),
        ids,
        call,
        &mut lent,
        &mut out,
        &mut log,
        &mut said,
    )?
    .streams;
    write_full(&mut rt.stderr(), part(&said, 0, streams.said))?;
    write_log(rt, &log, streams.out)
}

fn main(rt: HostRuntime) -> io::Result<()> {
    let words = arg_count(&rt);
    if words < 3 || words > 4 {
        return usage(&rt);
    }
    let mut word = [0u8; 4096];
    let n = arg(&rt, 1, &mut word).unwrap_or(0);
    let ask = candump::identifier(part(&word, 0, n));
    let m = arg(&rt, 2, &mut word).unwrap_or(0);
    let answer = candump::identifier(part(&word, 0, m));
    let (Some(ask), Some(answer)) = (ask, answer) else {
        return usage(&rt);
    };
    let ids = Identifiers { ask, answer };
    if words == 3 {
        run(&rt, ids)
    } else {
        run_call(&rt, ids)
    }
}
