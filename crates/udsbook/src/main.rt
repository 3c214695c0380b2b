// A book of logs: an empty one, one with a log more, a log of it, and its summary as text. A read or a write that fails ends it with an error.
#![tactic(auto)]

ghost use Rattle.std.specs.Prelude.{◌≤◌, [], ◌≡◌, ◌==◌, if◌then◌else◌, length, take, Some};
ghost use Rattle.std.specs.Option.{unwrap_or};
ghost use Rattle.book_words.specs.declared.Command.TheVariants as command;
ghost use Rattle.bookkeeping.specs.Said.{refusal as refusal_text};
ghost use Rattle.bookkeeping.specs.Layout.{book_of};
ghost use Rattle.book_text.specs.Texts.{usage};
ghost use Rattle.wire.specs.Refusing.{refusal_number};
ghost use Rattle.udsbook.specs.Streams.{Answers};

use book::summary::{COUNTERS, summarize};
use book::{BookError, add, begin, find};
use book_text::{LONGEST, SHORT, put_added, put_refusal, put_summary, put_usage};
use book_words::{Command, command_of};
use std::env::Env;
use std::io;
use std::io::Read;
use streams::{arg, arg_count, open, read_full, write_full};
use wire::part;
use wire::refusal::Refusal;

// What is for standard output and what is for standard error.
#[derive(Clone, Copy)]
struct Ends<'a> {
    out: &'a [u8],
    said: &'a [u8],
}

// What was put at the buffer's front, nothing where there was no room.
fn put<'a>(text: &'a [u8], len: Option<usize>) -> &'a [u8]
    ensures { result.now ≡ take (unwrap_or len 0) text.now }
{
    part(text, 0, len.unwrap_or(0))
}

// The empty book.
fn empty<'a>(book: &'a mut [u8]) -> &'a [u8]
    requires { 20 ≤ length book.old }
    ensures { result.now ≡ book_of [] }
{
    let len = begin(book);
    put(book, len)
}

// How the program is used.
fn usage<'a>(said: &'a mut [u8]) -> &'a [u8]
    requires { 64 ≤ length said.old }
    ensures { result.now ≡ usage }
{
    let words = put_usage(said);
    put(said, words)
}

// "refused N"
fn refused<'a>(said: &'a mut [u8], refusal: Refusal) -> &'a [u8]
    requires { 200 ≤ length said.old }
    ensures { result.now ≡ refusal_text (refusal_number refusal) }
{
    let words = put_refusal(said, u8::from(refusal));
    put(said, words)
}

// "Where refused with 22 or 23 that is the old book, byte for byte; with 25 nothing": so many of its bytes.
fn kept(refusal: Refusal, n: usize) -> usize
    ensures { result ≡ (if refusal_number refusal == 25 then 0 else n) }
{
    match refusal {
        Refusal::NoBook => 0,
        _ => n,
    }
}

// "standard output is the book afterwards"
fn add_log<'a>(
    book: &'a mut [u8],
    n: usize,
    log: &[u8],
    summary: &mut [u16],
    said: &'a mut [u8],
) -> Ends<'a>
    requires { (65536 ≤ length book.old) × (length summary.old ≡ 4176) × (200 ≤ length said.old) }
    ensures { Answers (Some command.Add) (take n book.old) log.now result }
{
    // of what is no book, `add` says the same
    let _ = summarize(part(book, 0, n), summary);
    match add(book, n, log, summary) {
        Ok((m, entry)) => {
            let words = put_added(said, entry, summary);
            Ends {
                out: part(book, 0, m),
                said: put(said, words),
            }
        }
        Err(BookError::Refused(refusal)) => Ends {
            out: part(book, 0, kept(refusal, n)),
            said: refused(said, refusal),
        },
        Err(BookError::NoRoom) => Ends {
            out: &[],
            said: &[],
        },
    }
}

fn find_log<'a>(book: &'a [u8], n: usize, call: u64, k: u64, said: &'a mut [u8]) -> Ends<'a>
    requires { 200 ≤ length said.old }
    ensures { Answers (Some (command.Find call k)) (take n book.now) [] result }
{
    match find(part(book, 0, n), call, k) {
        Ok(place) => Ends {
            out: part(book, place.at, place.len),
            said: &[],
        },
        Err(refusal) => Ends {
            out: &[],
            said: refused(said, refusal),
        },
    }
}

// The text takes the place of the book.
fn sum_up<'a>(book: &'a mut [u8], n: usize, summary: &mut [u16], said: &'a mut [u8]) -> Ends<'a>
    requires { (100224 ≤ length book.old) × (length summary.old ≡ 4176) × (200 ≤ length said.old) }
    ensures { Answers (Some command.Summary) (take n book.old) [] result }
{
    match summarize(part(book, 0, n), summary) {
        Ok(()) => {
            let lines = put_summary(book, summary);
            Ends {
                out: put(book, lines),
                said: &[],
            }
        }
        Err(BookError::Refused(refusal)) => Ends {
            out: &[],
            said: refused(said, refusal),
        },
        Err(BookError::NoRoom) => Ends {
            out: &[],
            said: &[],
        },
    }
}

// What a command writes to both streams, of the book that the first n bytes are and the log; None is wrong usage.
fn answer<'a>(
    command: Option<Command>,
    book: &'a mut [u8],
    n: usize,
    log: &[u8],
    summary: &mut [u16],
    said: &'a mut [u8],
) -> Ends<'a>
    requires { (100224 ≤ length book.old) × (length summary.old ≡ 4176) × (200 ≤ length said.old) }
    ensures { Answers command (take n book.old) log.now result }
{
    match command {
        Some(Command::New) => Ends {
            out: empty(book),
            said: &[],
        },
        Some(Command::Add) => add_log(book, n, log, summary, said),
        Some(Command::Find(call, k)) => find_log(book, n, call, k, said),
        Some(Command::Summary) => sum_up(book, n, summary, said),
        None => Ends {
            out: &[],
            said: usage(said),
        },
    }
}

// Only `add` has a log to read.
fn read_log<R: Read>(command: Option<Command>, input: &mut R, log: &mut [u8]) -> io::Result<usize> {
    match command {
        Some(Command::Add) => read_full(input, log),
        _ => Ok(0),
    }
}

// A book that cannot be opened has no bytes.
fn read_book<R: Read + Drop>(file: Option<R>, book: &mut [u8]) -> io::Result<usize> {
    match file {
        Some(mut file) => read_full(&mut file, book),
        None => Ok(0),
    }
}

// A word behind the program's name, empty where there is none or no room for it.
fn argument<'a, E: Env>(env: &E, k: usize, word: &'a mut [u8]) -> &'a [u8] {
    let len = arg(env, k, word);
    put(word, len)
}

fn main(rt: HostRuntime) -> io::Result<()> {
    let mut word = [0u8; 4096];
    let mut path = [0u8; 4096];
    let mut call = [0u8; 4096];
    let mut k = [0u8; 4096];
    let word = argument(&rt, 1, &mut word);
    let path = argument(&rt, 2, &mut path);
    let call = argument(&rt, 3, &mut call);
    let k = argument(&rt, 4, &mut k);
    let file = open(&rt, path).ok();
    let command = command_of(arg_count(&rt), word, file.is_some(), call, k);
    let mut book = [0u8; LONGEST];
    let n = read_book(file, &mut book)?;
    let mut log = [0u8; 65536];
    let m = read_log(command, &mut rt.stdin(), &mut log)?;
    let mut summary = [0u16; COUNTERS];
    let mut said = [0u8; SHORT];
    let ends = answer(
        command,
        &mut book,
        n,
        part(&log, 0, m),
        &mut summary,
        &mut said,
    );
    write_full(&mut rt.stdout(), ends.out)?;
    write_full(&mut rt.stderr(), ends.said)
}
