// udsbench STORE: plays the server end. Each line of standard input is a request, and each gets exactly one line, as soon as it has come.
// A read of standard input or a write that fails ends it with an error.
#![tactic(auto)]

ghost use Rattle.std.specs.Prelude.{ℕ, ◌-◌, ◌^◌, ◌<◌, ◌≤◌, ◌≡◌, List, IfOk, IfSome, OnOk, length, take};
ghost use Rattle.std.specs.Io.KnownBytes.{Appends, Consumes, IsAtEnd};
ghost use Rattle.bench.specs.Talk.{talk, output};
ghost use Rattle.udsbench.specs.Hearing.{heard, hearing, said_to, saying, spoken, bench_of, Goes};

mod kept;

use bench_line::{LONGEST, answer_line};
use kept::Kept;
use std::io;
use std::io::{Read, Write};
use streams::{arg, arg_count, open, read_full, write_full};
use wire::part;

// The line that a request line gets, at the front of `line`. There is always room.
fn line_of(store: &mut [u8], asked: &[u8], line: &mut [u8]) -> usize
    requires { 8191 ≤ length line.old }
    ensures { (take result line.new ≡ (talk store.old asked.now).text) × (store.new ≡ (talk store.old asked.now).store) }
{
    answer_line(store, asked, line).unwrap_or(0)
}

fn answer<W: Write>(store: &mut [u8], asked: &[u8], lines: &mut W) -> io::Result<()>
    ensures kept { store.new ≡ (talk store.old asked.now).store }
    ensures said { OnOk result (Appends (W.contents lines.old) (W.contents lines.new) (talk store.old asked.now).text) }
{
    let mut line = [0u8; LONGEST];
    let n = line_of(store, asked, &mut line);
    write_full(lines, part(&line, 0, n))
}

// One byte more: it ends the line, which is answered; or it is kept.
fn hear_byte<W: Write>(store: &mut [u8], byte: u8, kept: &mut Kept, lines: &mut W) -> io::Result<()>
    ensures { OnOk result ((bench_of store.new kept.new ≡ heard (bench_of store.old kept.old) byte) ×
        Appends (W.contents lines.old) (W.contents lines.new) (said_to (bench_of store.old kept.old) byte)) }
{
    if byte == b'\n' {
        answer(store, kept.line(), lines)?;
        kept.len = 0;
        return Ok(());
    }
    kept.push(byte);
    Ok(())
}

fn hear<W: Write>(store: &mut [u8], input: &[u8], kept: &mut Kept, lines: &mut W) -> io::Result<()>
    ensures { OnOk result ((bench_of store.new kept.new ≡ hearing (bench_of store.old kept.old) input.now) ×
        Appends (W.contents lines.old) (W.contents lines.new) (saying (bench_of store.old kept.old) input.now)) }
{
    for &byte in input {
        hear_byte(store, byte, kept, lines)?;
    }
    Ok(())
}

// Whether more of the input came, which is heard then.
fn read_on<R: Read, W: Write>(
    store: &mut [u8],
    kept: &mut Kept,
    requests: &mut R,
    lines: &mut W,
) -> io::Result<bool>
    ensures { IfOk result (λ came. (piece : List ℕ) × Consumes (R.remaining requests.old) (R.remaining requests.new) piece ×
        Appends (W.contents lines.old) (W.contents lines.new) (saying (bench_of store.old kept.old) piece) ×
        Goes (bench_of store.old kept.old) piece (IsAtEnd (R.remaining requests.new)) came (bench_of store.new kept.new)) }
{
    let mut input = [0u8; 4096];
    let n = requests.read(&mut input)?;
    if n == 0 {
        return Ok(false);
    }
    hear(store, &input[..n], kept, lines)?;
    Ok(true)
}

// A proved loop has to end, and nothing says that the input does: so it has a number of turns that no run uses up. The last line may lack its LF.
// What is said of the input is all that is written.
fn listen<R: Read, W: Write>(store: &mut [u8], requests: &mut R, lines: &mut W) -> io::Result<()>
    ensures { OnOk result (IfSome (R.remaining requests.old) (λ input. length input < 2 ^ 64 - 1 →
        Appends (W.contents lines.old) (W.contents lines.new) (spoken store.old input))) }
{
    let mut kept = Kept::none();
    for _ in 0..u64::MAX {
        if !read_on(store, &mut kept, requests, lines)? {
            if kept.len > 0 {
                answer(store, kept.line(), lines)?;
            }
            return Ok(());
        }
    }
    Ok(())
}

fn talk_over<R: Read, W: Write>(store: &mut [u8], requests: &mut R, lines: &mut W) -> io::Result<()>
    ensures { OnOk result (IfSome (R.remaining requests.old) (λ input. length input < 2 ^ 64 - 1 →
        Appends (W.contents lines.old) (W.contents lines.new) (output store.old input))) }
{
    if !stores::sound(store) {
        return write_full(lines, b"badstore\n");
    }
    listen(store, requests, lines)
}

// The talk over what was loaded.
fn play(rt: &HostRuntime, file: &mut [u8], loaded: Option<usize>) -> io::Result<()>
    requires { IfSome loaded (λ n. n ≤ length file.old) }
{
    match loaded {
        Some(n) => talk_over(&mut file[..n], &mut rt.stdin(), &mut rt.stdout()),
        None => usage(rt),
    }
}

fn usage(rt: &HostRuntime) -> io::Result<()> {
    write_full(&mut rt.stderr(), b"usage: udsbench STORE\n")
}

// What the file of this path holds, which is closed then.
fn load_path(rt: &HostRuntime, path: &[u8], file: &mut [u8]) -> Option<usize>
    ensures { IfSome result (λ n. n ≤ length file.old) }
{
    read_full(&mut open(rt, path).ok()?, file).ok()
}

fn main(rt: HostRuntime) -> io::Result<()> {
    let mut path = [0u8; 4096];
    // one byte more than the longest store
    let mut file = [0u8; 65536];
    match arg(&rt, 1, &mut path) {
        Some(length) if arg_count(&rt) == 2 => {
            let loaded = load_path(&rt, &path[..length], &mut file);
            play(&rt, &mut file, loaded)
        }
        _ => usage(&rt),
    }
}
