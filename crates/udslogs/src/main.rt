// Reads a file of logs from standard input, each after its length, and prints the line of each, in bounded memory; on standard error it says where a
// length is none that a log has, and in which log the file ends. A read or a write that fails ends it with an error.
#![tactic(auto)]

ghost use Rattle.std.specs.Prelude.{◌≡◌, ◌≤◌, ◌<◌, IfOk, OnOk, length, take};
ghost use Rattle.std.specs.Io.KnownBytes.{Appends, Consumes, IsAtEnd};
ghost use Rattle.log_lines.specs.Batches.{Waits};
ghost use Rattle.udslogs.specs.Turns.{Inside, held_of, Printed, Read, Closed};

use log_lines::{end, lines};
use std::io;
use std::io::{Read, Write};
use streams::write_full;
use wire::part;

// Where a run is: what is held of the input stands in a buffer from index `from` on, and `left` bytes of it or behind it are of a log that is
// too long. So many `logs` have their line. `waits`: nothing could be taken of what is held; `ended`: nothing more comes.
#[derive(Clone, Copy, Default)]
struct Run {
    left: usize,
    logs: u64,
    from: usize,
    held: usize,
    waits: bool,
    ended: bool,
}

// Prints the lines of the logs that are held, and what is said of these, as many as the buffers have room for.
fn print_lines<W: Write, E: Write>(
    run: Run,
    input: &[u8],
    out: &mut [u8],
    said: &mut [u8],
    lines_to: &mut W,
    errors_to: &mut E,
) -> io::Result<Run>
    requires { Inside run input.now }
    ensures { IfOk result (λ next. (p : Printed run input.now next out.new said.new) ×
        Appends (W.contents lines_to.old) (W.contents lines_to.new) (take p.batch.written out.new) ×
        Appends (E.contents errors_to.old) (E.contents errors_to.new) (take p.batch.said said.new)) }
{
    let from = run.from;
    let held = run.held;
    let b = lines(run.left, run.logs, part(input, from, held), out, said);
    write_full(lines_to, part(out, 0, b.written))?;
    write_full(errors_to, part(said, 0, b.said))?;
    Ok(Run {
        left: b.left,
        logs: b.logs,
        from: from + b.taken,
        held: held - b.taken,
        waits: b.taken == 0,
        ..run
    })
}

// Moves what is held to the buffer's front, and reads what comes behind it, into a room that is not empty.
fn read_more<R: Read>(run: Run, input: &mut [u8], file: &mut R) -> io::Result<Run>
    requires { Inside run input.old × (run.held < length input.old) }
    ensures { IfOk result (λ next. (p : Read run input.old next input.new) ×
        Consumes (R.remaining file.old) (R.remaining file.new) p.came ×
        (length p.came ≡ 0 → IsAtEnd (R.remaining file.new))) }
{
    let held = run.held;
    input.copy_within(run.from..run.from + held, 0);
    let n = file.read(&mut input[held..])?;
    Ok(Run {
        from: 0,
        held: held + n,
        waits: false,
        ended: n == 0,
        ..run
    })
}

// Prints the line of what is held where nothing more comes, and what is said of it.
fn print_end<W: Write, E: Write>(
    run: Run,
    input: &[u8],
    out: &mut [u8],
    said: &mut [u8],
    lines_to: &mut W,
    errors_to: &mut E,
) -> io::Result<()>
    requires { Waits run.left (held_of run input.now) }
    ensures { OnOk result ((c : Closed run input.now out.old said.old out.new said.new) ×
        Appends (W.contents lines_to.old) (W.contents lines_to.new) (take c.end.written out.new) ×
        Appends (E.contents errors_to.old) (E.contents errors_to.new) (take c.end.said said.new)) }
{
    let r = end(
        run.left,
        run.logs,
        part(input, run.from, run.held),
        out,
        said,
    );
    write_full(lines_to, part(out, 0, r.written))?;
    write_full(errors_to, part(said, 0, r.said))
}

// Prints the lines of a file to its end.
fn print_file<R: Read, W: Write, E: Write>(
    file: &mut R,
    lines_to: &mut W,
    errors_to: &mut E,
) -> io::Result<()> {
    // twice the longest log with its length: one that is not whole yet is moved at most once
    let mut input = [0u8; 131078];
    let mut out = [0u8; 65536];
    let mut said = [0u8; 4096];
    let mut run = Run::default();
    // as many turns as no input takes: a turn takes a log, or reads
    for _ in 0..u64::MAX {
        run = print_lines(run, &input, &mut out, &mut said, lines_to, errors_to)?;
        if run.waits {
            run = read_more(run, &mut input, file)?;
            if run.ended {
                return print_end(run, &input, &mut out, &mut said, lines_to, errors_to);
            }
        }
    }
    Ok(())
}

fn main(rt: HostRuntime) -> io::Result<()> {
    print_file(&mut rt.stdin(), &mut rt.stdout(), &mut rt.stderr())
}
