// Reads one log from standard input and prints its line. A read or a write that fails ends it with an error.
#![tactic(auto)]

ghost use Rattle.std.specs.Prelude.{◌≤◌, ◌≡◌, IfSome, OnOk, length, take};
ghost use Rattle.std.specs.Io.KnownBytes.{Appends};
ghost use Rattle.rules.specs.Logs.{line_of};

use std::io;
use std::io::{Read, Write};
use streams::{read_full, write_full};
use text::LONGEST;
use wire::part;

// How many bytes at the buffer's front are the line of a log. There is always room.
fn line_of(log: &[u8], line: &mut [u8]) -> usize
    requires { 8222 ≤ length line.old }
    ensures { take result line.new ≡ line_of log.now }
{
    log_line::line_of(log, line).unwrap_or(0)
}

// The line of the log that is read goes to the writer.
fn print_line<R: Read, W: Write>(log: &mut R, line_to: &mut W) -> io::Result<()>
    ensures { OnOk result (IfSome (R.remaining log.old) (λ bytes.
        Appends (W.contents line_to.old) (W.contents line_to.new) (line_of (take 65536 bytes)))) }
{
    // one byte more than the longest log: input that fills it is not as long as its header says, so it is a bad log
    let mut input = [0u8; 65536];
    let n = read_full(log, &mut input)?;
    let mut line = [0u8; LONGEST];
    let m = line_of(part(&input, 0, n), &mut line);
    write_full(line_to, part(&line, 0, m))
}

fn main(rt: HostRuntime) -> io::Result<()> {
    print_line(&mut rt.stdin(), &mut rt.stdout())
}
