// Reads a damaged log from standard input; writes the mended one to standard output, and what was mended to standard error. A read or a write
// that fails ends it with an error.
#![tactic(auto)]

ghost use Rattle.std.specs.Prelude.{◌≤◌, IfSome, OnOk, length, take};
ghost use Rattle.std.specs.Io.KnownBytes.{Appends};
ghost use Rattle.mending.specs.Mend.{mend};
ghost use Rattle.mending.specs.Said.{put, said};
ghost use Rattle.udsmend.specs.Streams.{Holds};

use mend::{MendError, mend};
use report::{LONGEST, put_refusal, put_report};
use std::io;
use std::io::{Read, Write};
use streams::{read_full, write_full};
use wire::part;

mod report;

// How many bytes at the front of each buffer are for standard output, and for standard error.
#[derive(Clone, Copy)]
struct Streams {
    out: usize,
    said: usize,
}

// Of all that was read. There is always room.
fn mend_input(read: &[u8], out: &mut [u8], said: &mut [u8]) -> Streams
    requires { (65535 ≤ length out.old) × (200 ≤ length said.old) }
    ensures { Holds read.now result out.new said.new }
{
    match mend(read, out) {
        Ok((n, report)) => Streams {
            out: n,
            said: put_report(said, report),
        },
        Err(MendError::Refused(refusal)) => Streams {
            out: 0,
            said: put_refusal(said, refusal),
        },
        Err(MendError::NoRoom) => unreachable!(),
    }
}

// The damaged log that is read goes mended to one writer, and what is said of it to the other.
fn mend_log<R: Read, W: Write, E: Write>(
    damaged: &mut R,
    mended_to: &mut W,
    report_to: &mut E,
) -> io::Result<()>
    ensures { OnOk result (IfSome (R.remaining damaged.old) (λ bytes.
        Appends (W.contents mended_to.old) (W.contents mended_to.new) (put (mend (take 65536 bytes))) ×
        Appends (E.contents report_to.old) (E.contents report_to.new) (said (mend (take 65536 bytes))))) }
{
    let mut input = [0u8; 65536];
    let n = read_full(damaged, &mut input)?;
    let mut out = [0u8; 65536];
    let mut said = [0u8; LONGEST];
    let ends = mend_input(&input[..n], &mut out, &mut said);
    write_full(mended_to, part(&out, 0, ends.out))?;
    write_full(report_to, part(&said, 0, ends.said))
}

fn main(rt: HostRuntime) -> io::Result<()> {
    mend_log(&mut rt.stdin(), &mut rt.stdout(), &mut rt.stderr())
}
