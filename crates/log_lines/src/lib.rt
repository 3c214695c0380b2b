// The lines of a file of logs, as it is read in parts: what has come is taken up to the last log that is whole, and its lines are written. Beside
// them stands what is to be said of the file: a length that no log has, and a log that the file ends in.
#![tactic(auto)]

ghost use Rattle.std.specs.Prelude.{◌+◌, ◌≤◌, ◌<◌, ◌≡◌, length};
ghost use Rattle.rules.specs.Logs.{line_of};
ghost use Rattle.text.specs.Written.{Put};
ghost use Rattle.log_files.specs.Said.{length_line};
ghost use Rattle.log_lines.specs.Batches.{following, Passed, Over, Steps, Batched, Rest, Cut, Ended};

use text::{LONGEST, put_counted, put_item};
use wire::u32_at;

// No log is longer: its header has two bytes for its length.
const MOST: usize = 65535;

// No line that is said of a log is longer.
pub const SAID: usize = 60;

// How much of the input was taken, how many bytes at the front of a buffer are lines, and how many bytes of a log that is too long are still
// to be passed over. Then how many logs have their line, and how many bytes at the front of another buffer are to be said.
#[derive(Clone, Copy, Default)]
pub struct Batch {
    pub left: usize,
    pub taken: usize,
    pub written: usize,
    pub logs: u64,
    pub said: usize,
}

// How many bytes at the front of two buffers are a line, and to be said.
#[derive(Clone, Copy)]
pub struct Ending {
    pub written: usize,
    pub said: usize,
}

// So many bytes as are left are passed over, or as many of them as there are.
fn passed(b: Batch, n: usize) -> Batch
    requires { b.taken ≤ n }
    ensures { Passed b.left b.taken n b.written b.logs b.said result }
{
    let over = b.left.min(n - b.taken);
    Batch {
        left: b.left - over,
        taken: b.taken + over,
        ..b
    }
}

// The number of a log behind so many logs.
fn number(logs: u64) -> u64
    ensures { result ≡ following logs }
{
    logs.saturating_add(1)
}

// A log's line behind the lines that stand already; there is room. The answer is where it ends.
fn put_line_of(log: &[u8], out: &mut [u8], at: usize) -> usize
    requires { at + 8222 ≤ length out.old }
    ensures { (Put out.old at (line_of log.now) out.new result) × (result ≤ length out.new) }
{
    at + log_line::line_of(log, &mut out[at..]).unwrap_or(0)
}

// That a log's length is none, behind what is said already; there is room. The answer is where it ends.
fn put_length(said: &mut [u8], at: usize, log: u64, size: u64) -> usize
    requires { at + 60 ≤ length said.old }
    ensures { (Put said.old at (length_line log size) said.new result) × (result ≤ length said.new) }
{
    let n = put_counted(said, at, b"length", log);
    put_item(said, n, b"", size, b"")
}

// The next log, if it is whole or too long, and there is room for its line and for what is said of it; None where nothing more is taken.
fn with_line(b: Batch, input: &[u8], out: &mut [u8], said: &mut [u8]) -> Option<Batch>
    requires { (b.taken ≤ length input.now) × (b.written ≤ length out.old) × (b.said ≤ length said.old) × Over b input.now }
    ensures { Steps b input.now out.old said.old result out.new said.new }
{
    if b.left > 0 || out.len() - b.written < LONGEST || said.len() - b.said < SAID {
        return None;
    }
    let rest = &input[b.taken..];
    if rest.len() < 4 {
        return None;
    }
    let size = u32_at(rest, 0) as usize;
    let logs = number(b.logs);
    if size > MOST {
        // no log: its line is that of any bad one
        let long = Batch {
            left: 4 + size,
            taken: b.taken,
            written: put_line_of(b"", out, b.written),
            logs,
            said: put_length(said, b.said, logs, size as u64),
        };
        return Some(passed(long, input.len()));
    }
    if size > rest.len() - 4 {
        return None;
    }
    let written = put_line_of(&rest[4..4 + size], out, b.written);
    Some(Batch {
        taken: b.taken + 4 + size,
        written,
        logs,
        ..b
    })
}

// The lines of the logs that the input holds, at the front of a buffer: as many as there is room for. So many logs have had their lines, and what
// is said of these stands at the front of another buffer.
pub fn lines(left: usize, logs: u64, input: &[u8], out: &mut [u8], said: &mut [u8]) -> Batch
    ensures { Batched left logs input.now result out.new said.new }
{
    let first = Batch {
        left,
        logs,
        ..Batch::default()
    };
    let mut b = passed(first, input.len());
    while let Some(next) = with_line(b, input, out, said) {
        b = next;
    }
    b
}

// Where the input has ended: what is left of it is a bad log, if it is anything.
fn put_rest(left: usize, n: usize, out: &mut [u8]) -> usize
    ensures { Rest left n out.old result out.new }
{
    if n <= left || out.len() < LONGEST {
        return 0;
    }
    put_line_of(b"", out, 0)
}

// And that the input has ended inside a log, if it has: inside one that is too long, which has its line, or inside the next.
fn put_cut(left: usize, logs: u64, n: usize, said: &mut [u8]) -> usize
    ensures { Cut left logs n said.old result said.new }
{
    if said.len() < SAID {
        return 0;
    }
    if n == left {
        return 0;
    }
    let log = if n < left { logs } else { number(logs) };
    put_item(said, 0, b"cut", log, b"")
}

// Where the input has ended: what is left of it is a bad log, if it is anything, and a log that it has ended in is told.
pub fn end(left: usize, logs: u64, input: &[u8], out: &mut [u8], said: &mut [u8]) -> Ending
    ensures { Ended left logs input.now out.old said.old result out.new said.new }
{
    Ending {
        written: put_rest(left, input.len(), out),
        said: put_cut(left, logs, input.len(), said),
    }
}
