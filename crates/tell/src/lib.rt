// The story of a log, written into a lent buffer. What it is, is `story` of `telling`.
#![tactic(auto)]

ghost use Rattle.rules.specs.Logs.{line_of};
ghost use Rattle.telling.specs.Telling.{telling, story};
ghost use Rattle.text.specs.Written.{Adds};
ghost use Rattle.tell.specs.Told.{Tells};

use log_call::recorded_in;
use off_field::put_off;
use sound::put_sound;
use text::append;
use wire::part;

mod sound;

// A buffer of so many bytes has room for every story: 514 lines of at most 300 bytes, some lines around them, and `udslog`'s own of at most 8,222.
pub const LONGEST: usize = 163840;

// What stands before `udslog`'s line.
fn put_telling(text: &mut [u8], log: &[u8]) -> usize
    ensures { Adds (telling log.now) text.old 0 result text.new }
{
    match recorded_in(log) {
        None => put_off(text, 0, log),
        Some((h, ask)) => put_sound(text, log, h, ask),
    }
}

// "its last line is `udslog`'s line for every input"
fn put_last(text: &mut [u8], at: usize, log: &[u8]) -> usize
    ensures { Adds (line_of log.now) text.old at result text.new }
{
    let mut line = [0u8; text::LONGEST];
    let n = log_line::line_of(log, &mut line).unwrap_or(0);
    append(text, at, part(&line, 0, n))
}

// Writes the story of a log at the buffer's front, whose rest keeps its bytes.
pub fn tell(log: &[u8], text: &mut [u8]) -> Option<usize>
    ensures { Tells log.now text.old result text.new }
{
    if text.len() < LONGEST {
        return None;
    }
    let at = put_telling(text, log);
    Some(put_last(text, at, log))
}
