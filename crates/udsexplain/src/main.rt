// Reads one log from standard input and prints its story. A read or a write that fails ends it with an error.
#![tactic(auto)]

ghost use Rattle.std.specs.Prelude.{◌≤◌, ◌≡◌, length, take};
ghost use Rattle.telling.specs.Telling.{story};

use std::io;
use streams::{read_full, write_full};
use tell::LONGEST;
use wire::part;

// Of all that was read, the first n bytes of the input: how many bytes at the buffer's front are its story. There is always room.
fn story_of(input: &[u8], n: usize, text: &mut [u8]) -> usize
    requires { 163840 ≤ length text.old }
    ensures { take result text.new ≡ story (take n input.now) }
{
    tell::tell(part(input, 0, n), text).unwrap_or(0)
}

fn main(rt: HostRuntime) -> io::Result<()> {
    // one byte more than the longest log: input that fills it is not as long as its header says, so it is a bad log
    let mut input = [0u8; 65536];
    let n = read_full(&mut rt.stdin(), &mut input)?;
    let mut text = [0u8; LONGEST];
    let m = story_of(&input, n, &mut text);
    write_full(&mut rt.stdout(), part(&text, 0, m))
}
