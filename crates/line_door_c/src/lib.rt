// The export of `line_door`: it hands its words on, under the same clause. A module of its own to the compiler, as `step_door_c` is.
#![tactic(auto)]

ghost use Rattle.line_door.specs.Lined.{Lined};

// The line that `udslog` prints of a log, at the front of `line`: how long it is, its newline included. 0 where there is no room, and nothing is
// touched.
#[unsafe(no_mangle)]
pub extern "C" fn bintrochis_door_line(log: &[u8], line: &mut [u8]) -> usize
    ensures { Lined log.now line.old result line.new }
{
    line_door::bintrochis_door_line(log, line)
}
