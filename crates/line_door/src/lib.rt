// The door from a log to its line: a module of its own to the compiler, as `step_door` is.
#![tactic(auto)]

ghost use Rattle.line_door.specs.Lined.{Lined};

// The line that `udslog` prints of a log, at the front of `line`: how long it is, its newline included. 0 where there is no room, and nothing is touched.
pub fn bintrochis_door_line(log: &[u8], line: &mut [u8]) -> usize
    ensures { Lined log.now line.old result line.new }
{
    log_line::line_of(log, line).unwrap_or(0)
}
