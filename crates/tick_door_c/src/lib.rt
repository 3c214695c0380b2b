// The export of `tick_door`: it hands its words on, under the same clause. A module of its own to the compiler, as `step_door_c` is.
#![tactic(auto)]

ghost use Rattle.step_door.specs.Stepping.{Ticked};

// The time since sending, in milliseconds. The answers are those of an event, 10 aside.
#[unsafe(no_mangle)]
pub extern "C" fn bintrochis_door_tick(state: &mut [u64; 28], time: u64) -> u8
    ensures { Ticked state.old time result state.new }
{
    tick_door::bintrochis_door_tick(state, time)
}
