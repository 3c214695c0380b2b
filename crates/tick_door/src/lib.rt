// The door to the engine that is handed one event at a time, once it is begun: the time is told. A module of its own to the compiler, as `step_door` is.
#![tactic(auto)]

ghost use Rattle.step_door.specs.Stepping.{Ticked};

use state_numbers::{WAITING, ask_in, asking, engine_in, told};

// The time since sending, in milliseconds. The answers are those of an event, 10 aside.
pub fn bintrochis_door_tick(state: &mut [u64; 28], time: u64) -> u8
    ensures { Ticked state.old time result state.new }
{
    let s = *state;
    if s[0] != WAITING {
        return 21;
    }
    let Some(ask) = ask_in(s) else {
        return 1;
    };
    match steps::tick(engine_in(ask, s), time) {
        Ok(engine) => {
            *state = told(engine, asking(s));
            0
        }
        Err(refusal) => u8::from(refusal),
    }
}
