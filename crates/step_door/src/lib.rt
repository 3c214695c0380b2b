// The door to the engine that is handed one event at a time, once it is begun: its state is twenty-eight numbers that the host keeps. A crate of the door is a module
// of its own to the compiler, which then puts all that a function calls into it, with no frame of the stack for what other doors call too.
#![tactic(auto)]

ghost use Rattle.step_door.specs.Stepping.{entry, Handed};

use exchange::types::Event;
use state_numbers::{WAITING, ask_in, asking, engine_in, told};
use wire::part;

// One event, with the request that was sent and the reply bytes lent for it. 0 where it was taken; 10, 20 or 21 where it is refused, and 1 where the state is none: then the state stays.
pub fn bintrochis_door_event(
    state: &mut [u64; 28],
    request: &[u8],
    time: u32,
    kind: u16,
    offset: u16,
    size: u16,
    source: u16,
    replies: &[u8],
) -> u8
    ensures { Handed state.old request.now (entry time kind offset size source) replies.now result state.new }
{
    let s = *state;
    if s[0] != WAITING {
        return 21;
    }
    let Some(ask) = ask_in(s) else {
        return 1;
    };
    let event = Event {
        time,
        kind,
        offset,
        size,
        source,
    };
    let address_width = (s[26] % 256) as usize;
    let size_width = (s[27] % 256) as usize;
    let address = part(request, 2, address_width);
    let size = part(request, 2 + address_width, size_width);
    match steps::event(engine_in(ask, s), address, size, event, replies) {
        Ok(engine) => {
            *state = told(engine, asking(s));
            0
        }
        Err(refusal) => u8::from(refusal),
    }
}
