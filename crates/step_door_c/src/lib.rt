// The export of `step_door`: it hands its words on, under the same clause. A crate with exports is a module of its own to the compiler, which then
// puts all that a function calls into it, with no frame of the stack for what other doors call too.
#![tactic(auto)]

ghost use Rattle.step_door.specs.Stepping.{entry, Handed};

// One event, with the request that was sent and the reply bytes lent for it. 0 where it was taken; 10, 20 or 21 where it is refused, and 1 where the
// state is none: then the state stays.
#[unsafe(no_mangle)]
pub extern "C" fn bintrochis_door_event(
    state: &mut [u64; 28],
    request: &[u8],
    time: u32,
    kind: u16,
    offset: u16,
    size: u16,
    source: u16,
    replies: &[u8],
) -> u8
    ensures { Handed state.old request.now (entry time kind offset size source) replies.now result state.new }
{
    step_door::bintrochis_door_event(state, request, time, kind, offset, size, source, replies)
}
