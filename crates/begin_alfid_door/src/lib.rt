// The door to the engine that is handed one event at a time: an `alfid` form is begun. A module of its own to the compiler, as `step_door` is.
#![tactic(auto)]

ghost use Rattle.std.specs.Prelude.{true};
ghost use Rattle.door.specs.Door.{fields};
ghost use Rattle.step_door.specs.Stepping.{BegunInNumbers};

use door::{ask_for, fields, has_alfid};
use exchange::types::Timing;
use state_numbers::told;

// `bintrochis_door_begin` for what `bintrochis_door_call_alfid` takes.
pub fn bintrochis_door_begin_alfid(
    call: u8,
    flags: u8,
    value: u16,
    address: u64,
    size: u64,
    address_width: usize,
    size_width: usize,
    wide: bool,
    p2: u32,
    p2_star: u32,
    overall: u32,
    limit: u16,
    listens: u16,
    data: &[u8],
    request: &mut [u8],
    state: &mut [u64; 28],
) -> u8
    ensures { BegunInNumbers (fields call flags value 0 0 0 p2 p2_star overall true listens) limit address size address_width
        size_width wide «data».now request.old state.old result request.new
        state.new }
{
    let h = fields(
        call, flags, value, 0, 0, 0, p2, p2_star, overall, true, listens,
    );
    if !has_alfid(call) {
        return 1;
    }
    let Some(ask) = ask_for(h, limit, data.len()) else {
        return 1;
    };
    let session = Timing { p2, star: p2_star };
    let engine = steps::begin_alfid(
        session,
        ask,
        request,
        address,
        size,
        address_width,
        size_width,
        wide,
        data,
    );
    *state = told(
        engine,
        [
            call as u64,
            flags as u64,
            value as u64,
            0,
            overall as u64,
            limit as u64,
            listens as u64,
            address_width as u64,
            size_width as u64,
        ],
    );
    0
}
