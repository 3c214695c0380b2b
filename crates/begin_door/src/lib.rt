// The door to the engine that is handed one event at a time: a call is begun. A module of its own to the compiler, as `step_door` is.
#![tactic(auto)]

ghost use Rattle.std.specs.Prelude.{true};
ghost use Rattle.door.specs.Door.{fields};
ghost use Rattle.step_door.specs.Stepping.{BegunInBytes};

use door::{ask_for, fields};
use exchange::types::Timing;
use state_numbers::told;
use wire::part;

// Begins a call: the numbers, flags and arguments are those of `bintrochis_door_call`. 0 and a state; or 1, and nothing is touched.
pub fn bintrochis_door_begin(
    call: u8,
    flags: u8,
    value: u16,
    sub: u8,
    address_length: u8,
    size_length: u8,
    p2: u32,
    p2_star: u32,
    overall: u32,
    limit: u16,
    listens: u16,
    arguments: &[u8],
    request: &mut [u8],
    state: &mut [u64; 28],
) -> u8
    ensures { BegunInBytes (fields call flags value sub address_length size_length p2 p2_star overall true listens) limit
        arguments.now request.old state.old result request.new state.new }
{
    let h = fields(
        call,
        flags,
        value,
        sub,
        address_length,
        size_length,
        p2,
        p2_star,
        overall,
        true,
        listens,
    );
    let Some(ask) = ask_for(h, limit, arguments.len()) else {
        return 1;
    };
    let at_size = address_length as usize;
    let at_data = at_size + size_length as usize;
    let address = part(arguments, 0, at_size);
    let size = part(arguments, at_size, size_length as usize);
    let data = part(arguments, at_data, arguments.len());
    let session = Timing { p2, star: p2_star };
    let engine = steps::begin(session, ask, request, address, size, data);
    *state = told(
        engine,
        [
            call as u64,
            flags as u64,
            value as u64,
            sub as u64,
            overall as u64,
            limit as u64,
            listens as u64,
            address_length as u64,
            size_length as u64,
        ],
    );
    0
}
