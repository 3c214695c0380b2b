// The export of `begin_door`: it hands its words on, under the same clause. A module of its own to the compiler, as `step_door_c` is.
#![tactic(auto)]

ghost use Rattle.std.specs.Prelude.{true};
ghost use Rattle.door.specs.Door.{fields};
ghost use Rattle.step_door.specs.Stepping.{BegunInBytes};

// Begins a call: the numbers, flags and arguments are those of `bintrochis_door_call`. 0 and a state; or 1, and nothing is touched.
#[unsafe(no_mangle)]
pub extern "C" fn bintrochis_door_begin(
    call: u8,
    flags: u8,
    value: u16,
    sub: u8,
    address_length: u8,
    size_length: u8,
    p2: u32,
    p2_star: u32,
    overall: u32,
    limit: u16,
    listens: u16,
    arguments: &[u8],
    request: &mut [u8],
    state: &mut [u64; 28],
) -> u8
    ensures { BegunInBytes (fields call flags value sub address_length size_length p2 p2_star overall true listens) limit
        arguments.now request.old state.old result request.new state.new }
{
    begin_door::bintrochis_door_begin(
        call,
        flags,
        value,
        sub,
        address_length,
        size_length,
        p2,
        p2_star,
        overall,
        limit,
        listens,
        arguments,
        request,
        state,
    )
}
