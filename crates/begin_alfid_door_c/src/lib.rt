// The export of `begin_alfid_door`: it hands its words on, under the same clause. A module of its own to the compiler, as `step_door_c` is.
#![tactic(auto)]

ghost use Rattle.std.specs.Prelude.{true};
ghost use Rattle.door.specs.Door.{fields};
ghost use Rattle.step_door.specs.Stepping.{BegunInNumbers};

// `bintrochis_door_begin` for what `bintrochis_door_call_alfid` takes.
#[unsafe(no_mangle)]
pub extern "C" fn bintrochis_door_begin_alfid(
    call: u8,
    flags: u8,
    value: u16,
    address: u64,
    size: u64,
    address_width: usize,
    size_width: usize,
    wide: bool,
    p2: u32,
    p2_star: u32,
    overall: u32,
    limit: u16,
    listens: u16,
    data: &[u8],
    request: &mut [u8],
    state: &mut [u64; 28],
) -> u8
    ensures { BegunInNumbers (fields call flags value 0 0 0 p2 p2_star overall true listens) limit address size address_width
        size_width wide «data».now request.old state.old result request.new
        state.new }
{
    begin_alfid_door::bintrochis_door_begin_alfid(
        call,
        flags,
        value,
        address,
        size,
        address_width,
        size_width,
        wide,
        p2,
        p2_star,
        overall,
        limit,
        listens,
        data,
        request,
        state,
    )
}
