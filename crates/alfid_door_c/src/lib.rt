// The export of `alfid_door`: it hands its words on, under the same clause. A module of its own to the compiler, as `step_door_c` is.
#![tactic(auto)]

ghost use Rattle.door.specs.Door.{fields};
ghost use Rattle.host.specs.Served.{InNumbers};

// `bintrochis_door_call` for these forms: "address and size as 64-bit numbers, each with a width in bytes", and the
// wide setting.
#[unsafe(no_mangle)]
pub extern "C" fn bintrochis_door_call_alfid(
    call: u8,
    flags: u8,
    value: u16,
    address: u64,
    size: u64,
    address_width: usize,
    size_width: usize,
    wide: bool,
    p2: u32,
    p2_star: u32,
    overall: u32,
    limit: u16,
    addressed: bool,
    listens: u16,
    data: &[u8],
    request: &mut [u8],
    events: &[u8],
    replies: &[u8],
    answer: &mut [u64; 15],
) -> u8
    ensures { InNumbers (fields call flags value 0 0 0 p2 p2_star overall addressed listens) limit address size address_width
        size_width wide «data».now request.old events.now replies.now
        answer.old result request.new answer.new }
{
    alfid_door::bintrochis_door_call_alfid(
        call,
        flags,
        value,
        address,
        size,
        address_width,
        size_width,
        wide,
        p2,
        p2_star,
        overall,
        limit,
        addressed,
        listens,
        data,
        request,
        events,
        replies,
        answer,
    )
}
