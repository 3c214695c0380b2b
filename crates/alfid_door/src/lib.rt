// The door to the `alfid` forms of calls 5, 6, 11 and 12. A module of its own to the compiler, as `step_door` is.
#![tactic(auto)]

ghost use Rattle.door.specs.Door.{fields};
ghost use Rattle.host.specs.Served.{InNumbers};

use door::{ask_for, fields, has_alfid};
use exchange::types::Timing;
use numbers::numbers;

// `bintrochis_door_call` for these forms: "address and size as 64-bit numbers, each with a width in bytes", and the
// wide setting.
pub fn bintrochis_door_call_alfid(
    call: u8,
    flags: u8,
    value: u16,
    address: u64,
    size: u64,
    address_width: usize,
    size_width: usize,
    wide: bool,
    p2: u32,
    p2_star: u32,
    overall: u32,
    limit: u16,
    addressed: bool,
    listens: u16,
    data: &[u8],
    request: &mut [u8],
    events: &[u8],
    replies: &[u8],
    answer: &mut [u64; 15],
) -> u8
    ensures { InNumbers (fields call flags value 0 0 0 p2 p2_star overall addressed listens) limit address size address_width
        size_width wide «data».now request.old events.now replies.now
        answer.old result request.new answer.new }
{
    let h = fields(
        call, flags, value, 0, 0, 0, p2, p2_star, overall, addressed, listens,
    );
    if !has_alfid(call) {
        return 1;
    }
    let Some(ask) = ask_for(h, limit, data.len()) else {
        return 1;
    };
    let session = Timing { p2, star: p2_star };
    let x = calls::run_alfid(
        session,
        ask,
        request,
        address,
        size,
        address_width,
        size_width,
        wide,
        data,
        events,
        replies,
    );
    *answer = numbers(x);
    0
}
