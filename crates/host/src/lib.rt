// The door for C and Rust: one function for all calls on numbers and byte slices, and the number of a negative code's name. Its other functions stand in crates of their
// own, `alfid_door`, `line_door`, `begin_door`, `begin_alfid_door`, `step_door` and `tick_door`; include/bintrochis.h says all of them to C,
// and the crates `host_c`, `alfid_door_c` and so on export them.
#![tactic(auto)]

ghost use Rattle.std.specs.Prelude.{◌≡◌};
ghost use Rattle.rules.specs.Codes.{name_number};
ghost use Rattle.door.specs.Door.{fields};
ghost use Rattle.host.specs.Served.{InBytes};

use door::{ask_for, fields};
use exchange::types::Timing;
use numbers::numbers;
use wire::part;

pub mod beside;

// The numbers and flags are those of the log's header, beside them the limit of notices; `addressed` says that an event has twelve bytes, its source address last, and
// `listens` which address is listened to. `arguments` are address, size and data.
pub fn bintrochis_door_call(
    call: u8,
    flags: u8,
    value: u16,
    sub: u8,
    address_length: u8,
    size_length: u8,
    p2: u32,
    p2_star: u32,
    overall: u32,
    limit: u16,
    addressed: bool,
    listens: u16,
    arguments: &[u8],
    request: &mut [u8],
    events: &[u8],
    replies: &[u8],
    answer: &mut [u64; 15],
) -> u8
    ensures { InBytes (fields call flags value sub address_length size_length p2 p2_star overall addressed listens) limit
        arguments.now request.old events.now replies.now answer.old result
        request.new answer.new }
{
    let h = fields(
        call,
        flags,
        value,
        sub,
        address_length,
        size_length,
        p2,
        p2_star,
        overall,
        addressed,
        listens,
    );
    let Some(ask) = ask_for(h, limit, arguments.len()) else {
        return 1;
    };
    let at_size = address_length as usize;
    let at_data = at_size + size_length as usize;
    let address = part(arguments, 0, at_size);
    let size = part(arguments, at_size, size_length as usize);
    let data = part(arguments, at_data, arguments.len());
    let session = Timing { p2, star: p2_star };
    let x = sessions::in_session(session, ask, request, address, size, data, events, replies);
    *answer = numbers(x);
    0
}

// The number of a negative code's name, from 1, or 0.
pub fn bintrochis_name_number(code: u8) -> u8
    ensures { result ≡ name_number code }
{
    codes::name_number(code)
}
