// The exports of `host`: what a program in C or Rust links as `bintrochis_door_call` and its like. Each hands its words on, under the same clause.
#![tactic(auto)]

ghost use Rattle.std.specs.Prelude.{◌≡◌, length};
ghost use Rattle.rules.specs.Codes.{name_number};
ghost use Rattle.rules.specs.Faults.{select};
ghost use Rattle.door.specs.Door.{fields};
ghost use Rattle.faults.specs.Found.{found_of};
ghost use Rattle.host.specs.Served.{InBytes};
ghost use Rattle.host.specs.Beside.{Blocked, place_in, Replies};

// The numbers and flags are those of the log's header, beside them the limit of notices; `addressed` says that an event has twelve bytes, its source
// address last, and `listens` which address is listened to. `arguments` are address, size and data.
#[unsafe(no_mangle)]
pub extern "C" fn bintrochis_door_call(
    call: u8,
    flags: u8,
    value: u16,
    sub: u8,
    address_length: u8,
    size_length: u8,
    p2: u32,
    p2_star: u32,
    overall: u32,
    limit: u16,
    addressed: bool,
    listens: u16,
    arguments: &[u8],
    request: &mut [u8],
    events: &[u8],
    replies: &[u8],
    answer: &mut [u64; 15],
) -> u8
    ensures { InBytes (fields call flags value sub address_length size_length p2 p2_star overall addressed listens) limit
        arguments.now request.old events.now replies.now answer.old result
        request.new answer.new }
{
    host::bintrochis_door_call(
        call,
        flags,
        value,
        sub,
        address_length,
        size_length,
        p2,
        p2_star,
        overall,
        limit,
        addressed,
        listens,
        arguments,
        request,
        events,
        replies,
        answer,
    )
}

// The number of a negative code's name, from 1, or 0.
#[unsafe(no_mangle)]
pub extern "C" fn bintrochis_name_number(code: u8) -> u8
    ensures { result ≡ name_number code }
{
    host::bintrochis_name_number(code)
}

// The version of the door, of which include/bintrochis.h has the same number: 200 is 0.2.0.
#[unsafe(no_mangle)]
pub extern "C" fn bintrochis_version() -> u32
    ensures { result ≡ 200 }
{
    host::beside::bintrochis_version()
}

// Block k of `data` under the block length that call 11 returned: 0, and its counter, where it begins and how long it is; or refusal 11 or 12, and
// nothing is touched.
#[unsafe(no_mangle)]
pub extern "C" fn bintrochis_door_block(
    data: &[u8],
    block_length: u64,
    k: u64,
    block: &mut [u64; 3],
) -> u8
    ensures { Blocked «data».now block_length k block.old result block.new }
{
    host::beside::bintrochis_door_block(data, block_length, k, block)
}

// How many of the records that call 15 lists share a bit with the mask.
#[unsafe(no_mangle)]
pub extern "C" fn bintrochis_door_faults(mask: u8, records: &[u8]) -> usize
    ensures { result ≡ length (select mask records.now) }
{
    host::beside::bintrochis_door_faults(mask, records)
}

// Where the k-th of them (from 0) begins, or the largest number.
#[unsafe(no_mangle)]
pub extern "C" fn bintrochis_door_fault(mask: u8, records: &[u8], k: usize) -> usize
    ensures { result ≡ place_in (found_of (select mask records.now) k) }
{
    host::beside::bintrochis_door_fault(mask, records, k)
}

// The reply of a controller on the bench to a request: 0, and how long the reply is that stands at the front of `reply`, which is 0 for silence; or
// refusal 13, and nothing is touched. A write changes the store.
#[unsafe(no_mangle)]
pub extern "C" fn bintrochis_door_respond(
    store: &mut [u8],
    request: &[u8],
    reply: &mut [u8],
    size: &mut [u64; 1],
) -> u8
    ensures { Replies store.old request.now reply.old size.old result store.new reply.new size.new }
{
    host::beside::bintrochis_door_respond(store, request, reply, size)
}
