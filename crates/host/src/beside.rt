// What a host needs beside a call: the door's version, the blocks of a download, the faults that a mask selects, and the reply of a controller on the bench.
ghost use Rattle.std.specs.Prelude.{◌≡◌, length};
ghost use Rattle.rules.specs.Faults.{select};
ghost use Rattle.faults.specs.Found.{found_of};
ghost use Rattle.host.specs.Beside.{Blocked, place_in, Replies};

// The version of the door, of which include/bintrochis.h has the same number: 200 is 0.2.0.
pub fn bintrochis_version() -> u32
    ensures { result ≡ 200 }
{
    200
}

// Block k of `data` under the block length that call 11 returned: 0, and its counter, where it begins and how long it is; or refusal 11 or 12, and nothing is touched.
#[tactic(auto, using(blocks::proofs::Laws::begins))]
pub fn bintrochis_door_block(data: &[u8], block_length: u64, k: u64, block: &mut [u64; 3]) -> u8
    ensures { Blocked «data».now block_length k block.old result block.new }
{
    match blocks::counter(data, block_length, k) {
        Err(refusal) => u8::from(refusal),
        Ok(counter) => {
            let at = k * (block_length - 2);
            let carried = blocks::block(data, block_length, k).len();
            *block = [counter as u64, at, carried as u64];
            0
        }
    }
}

// How many of the records that call 15 lists share a bit with the mask.
pub fn bintrochis_door_faults(mask: u8, records: &[u8]) -> usize
    ensures { result ≡ length (select mask records.now) }
{
    faults::count(mask, records)
}

// Where the k-th of them (from 0) begins, or the largest number.
pub fn bintrochis_door_fault(mask: u8, records: &[u8], k: usize) -> usize
    ensures { result ≡ place_in (found_of (select mask records.now) k) }
{
    faults::selected(mask, records, k).unwrap_or(usize::MAX)
}

// The reply of a controller on the bench to a request: 0, and how long the reply is that stands at the front of `reply`, which is 0 for silence; or
// refusal 13, and nothing is touched. A write changes the store.
pub fn bintrochis_door_respond(
    store: &mut [u8],
    request: &[u8],
    reply: &mut [u8],
    size: &mut [u64; 1],
) -> u8
    ensures { Replies store.old request.now reply.old size.old result store.new reply.new size.new }
{
    match responder::respond(store, request, reply) {
        Ok(replied) => {
            *size = [replied.unwrap_or(0) as u64];
            0
        }
        Err(refusal) => u8::from(refusal),
    }
}
