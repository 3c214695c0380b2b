// The store of the bench responder, read out of its one area of bytes. Any bytes can be read; `sound` says whether they are a store.
#![tactic(auto)]

ghost use Rattle.std.specs.Prelude.{◌≡◌};
ghost use Rattle.rules.specs.Bytes.{value, every};
ghost use Rattle.bench.specs.Stores.{store_of, slot_of, known, store_ok};
ghost use Rattle.stores.specs.Places.{slot_in, said, record_in, offset_of, held_in, header_ok, gapless};

use lengths::block_length;
use wire::{byte_at, part, u16_at, u32_at};

// "Identifier, 6 bytes: identifier u16, offset into the record bytes u16, length u16."
#[derive(Clone, Copy)]
struct Slot {
    id: u16,
    offset: u16,
    size: u16,
}

// The identifier numbered i, from 0.
fn slot_at(store: &[u8], i: u16) -> Slot
    ensures { said result ≡ slot_in store.now i }
{
    let at = u16_at(store, 20) as usize + i as usize * 6;
    Slot {
        id: u16_at(store, at),
        offset: u16_at(store, at + 2),
        size: u16_at(store, at + 4),
    }
}

// "the same identifier may stand twice (the first counts)"
fn find(store: &[u8], id: u16) -> Slot
    ensures { said result ≡ slot_of (store_of store.now) id }
{
    for i in 0..u16_at(store, 18) {
        let slot = slot_at(store, i);
        if slot.id == id {
            return slot;
        }
    }
    Slot {
        id,
        offset: 0,
        size: 0,
    }
}

// "A record has at least one byte and lies inside the record bytes".
fn is_known(store: &[u8], slot: Slot) -> bool
    ensures { result ≡ known (store_of store.now) (said slot) }
{
    let records = part(
        store,
        u16_at(store, 24) as usize,
        u16_at(store, 22) as usize,
    );
    slot.size >= 1 && slot.offset as usize + slot.size as usize <= records.len()
}

// Where some of the store's bytes stand, and how many.
#[derive(Clone, Copy)]
pub struct Place {
    pub at: usize,
    pub size: usize,
}

// Where an identifier's record stands in the store; or it is unknown.
pub fn record_of(store: &[u8], id: u16) -> Option<Place>
    ensures { result ≡ record_in store.now id }
{
    let slot = find(store, id);
    if !is_known(store, slot) {
        return None;
    }
    Some(Place {
        at: u16_at(store, 24) as usize + slot.offset as usize,
        size: slot.size as usize,
    })
}

// How far the address in these bytes lies behind the memory's first, if so near that a memory may reach it. "in natural numbers": nothing
// is cut, whatever the address has before its last eight bytes.
fn distance_to(address: &[u8], first: u64) -> Option<u16>
    ensures { result ≡ offset_of (value address.now) first }
{
    let (front, back) = address.split_at(address.len().saturating_sub(8));
    let high = block_length(front)?;
    let low = block_length(back)?;
    let address = u128::from(high) * 0x1_0000_0000_0000_0000 + u128::from(low);
    u16::try_from(address.checked_sub(u128::from(first))?).ok()
}

fn first_address(store: &[u8]) -> u64
    ensures { result ≡ (store_of store.now).first }
{
    u32_at(store, 10) as u64 * 0x1_0000_0000 + u32_at(store, 14) as u64
}

// Where a part of the memory stands in the store; or it is none: empty, or not inside.
pub fn memory_of(store: &[u8], address: &[u8], size: &[u8]) -> Option<Place>
    ensures { result ≡ held_in store.now (value address.now) (value size.now) }
{
    let memory = u16_at(store, 28) as usize;
    let held = part(store, memory, u16_at(store, 26) as usize).len();
    let from = distance_to(address, first_address(store))? as usize;
    let count = block_length(size)?;
    if count < 1 || from > held || count > (held - from) as u64 {
        return None;
    }
    Some(Place {
        at: memory + from,
        size: count as usize,
    })
}

fn all_known(store: &[u8]) -> bool
    ensures { result ≡ every (known (store_of store.now)) (store_of store.now).slots }
{
    (0..u16_at(store, 18)).all(|i| is_known(store, slot_at(store, i)))
}

// "Store, big-endian. Header, 36 bytes": its version, its unused byte, and where the identifiers begin.
fn has_header(store: &[u8]) -> bool
    ensures { result ≡ header_ok store.now }
{
    store.len() >= 36 && u16_at(store, 0) == 1 && byte_at(store, 9) == 0 && u16_at(store, 20) == 36
}

// "The areas follow in that order, no gaps."
fn has_no_gaps(store: &[u8]) -> bool
    ensures { result ≡ gapless store.now }
{
    let records = u16_at(store, 24) as usize;
    let memory = u16_at(store, 28) as usize;
    let faults = u16_at(store, 32) as usize;
    let total = u16_at(store, 34) as usize;
    records == 36 + u16_at(store, 18) as usize * 6
        && memory == records + u16_at(store, 22) as usize
        && faults == memory + u16_at(store, 26) as usize
        && total == faults + u16_at(store, 30) as usize * 4
        && total == store.len()
}

// "Any other layout prints the one line `badstore`".
pub fn sound(store: &[u8]) -> bool
    ensures { result ≡ store_ok store.now }
{
    has_header(store) && has_no_gaps(store) && all_known(store)
}
