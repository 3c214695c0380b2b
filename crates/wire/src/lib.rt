// Bytes and numbers, high byte first: reads, copies into a lent buffer, and the two nibble types of a download.
#![tactic(auto)]

ghost use Rattle.std.specs.Prelude.{◌≡◌, ◌<◌, get_or, take, drop};
ghost use Rattle.rules.specs.Bytes.{u16_at, u32_at};
ghost use Rattle.rules.specs.Refusals.{widest};
ghost use Rattle.wire.specs.Buffers.{Copied};
ghost use Rattle.wire.specs.Memory.{memory_bytes};
ghost use Rattle.wire.specs.Refusing.{numbered};

use refusal::Refusal;

pub mod constants;
pub mod error;
pub mod refusal;
pub mod types;

// The byte at an index, 0 past the end.
pub fn byte_at(bytes: &[u8], at: usize) -> u8
    ensures { result ≡ get_or bytes.now at 0 }
{
    if at < bytes.len() { bytes[at] } else { 0 }
}

// The number of two bytes from an index on, high byte first.
pub fn u16_at(bytes: &[u8], at: usize) -> u16
    ensures { result ≡ u16_at bytes.now at }
{
    if at < bytes.len() {
        byte_at(bytes, at) as u16 * 256 + byte_at(bytes, at + 1) as u16
    } else {
        0
    }
}

// The number of four bytes.
pub fn u32_at(bytes: &[u8], at: usize) -> u32
    ensures { result ≡ u32_at bytes.now at }
{
    if at >= bytes.len() {
        return 0;
    }
    let high = u16_at(bytes, at) as u32 * 65536;
    if at + 1 >= bytes.len() {
        return high;
    }
    high + u16_at(bytes, at + 2) as u32
}

// The `len` bytes from index `at` on, or as many of them as there are.
pub fn part<'a>(bytes: &'a [u8], at: usize, len: usize) -> &'a [u8]
    ensures { result.now ≡ take len (drop at bytes.now) }
{
    if at >= bytes.len() {
        return &bytes[..0];
    }
    if len < bytes.len() - at {
        let end = at + len;
        return &bytes[at..end];
    }
    &bytes[at..]
}

// Puts `source` into `buffer` at index `at`. Where it does not fit, nothing changes and the answer is false.
pub fn copy_into(buffer: &mut [u8], at: usize, source: &[u8]) -> bool
    ensures { Copied buffer.old at source.now result buffer.new }
{
    if at > buffer.len() {
        return false;
    }
    if source.len() > buffer.len() - at {
        return false;
    }
    // no `copy_from_slice`: the pieces of a request are short, and a call of memcpy for each costs more than the loop
    for i in 0..source.len() {
        buffer[at + i] = source[i];
    }
    true
}

// A number as so many bytes, which stand at the front; behind them are zeros. An array with a length, since there is no heap.
#[derive(Clone, Copy)]
pub struct MemoryBytes {
    pub len: usize,
    pub bytes: [u8; 15],
}

// The largest width, by the wide setting.
fn widest(wide: bool) -> usize
    ensures { result ≡ widest wide }
{
    if wide { 15 } else { 8 }
}

// "sent high byte first", and "padded with zeros on the left"; refusal 6 for a width outside 1..8, or 1..15 under the wide setting, 7 for
// a value that needs more bytes.
pub fn memory_bytes(value: u64, width: usize, wide: bool) -> Result<MemoryBytes, Refusal>
    ensures { numbered result ≡ memory_bytes value width wide }
{
    if width < 1 {
        return Err(Refusal::Width);
    }
    if width > widest(wide) {
        return Err(Refusal::Width);
    }
    let mut bytes = [0u8; 15];
    let mut rest = value;
    for written in 0..width {
        bytes[width - 1 - written] = (rest % 256) as u8;
        rest = rest / 256;
    }
    if rest > 0 {
        return Err(Refusal::ValueTooWide);
    }
    Ok(MemoryBytes { len: width, bytes })
}
