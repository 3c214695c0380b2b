// Document 01, "Cutting a download", with request Two: the blocks of lent data, and their counters. What a block is, is `block` of `rules`.
#![tactic(auto)]

ghost use Rattle.std.specs.Prelude.{◌≡◌};
ghost use Rattle.rules.specs.Blocks.{block};
ghost use Rattle.wire.specs.Refusing.{numbered};
ghost use Rattle.blocks.specs.Cuts.{cut};

use wire::refusal::Refusal;

// The counter that block k of `data` is sent with, or why there is none, under the block length `n` that call 11 returned: a whole
// TransferData request, so a block carries n − 2 bytes. There is no cap: above n = 4,095 the request of a full block passes 4,095 bytes,
// and call 13 refuses it with 8.
// That block k begins before the end is k ≤ (length − 1) / (n − 2): the product may pass 64 bits.
pub fn counter(data: &[u8], n: u64, k: u64) -> Result<u8, Refusal>
    ensures { numbered result ≡ cut «data».now n k }
{
    if n < 3 {
        return Err(Refusal::BlockLength);
    }
    if data.is_empty() || k > (data.len() - 1) as u64 / (n - 2) {
        return Err(Refusal::BlockNumber);
    }
    Ok(((k % 256) as u8).wrapping_add(1))
}

// Block k, a part of the lent data: n − 2 bytes or the rest, and nothing where `counter` refuses.
#[tactic(auto, using(crate::proofs::Laws::begins))]
pub fn block<'a>(data: &'a [u8], n: u64, k: u64) -> &'a [u8]
    ensures { result.now ≡ block «data».now n k }
{
    let Ok(_) = counter(data, n, k) else {
        return &data[..0];
    };
    let carried = n - 2;
    let start = (k * carried) as usize;
    if carried < (data.len() - start) as u64 {
        let end = start + carried as usize;
        return &data[start..end];
    }
    &data[start..]
}
