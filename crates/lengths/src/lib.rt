// Numbers that a reply or a request spells in bytes, high byte first: the block length of calls 11 and 12, and the record length of call 5.
#![tactic(auto)]

ghost use Rattle.std.specs.Prelude.{◌≡◌, eqb};
ghost use Rattle.rules.specs.Bytes.{value};
ghost use Rattle.lengths.specs.Numbers.{number_of};

// "value above 2^64 − 1, overflow": that is so where seven bytes are full and one is still to come, and leading zeros never do it.
pub fn block_length(bytes: &[u8]) -> Option<u64>
    ensures { result ≡ number_of (value bytes.now) }
{
    let mut v: u64 = 0;
    for &b in bytes {
        v = v.checked_mul(256)? + u64::from(b);
    }
    Some(v)
}

// "M is the value of the size bytes", and all of them count: from the last byte backwards, done as soon as one decides.
pub fn record_length_is(size: &[u8], length: usize) -> bool
    ensures { result ≡ eqb length (value size.now) }
{
    let mut left = length;
    for &b in size.iter().rev() {
        if left % 256 != usize::from(b) {
            return false;
        }
        left /= 256;
    }
    left == 0
}
