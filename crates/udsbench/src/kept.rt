// What has come of a line.
ghost use Rattle.std.specs.Prelude.{◌≡◌, ◌≤◌, [], ◌∷◌, ◌++◌, length, take};

// So many bytes of a line are kept, one more than the longest request has: 8,190 digits, a space, 4 digits and the CR. A longer line is no request, and
// neither is what is kept of it.
pub const KEPT: usize = 8197;

#[derive(Drop)]
pub struct Kept {
    pub bytes: [u8; KEPT],
    pub len: usize,
    ghost inside: { len ≤ 8197 },
}

impl Kept {
    pub fn none() -> Kept
        ensures { result.len ≡ 0 }
    {
        Kept {
            bytes: [0; KEPT],
            len: 0,
        }
    }

    pub fn line(&self) -> &[u8]
        ensures bytes { result.now ≡ take self.now.len self.now.bytes }
        ensures long { length result.now ≡ self.now.len }
    {
        &self.bytes[..self.len]
    }

    // One byte more, if there is room for it.
    pub fn push(&mut self, byte: u8)
        ensures { take self.new.len self.new.bytes ≡ take 8197 (take self.old.len self.old.bytes ++ (byte ∷ [])) }
    {
        if self.len < KEPT {
            self.bytes[self.len] = byte;
            self.len += 1;
        }
    }
}
