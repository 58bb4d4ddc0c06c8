// What a program begins with.
ghost use Rattle.std.specs.Prelude.{◌≡◌, ◌≤◌, take};

mod read;

pub use read::read_header;

// What a program begins with: its variables, its arrays' lengths with 0 for those that it hasn't, and where its statement stands.
// The lengths stand in an array with their count, since there is no heap.
#[derive(Clone, Copy)]
pub struct Header {
    pub vars: u64,
    pub lengths: [u64; 16],
    pub arrays: u64,
    pub body: usize,
    ghost few_vars: { vars ≤ 64 },
    ghost few_arrays: { arrays ≤ 16 },
}

impl Header {
    /// The arrays' lengths.
    pub fn lengths(&self) -> &[u64]
        ensures { result.now ≡ take self.now.arrays self.now.lengths }
    {
        &self.lengths[..self.arrays as usize]
    }
}
