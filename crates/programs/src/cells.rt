// The cells of the programs, and the digest by which two of them compare cells and bytes.
ghost use Rattle.std.specs.Prelude.{◌≡◌, length, replicate};
ghost use Rattle.programs.specs.Digests.{stirred, Stirs};

// "It keeps one table of 32,768 cells, zeroed at the start."
pub fn zeroed() -> [u16; 32768]
    ensures cells { result ≡ replicate 32768 0 }
    ensures size { 32768 ≡ length result }
{
    [0; 32768]
}

// The digest of the values so far.
#[derive(Clone, Copy, Debug, PartialEq, Eq)]
pub struct Digest(u64);

impl Digest {
    // The digest of no value.
    pub fn new() -> Digest
        ensures { result.0 ≡ 0 }
    {
        Digest(0)
    }

    // One value more: 31 times the digest, plus the value, below 2^32.
    pub fn stir(&mut self, value: u64)
        ensures { self.new.0 ≡ stirred self.old.0 value }
    {
        self.0 = (self.0 % 4294967296 * 31 + value % 4294967296) % 4294967296;
    }

    // Some cells or bytes more.
    pub fn stir_all<T: Copy + Into<u64>>(&mut self, values: &[T])
        ensures { Stirs T.converts self.old.0 values.now self.new.0 }
    {
        for &value in values {
            self.stir(value.into());
        }
    }

    // Its number.
    pub fn value(self) -> u64
        ensures { result ≡ self.0 }
    {
        self.0
    }
}

// The digest of some cells or bytes alone.
pub fn digest_of<T: Copy + Into<u64>>(values: &[T]) -> u64
    ensures { Stirs T.converts 0 values.now result }
{
    let mut digest = Digest::new();
    digest.stir_all(values);
    digest.value()
}
