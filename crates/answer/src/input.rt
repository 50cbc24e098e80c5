// Standard input, read once.
ghost use Rattle.std.specs.Prelude.{◌≡◌, length};
ghost use Rattle.io.specs.Counts.{IsPrefixLen};

// One byte more than the longest datagram, so that a longer one is seen to be too long.
const CAPACITY: usize = 32769;

// An array, and how many bytes at its front were read. No contract can say what a read does; but an input is made here alone, and only by reading.
#[derive(Clone, Copy)]
pub struct Input {
    bytes: [u8; CAPACITY],
    count: usize,
}

impl Input {
    // Reads standard input to its end, or until the array is full.
    pub fn read() -> Input
        ensures { (length result.bytes ≡ 32769) × IsPrefixLen result.count result.bytes }
    {
        let mut bytes = [0u8; CAPACITY];
        let count = io::read_full(0, &mut bytes);
        Input { bytes, count }
    }

    pub fn bytes(self) -> [u8; CAPACITY]
        ensures { result ≡ self.bytes }
    {
        self.bytes
    }

    pub fn count(self) -> usize
        ensures { result ≡ self.count }
    {
        self.count
    }
}
