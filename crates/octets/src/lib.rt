// Little-endian numbers read from a slice of bytes.
#![tactic(auto)]

ghost use Rattle.std.specs.Prelude.{◌≡◌, ◌+◌, ◌*◌, ◌^◌, ◌<◌, ◌≤◌, length};
ghost use Rattle.octets.specs.Bytes.{load};
ghost use Rattle.octets.specs.Widths.{width_bytes};

// How wide a load or store is: a byte, a half or a word.
#[derive(Clone, Copy, PartialEq)]
pub enum Width {
    One = 1,
    Two = 2,
    Four = 4,
}

impl Width {
    pub fn bytes(self) -> usize
        ensures { result ≡ width_bytes self }
    {
        self as usize
    }
}

// The number in the N bytes from at.
pub fn load<const N: usize>(m: &[u8], at: usize) -> u64
    requires at_most_eight { N ≤ 8 }
    requires in_bounds { at + N ≤ length m.now }
    ensures value { result ≡ load N at m.now }
    ensures fits { result < 2 ^ (8 * N) }
{
    let mut bytes = [0; 8];
    bytes[..N].copy_from_slice(&m[at..at + N]);
    u64::from_le_bytes(bytes)
}
