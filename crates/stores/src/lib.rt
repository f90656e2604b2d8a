// Little-endian numbers written to a slice of bytes.
#![tactic(auto)]

ghost use Rattle.std.specs.Prelude.{◌≡◌, ◌+◌, ◌≤◌, length};
ghost use Rattle.octets.specs.Bytes.{store};
ghost use Rattle.octets.specs.Widths.{width_bytes};

use octets::Width;

// The low N bytes of v put at a place.
pub fn store<const N: usize>(m: &mut [u8], at: usize, v: u64)
    requires at_most_eight { N ≤ 8 }
    requires in_bounds { at + N ≤ length m.old }
    ensures { m.new ≡ store N at v m.old }
{
    m[at..at + N].copy_from_slice(&v.to_le_bytes()[..N]);
}

// The low bytes of v put at a place, as many as the width has.
pub fn store_of(m: &mut [u8], at: usize, width: Width, v: u32)
    requires { at + width_bytes width ≤ length m.old }
    ensures { m.new ≡ store (width_bytes width) at v m.old }
{
    match width {
        Width::One => store::<1>(m, at, u64::from(v)),
        Width::Two => store::<2>(m, at, u64::from(v)),
        Width::Four => store::<4>(m, at, u64::from(v)),
    }
}
