// Numbers of a few bits in 32.
#![tactic(auto)]

ghost use Rattle.std.specs.Prelude.{◌≡◌, ◌<◌, ◌≤◌, ◌^◌};
ghost use Rattle.word.specs.Bits.{sext};

// The number x of k bits, its sign bit copied to every bit above.
pub fn sign_extend(x: u32, k: u32) -> u32
    requires { (1 ≤ k) × (k < 32) × (x < 2 ^ k) }
    ensures { result ≡ sext k x }
{
    let sign = x >> (k - 1);
    if sign == 0 { x } else { x + (0xffff_ffff << k) }
}
