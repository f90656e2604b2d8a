// The C interface, bits to instructions. A call returns 0, or the number of a refusal. Values come back through
// lent places, which stay as they were where the call is refused.
#![tactic(auto)]

ghost use Rattle.std.specs.Prelude.{◌≡◌};
ghost use Rattle.answers.specs.Outcomes.{outcome};
ghost use Rattle.c_codes.specs.Codes.{version, chart_call, decode_call, expand_call};

use answers::{Refusal, reply};
use calls::numbers_of;

const VERSION: u32 = 0x000700;

// The version of this interface.
pub fn phuyurik_version() -> u32
    ensures { result ≡ version }
{
    VERSION
}

// The class of 32 bits in the chart. Never refuses.
pub fn phuyurik_chart(bits: u32, format: &mut u8) -> u32
    ensures { outcome result format.new ≡ chart_call bits format.old }
{
    *format = chart::chart(bits);
    0
}

// What 32 bits mean. Refuses with 7.
pub fn phuyurik_decode(bits: u32, inst: &mut [u32; 5]) -> u32
    ensures { outcome result inst.new ≡ decode_call bits inst.old }
{
    let numbers = decoder::decode(bits).map(numbers_of);
    reply(numbers.ok_or(Refusal::NoInstruction), inst)
}

// What 16 bits mean. Refuses with 7.
pub fn phuyurik_expand(bits: u16, inst: &mut [u32; 5]) -> u32
    ensures { outcome result inst.new ≡ expand_call bits inst.old }
{
    let numbers = expander::expand(bits).map(numbers_of);
    reply(numbers.ok_or(Refusal::NoInstruction), inst)
}
