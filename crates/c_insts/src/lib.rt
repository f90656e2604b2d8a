// The C interface, instructions to bits. A call returns 0, or the number of a refusal. Values come back
// through lent places, which stay as they were where the call is refused.
#![tactic(auto)]

ghost use Rattle.std.specs.Prelude.{◌≡◌};
ghost use Rattle.answers.specs.Outcomes.{outcome};
ghost use Rattle.c_insts.specs.Insts.{encode_call, shorten_call};

use answers::{Refusal, reply};
use calls::inst_in;

// The word of an instruction. Refuses with 8.
pub fn phuyurik_encode(inst: &[u32; 5], bits: &mut u32) -> u32
    ensures { outcome result bits.new ≡ encode_call inst.now bits.old }
{
    let word = inst_in(inst).and_then(encoder::encode);
    reply(word.ok_or(Refusal::Field), bits)
}

// The smallest halfword that stands for an instruction. Refuses with 8 and 9.
pub fn phuyurik_shorten(inst: &[u32; 5], bits: &mut u16) -> u32
    ensures { outcome result bits.new ≡ shorten_call inst.now bits.old }
{
    let half = inst_in(inst)
        .ok_or(Refusal::Field)
        .and_then(|i| shortener::shorten(i).map_err(Refusal::from));
    reply(half, bits)
}
