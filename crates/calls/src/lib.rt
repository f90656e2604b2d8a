// What the exports of the C interface share: an instruction is five numbers, the operation's place in
// the paper's order, rd, rs1, rs2 and the immediate.
#![tactic(auto)]

ghost use Rattle.std.specs.Prelude.{◌≡◌};
ghost use Rattle.isa.specs.Building.{inst_of};
ghost use Rattle.calls.specs.Calls.{numbers_of, parts_in};

use builder::inst_of;
use isa::Inst;
use parts::parts_of;

// The five numbers of an instruction.
pub fn numbers_of(i: Inst) -> [u32; 5]
    ensures { result ≡ numbers_of i }
{
    let p = parts_of(i);
    [u32::from(p.operation), p.rd, p.rs1, p.rs2, p.imm]
}

// The instruction that has these five numbers.
pub fn inst_in(inst: &[u32; 5]) -> Option<Inst>
    ensures { result ≡ inst_of (parts_in inst.now) }
{
    let [operation, rd, rs1, rs2, imm] = *inst;
    inst_of(operation, rd, rs1, rs2, imm)
}
