// Which instructions have a word.
#![tactic(auto)]

ghost use Rattle.std.specs.Prelude.{◌≡◌, ◌&&◌, ◌≤◌, ◌<◌};
ghost use Rattle.isa.specs.Encoding.{reg_ok, signed_ok, even_ok, in_range};

use isa::{Inst, Reg};

fn reg_ok(reg: Reg) -> bool
    ensures { result ≡ reg_ok reg }
{
    reg.number() < 32
}

// Two registers, and what else is asked.
fn regs_ok(first: Reg, second: Reg, rest: bool) -> bool
    ensures { result ≡ (reg_ok first && (reg_ok second && rest)) }
{
    reg_ok(first) && reg_ok(second) && rest
}

// As a signed number imm has at most k bits: it is the sign extension of its k low bits.
fn signed_ok(imm: u32, k: u32) -> bool
    requires { (1 ≤ k) × (k < 32) }
    ensures { result ≡ signed_ok k imm }
{
    word::sign_extend(imm & ((1 << k) - 1), k) == imm
}

// The distance of a jump or a branch has no bit 0 in the word, so it is even.
fn offset_ok(imm: u32, k: u32) -> bool
    requires { (1 ≤ k) × (k < 32) }
    ensures { result ≡ (signed_ok k imm && even_ok imm) }
{
    signed_ok(imm, k) && imm % 2 == 0
}

// Whether the instruction has a word: each register is one of the 32, and each number fits its place.
#[tactic(auto, unfolding(isa::specs::Encoding::in_range))]
pub fn in_range(i: Inst) -> bool
    ensures { result ≡ in_range i }
{
    match i {
        Inst::Lui(rd, field) | Inst::Auipc(rd, field) => reg_ok(rd) && field < 0x10_0000,
        Inst::Jal(rd, imm) => reg_ok(rd) && offset_ok(imm, 21),
        Inst::Branch(_, rs1, rs2, imm) => regs_ok(rs1, rs2, offset_ok(imm, 13)),
        Inst::Jalr(first, second, imm)
        | Inst::Load(_, first, second, imm)
        | Inst::Store(_, first, second, imm)
        | Inst::Imm(_, first, second, imm) => regs_ok(first, second, signed_ok(imm, 12)),
        Inst::Shift(_, rd, rs1, amount) => regs_ok(rd, rs1, amount < 32),
        Inst::Fence(rd, rs1, field) => regs_ok(rd, rs1, field < 0x1000),
        Inst::Arith(_, rd, rs1, rs2) | Inst::MulDiv(_, rd, rs1, rs2) => {
            regs_ok(rd, rs1, reg_ok(rs2))
        }
        Inst::Ecall | Inst::Ebreak => true,
    }
}
