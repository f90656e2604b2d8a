// An instruction as numbers: the operation's place in the paper's order, and the operands.
#![tactic(auto)]

ghost use Rattle.std.specs.Prelude.{◌≡◌};
ghost use Rattle.isa.specs.Operations.{parts, parts_of, same_parts};

use isa::{Inst, Parts, Reg};

fn build(operation: u8, rd: Reg, rs1: Reg, rs2: Reg, imm: u32) -> Parts
    ensures { result ≡ parts operation rd.number rs1.number rs2.number imm }
{
    Parts {
        operation,
        rd: rd.number(),
        rs1: rs1.number(),
        rs2: rs2.number(),
        imm,
    }
}

// The numbers of an instruction. A register that it does not have counts as x0.
pub fn parts_of(i: Inst) -> Parts
    ensures { result ≡ parts_of i }
{
    let none = Reg::ZERO;
    match i {
        Inst::Lui(rd, field) => build(0, rd, none, none, field),
        Inst::Auipc(rd, field) => build(1, rd, none, none, field),
        Inst::Jal(rd, imm) => build(2, rd, none, none, imm),
        Inst::Jalr(rd, rs1, imm) => build(3, rd, rs1, none, imm),
        Inst::Branch(o, rs1, rs2, imm) => build(o as u8, none, rs1, rs2, imm),
        Inst::Load(o, rd, rs1, imm) => build(o as u8, rd, rs1, none, imm),
        Inst::Store(o, rs1, rs2, imm) => build(o as u8, none, rs1, rs2, imm),
        Inst::Imm(o, rd, rs1, imm) => build(o as u8, rd, rs1, none, imm),
        Inst::Shift(o, rd, rs1, amount) => build(o as u8, rd, rs1, none, amount),
        Inst::Arith(o, rd, rs1, rs2) => build(o as u8, rd, rs1, rs2, 0),
        Inst::Fence(rd, rs1, field) => build(37, rd, rs1, none, field),
        Inst::Ecall => build(38, none, none, none, 0),
        Inst::Ebreak => build(39, none, none, none, 0),
        Inst::MulDiv(o, rd, rs1, rs2) => build(o as u8, rd, rs1, rs2, 0),
    }
}

// The same operation and the same operands: `==`, under the name that the definitions have.
pub fn same_parts(a: Parts, b: Parts) -> bool
    ensures { result ≡ same_parts a b }
{
    a == b
}
