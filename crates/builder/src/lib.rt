// The builder: an instruction from five numbers, the operation's place in the paper's order and its
// operands.
#![tactic(auto)]

ghost use Rattle.std.specs.Prelude.{◌≡◌};
ghost use Rattle.isa.specs.Operations.{parts};
ghost use Rattle.word.specs.Tables.{find};
ghost use Rattle.isa.specs.declared.Inst.TheVariants.{Ecall};
ghost use Rattle.isa.specs.Building.{without, built, inst_of};

use isa::{ArithOp, Cond, ImmOp, Inst, LoadOp, MulDivOp, Parts, Reg, ShiftOp, StoreOp};
use parts::parts_of;

// The operations without an immediate, and ecall for a number that has no operation. Operations come by
// number from the C interface and from the table of lines; one match over all would pass forty lines.
fn without_immediate(operation: u8, rd: Reg, rs1: Reg, rs2: Reg) -> Inst
    ensures { result ≡ find Ecall (without rd.number rs1.number rs2.number) operation (λ i. i) }
{
    match operation {
        27 => Inst::Arith(ArithOp::Add, rd, rs1, rs2),
        28 => Inst::Arith(ArithOp::Sub, rd, rs1, rs2),
        29 => Inst::Arith(ArithOp::Sll, rd, rs1, rs2),
        30 => Inst::Arith(ArithOp::Slt, rd, rs1, rs2),
        31 => Inst::Arith(ArithOp::Sltu, rd, rs1, rs2),
        32 => Inst::Arith(ArithOp::Xor, rd, rs1, rs2),
        33 => Inst::Arith(ArithOp::Srl, rd, rs1, rs2),
        34 => Inst::Arith(ArithOp::Sra, rd, rs1, rs2),
        35 => Inst::Arith(ArithOp::Or, rd, rs1, rs2),
        36 => Inst::Arith(ArithOp::And, rd, rs1, rs2),
        38 => Inst::Ecall,
        39 => Inst::Ebreak,
        40 => Inst::MulDiv(MulDivOp::Mul, rd, rs1, rs2),
        41 => Inst::MulDiv(MulDivOp::Mulh, rd, rs1, rs2),
        42 => Inst::MulDiv(MulDivOp::Mulhsu, rd, rs1, rs2),
        43 => Inst::MulDiv(MulDivOp::Mulhu, rd, rs1, rs2),
        44 => Inst::MulDiv(MulDivOp::Div, rd, rs1, rs2),
        45 => Inst::MulDiv(MulDivOp::Divu, rd, rs1, rs2),
        46 => Inst::MulDiv(MulDivOp::Rem, rd, rs1, rs2),
        47 => Inst::MulDiv(MulDivOp::Remu, rd, rs1, rs2),
        _ => Inst::Ecall,
    }
}

// The instruction of an operation's number at these operands.
#[tactic(auto, unfolding(isa::specs::Building::built))]
pub fn built(operation: u8, rd: Reg, rs1: Reg, rs2: Reg, imm: u32) -> Inst
    ensures { result ≡ built (parts operation rd.number rs1.number rs2.number imm) }
{
    match operation {
        0 => Inst::Lui(rd, imm),
        1 => Inst::Auipc(rd, imm),
        2 => Inst::Jal(rd, imm),
        3 => Inst::Jalr(rd, rs1, imm),
        4 => Inst::Branch(Cond::Beq, rs1, rs2, imm),
        5 => Inst::Branch(Cond::Bne, rs1, rs2, imm),
        6 => Inst::Branch(Cond::Blt, rs1, rs2, imm),
        7 => Inst::Branch(Cond::Bge, rs1, rs2, imm),
        8 => Inst::Branch(Cond::Bltu, rs1, rs2, imm),
        9 => Inst::Branch(Cond::Bgeu, rs1, rs2, imm),
        10 => Inst::Load(LoadOp::Lb, rd, rs1, imm),
        11 => Inst::Load(LoadOp::Lh, rd, rs1, imm),
        12 => Inst::Load(LoadOp::Lw, rd, rs1, imm),
        13 => Inst::Load(LoadOp::Lbu, rd, rs1, imm),
        14 => Inst::Load(LoadOp::Lhu, rd, rs1, imm),
        15 => Inst::Store(StoreOp::Sb, rs1, rs2, imm),
        16 => Inst::Store(StoreOp::Sh, rs1, rs2, imm),
        17 => Inst::Store(StoreOp::Sw, rs1, rs2, imm),
        18 => Inst::Imm(ImmOp::Addi, rd, rs1, imm),
        19 => Inst::Imm(ImmOp::Slti, rd, rs1, imm),
        20 => Inst::Imm(ImmOp::Sltiu, rd, rs1, imm),
        21 => Inst::Imm(ImmOp::Xori, rd, rs1, imm),
        22 => Inst::Imm(ImmOp::Ori, rd, rs1, imm),
        23 => Inst::Imm(ImmOp::Andi, rd, rs1, imm),
        24 => Inst::Shift(ShiftOp::Slli, rd, rs1, imm),
        25 => Inst::Shift(ShiftOp::Srli, rd, rs1, imm),
        26 => Inst::Shift(ShiftOp::Srai, rd, rs1, imm),
        37 => Inst::Fence(rd, rs1, imm),
        _ => without_immediate(operation, rd, rs1, rs2),
    }
}

// The instruction that has these numbers.
pub fn inst_of(operation: u32, rd: u32, rs1: u32, rs2: u32, imm: u32) -> Option<Inst>
    ensures { result ≡ inst_of (parts operation rd rs1 rs2 imm) }
{
    if operation > 47 {
        return None;
    }
    let operation = operation as u8;
    let i = built(
        operation,
        Reg::new(rd)?,
        Reg::new(rs1)?,
        Reg::new(rs2)?,
        imm,
    );
    let given = Parts {
        operation,
        rd,
        rs1,
        rs2,
        imm,
    };
    (parts_of(i) == given).then_some(i)
}
