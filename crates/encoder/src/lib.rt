// The word of an instruction.
#![tactic(auto)]

ghost use Rattle.std.specs.Prelude.{◌≡◌};
ghost use Rattle.isa.specs.Encoding.{word_r, word_i, word_s, word_b, word_u, word_j, word_of, encoded};
ghost use Rattle.isa.specs.Encoding.{cond_code, load_code, store_code, imm_code, shift_code, shift_code7, arith_code, arith_code7, mul_div_code};

use isa::{ArithOp, Cond, ImmOp, Inst, LoadOp, MulDivOp, Reg, ShiftOp, StoreOp};
use ranges::in_range;

// ---- the codes of the operations: funct3, and funct7 where they have one. A table of the manual for each
// kind; a trait over the kinds would be used by no function that is generic in them.

fn cond_code(o: Cond) -> u32
    ensures { result ≡ cond_code o }
{
    match o {
        Cond::Beq => 0b000,
        Cond::Bne => 0b001,
        Cond::Blt => 0b100,
        Cond::Bge => 0b101,
        Cond::Bltu => 0b110,
        Cond::Bgeu => 0b111,
    }
}

fn load_code(o: LoadOp) -> u32
    ensures { result ≡ load_code o }
{
    match o {
        LoadOp::Lb => 0b000,
        LoadOp::Lh => 0b001,
        LoadOp::Lw => 0b010,
        LoadOp::Lbu => 0b100,
        LoadOp::Lhu => 0b101,
    }
}

fn store_code(o: StoreOp) -> u32
    ensures { result ≡ store_code o }
{
    match o {
        StoreOp::Sb => 0b000,
        StoreOp::Sh => 0b001,
        StoreOp::Sw => 0b010,
    }
}

fn imm_code(o: ImmOp) -> u32
    ensures { result ≡ imm_code o }
{
    match o {
        ImmOp::Addi => 0b000,
        ImmOp::Slti => 0b010,
        ImmOp::Sltiu => 0b011,
        ImmOp::Xori => 0b100,
        ImmOp::Ori => 0b110,
        ImmOp::Andi => 0b111,
    }
}

fn shift_code(o: ShiftOp) -> u32
    ensures { result ≡ shift_code o }
{
    match o {
        ShiftOp::Slli => 0b001,
        ShiftOp::Srli | ShiftOp::Srai => 0b101,
    }
}

fn shift_code7(o: ShiftOp) -> u32
    ensures { result ≡ shift_code7 o }
{
    match o {
        ShiftOp::Slli | ShiftOp::Srli => 0b0000000,
        ShiftOp::Srai => 0b0100000,
    }
}

fn arith_code(o: ArithOp) -> u32
    ensures { result ≡ arith_code o }
{
    match o {
        ArithOp::Add | ArithOp::Sub => 0b000,
        ArithOp::Sll => 0b001,
        ArithOp::Slt => 0b010,
        ArithOp::Sltu => 0b011,
        ArithOp::Xor => 0b100,
        ArithOp::Srl | ArithOp::Sra => 0b101,
        ArithOp::Or => 0b110,
        ArithOp::And => 0b111,
    }
}

fn arith_code7(o: ArithOp) -> u32
    ensures { result ≡ arith_code7 o }
{
    match o {
        ArithOp::Sub | ArithOp::Sra => 0b0100000,
        _ => 0b0000000,
    }
}

fn mul_div_code(o: MulDivOp) -> u32
    ensures { result ≡ mul_div_code o }
{
    match o {
        MulDivOp::Mul => 0b000,
        MulDivOp::Mulh => 0b001,
        MulDivOp::Mulhsu => 0b010,
        MulDivOp::Mulhu => 0b011,
        MulDivOp::Div => 0b100,
        MulDivOp::Divu => 0b101,
        MulDivOp::Rem => 0b110,
        MulDivOp::Remu => 0b111,
    }
}

// ---- the formats: each field at its place, from the high bits to the low

// funct7 rs2 rs1 funct3 rd opcode. A shift has its amount where the others have rs2.
fn word_r(funct7: u32, rs2: u32, rs1: Reg, funct3: u32, rd: Reg, opcode: u32) -> u32
    ensures { result ≡ word_r funct7 rs2 rs1.number funct3 rd.number opcode }
{
    let s = rs1.number();
    let d = rd.number();
    (funct7 & 127) << 25
        | (rs2 & 31) << 20
        | (s & 31) << 15
        | (funct3 & 7) << 12
        | (d & 31) << 7
        | opcode & 127
}

// imm[11:0] rs1 funct3 rd opcode
fn word_i(imm: u32, rs1: Reg, funct3: u32, rd: Reg, opcode: u32) -> u32
    ensures { result ≡ word_i imm rs1.number funct3 rd.number opcode }
{
    let s = rs1.number();
    let d = rd.number();
    (imm & 0xfff) << 20 | (s & 31) << 15 | (funct3 & 7) << 12 | (d & 31) << 7 | opcode & 127
}

// imm[11:5] rs2 rs1 funct3 imm[4:0] opcode
fn word_s(imm: u32, rs2: Reg, rs1: Reg, funct3: u32, opcode: u32) -> u32
    ensures { result ≡ word_s imm rs2.number rs1.number funct3 opcode }
{
    let t = rs2.number();
    let s = rs1.number();
    ((imm >> 5) & 127) << 25
        | (t & 31) << 20
        | (s & 31) << 15
        | (funct3 & 7) << 12
        | (imm & 31) << 7
        | opcode & 127
}

// imm[12] imm[10:5] rs2 rs1 funct3 imm[4:1] imm[11] opcode
fn word_b(imm: u32, rs2: Reg, rs1: Reg, funct3: u32, opcode: u32) -> u32
    ensures { result ≡ word_b imm rs2.number rs1.number funct3 opcode }
{
    let t = rs2.number();
    let s = rs1.number();
    ((imm >> 12) & 1) << 31
        | ((imm >> 5) & 63) << 25
        | (t & 31) << 20
        | (s & 31) << 15
        | (funct3 & 7) << 12
        | ((imm >> 1) & 15) << 8
        | ((imm >> 11) & 1) << 7
        | opcode & 127
}

// the 20-bit field imm[31:12], rd opcode
fn word_u(field: u32, rd: Reg, opcode: u32) -> u32
    ensures { result ≡ word_u field rd.number opcode }
{
    let d = rd.number();
    (field & 0xf_ffff) << 12 | (d & 31) << 7 | opcode & 127
}

// imm[20] imm[10:1] imm[11] imm[19:12] rd opcode
fn word_j(imm: u32, rd: Reg, opcode: u32) -> u32
    ensures { result ≡ word_j imm rd.number opcode }
{
    let d = rd.number();
    ((imm >> 20) & 1) << 31
        | ((imm >> 1) & 1023) << 21
        | ((imm >> 11) & 1) << 20
        | ((imm >> 12) & 255) << 12
        | (d & 31) << 7
        | opcode & 127
}

// ---- the listings

// The word of an instruction that is in range; of another one it holds what fits of each number.
#[tactic(auto, unfolding(isa::specs::Encoding::word_of))]
fn word_of(i: Inst) -> u32
    ensures { result ≡ word_of i }
{
    match i {
        Inst::Lui(rd, field) => word_u(field, rd, 0b0110111),
        Inst::Auipc(rd, field) => word_u(field, rd, 0b0010111),
        Inst::Jal(rd, imm) => word_j(imm, rd, 0b1101111),
        Inst::Jalr(rd, rs1, imm) => word_i(imm, rs1, 0b000, rd, 0b1100111),
        Inst::Branch(o, rs1, rs2, imm) => word_b(imm, rs2, rs1, cond_code(o), 0b1100011),
        Inst::Load(o, rd, rs1, imm) => word_i(imm, rs1, load_code(o), rd, 0b0000011),
        Inst::Store(o, rs1, rs2, imm) => word_s(imm, rs2, rs1, store_code(o), 0b0100011),
        Inst::Imm(o, rd, rs1, imm) => word_i(imm, rs1, imm_code(o), rd, 0b0010011),
        Inst::Shift(o, rd, rs1, amount) => {
            word_r(shift_code7(o), amount, rs1, shift_code(o), rd, 0b0010011)
        }
        Inst::Arith(o, rd, rs1, rs2) => {
            let t = rs2.number();
            word_r(arith_code7(o), t, rs1, arith_code(o), rd, 0b0110011)
        }
        Inst::Fence(rd, rs1, field) => word_i(field, rs1, 0b000, rd, 0b0001111),
        Inst::Ecall => 0x0000_0073,
        Inst::Ebreak => 0x0010_0073,
        Inst::MulDiv(o, rd, rs1, rs2) => {
            let t = rs2.number();
            word_r(0b0000001, t, rs1, mul_div_code(o), rd, 0b0110011)
        }
    }
}

// The word of an instruction that has one.
pub fn encode(i: Inst) -> Option<u32>
    ensures { result ≡ encoded i }
{
    in_range(i).then(|| word_of(i))
}
