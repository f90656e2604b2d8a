// The decoder: what 32 bits mean. Every field and every immediate bit is masked out of its place; the
// opcode picks the group, and funct3 and funct7 pick the operation in it.
#![tactic(auto)]

ghost use Rattle.std.specs.Prelude.{◌≡◌, [], ◌∷◌, Some, None};
ghost use Rattle.word.specs.Tables.{find};
ghost use Rattle.isa.specs.Fields.{imm_i, imm_s, imm_b, imm_j};
ghost use Rattle.isa.specs.Decoding.{decode_branch, decode_load, decode_store, rights, decode_shift, decode_immediate, ariths, others, decode_arith, decode_mul_div, decode_register, decode_system, decoded};

use isa::{ArithOp, Cond, ImmOp, Inst, LoadOp, MulDivOp, Reg, ShiftOp, StoreOp};

// The opcodes, as the manual names them.
const LUI: u32 = 0b0110111;

const AUIPC: u32 = 0b0010111;

const JAL: u32 = 0b1101111;

const JALR: u32 = 0b1100111;

const BRANCH: u32 = 0b1100011;

const LOAD: u32 = 0b0000011;

const STORE: u32 = 0b0100011;

const OP_IMM: u32 = 0b0010011;

const OP: u32 = 0b0110011;

const MISC_MEM: u32 = 0b0001111;

const SYSTEM: u32 = 0b1110011;

// The immediates of the formats I, S, B and J: the pieces of each from its high bits to its low,
// then its sign copied to every bit above.

// imm[11:0]
fn imm_i(bits: u32) -> u32
    ensures { result ≡ imm_i bits }
{
    word::sign_extend((bits >> 20) & 0xfff, 12)
}

// imm[11:5], imm[4:0]
fn imm_s(bits: u32) -> u32
    ensures { result ≡ imm_s bits }
{
    word::sign_extend((((bits >> 25) & 0x7f) << 5) | ((bits >> 7) & 0x1f), 12)
}

// imm[12], imm[11], imm[10:5], imm[4:1]
fn imm_b(bits: u32) -> u32
    ensures { result ≡ imm_b bits }
{
    let offset = (((bits >> 31) & 1) << 12)
        | (((bits >> 7) & 1) << 11)
        | (((bits >> 25) & 0x3f) << 5)
        | (((bits >> 8) & 0xf) << 1);
    word::sign_extend(offset, 13)
}

// imm[20], imm[19:12], imm[11], imm[10:1]
fn imm_j(bits: u32) -> u32
    ensures { result ≡ imm_j bits }
{
    let offset = (((bits >> 31) & 1) << 20)
        | (((bits >> 12) & 0xff) << 12)
        | (((bits >> 20) & 1) << 11)
        | (((bits >> 21) & 0x3ff) << 1);
    word::sign_extend(offset, 21)
}

// The instruction if its code is 0: no other code of it is legal.
fn if_zero(code: u32, inst: Inst) -> Option<Inst>
    ensures { result ≡ find None ((0, Some inst) ∷ []) code (λ m. m) }
{
    (code == 0).then_some(inst)
}

// BRANCH, by funct3.
fn branch(funct3: u32, rs1: Reg, rs2: Reg, imm: u32) -> Option<Inst>
    ensures { result ≡ decode_branch funct3 rs1 rs2 imm }
{
    match funct3 {
        0b000 => Some(Inst::Branch(Cond::Beq, rs1, rs2, imm)),
        0b001 => Some(Inst::Branch(Cond::Bne, rs1, rs2, imm)),
        0b100 => Some(Inst::Branch(Cond::Blt, rs1, rs2, imm)),
        0b101 => Some(Inst::Branch(Cond::Bge, rs1, rs2, imm)),
        0b110 => Some(Inst::Branch(Cond::Bltu, rs1, rs2, imm)),
        0b111 => Some(Inst::Branch(Cond::Bgeu, rs1, rs2, imm)),
        _ => None,
    }
}

// LOAD, by funct3.
fn load(funct3: u32, rd: Reg, rs1: Reg, imm: u32) -> Option<Inst>
    ensures { result ≡ decode_load funct3 rd rs1 imm }
{
    match funct3 {
        0b000 => Some(Inst::Load(LoadOp::Lb, rd, rs1, imm)),
        0b001 => Some(Inst::Load(LoadOp::Lh, rd, rs1, imm)),
        0b010 => Some(Inst::Load(LoadOp::Lw, rd, rs1, imm)),
        0b100 => Some(Inst::Load(LoadOp::Lbu, rd, rs1, imm)),
        0b101 => Some(Inst::Load(LoadOp::Lhu, rd, rs1, imm)),
        _ => None,
    }
}

// STORE, by funct3.
fn store(funct3: u32, rs1: Reg, rs2: Reg, imm: u32) -> Option<Inst>
    ensures { result ≡ decode_store funct3 rs1 rs2 imm }
{
    match funct3 {
        0b000 => Some(Inst::Store(StoreOp::Sb, rs1, rs2, imm)),
        0b001 => Some(Inst::Store(StoreOp::Sh, rs1, rs2, imm)),
        0b010 => Some(Inst::Store(StoreOp::Sw, rs1, rs2, imm)),
        _ => None,
    }
}

// OP-IMM with funct3 101, by funct7.
fn shift_right(funct7: u32, rd: Reg, rs1: Reg, amount: u32) -> Option<Inst>
    ensures { result ≡ decode_shift rights funct7 rd rs1 amount }
{
    match funct7 {
        0b0000000 => Some(Inst::Shift(ShiftOp::Srli, rd, rs1, amount)),
        0b0100000 => Some(Inst::Shift(ShiftOp::Srai, rd, rs1, amount)),
        _ => None,
    }
}

// OP-IMM, by funct3.
fn immediate(funct3: u32, funct7: u32, rd: Reg, rs1: Reg, amount: u32, imm: u32) -> Option<Inst>
    ensures { result ≡ decode_immediate funct3 funct7 rd rs1 amount imm }
{
    match funct3 {
        0b000 => Some(Inst::Imm(ImmOp::Addi, rd, rs1, imm)),
        0b010 => Some(Inst::Imm(ImmOp::Slti, rd, rs1, imm)),
        0b011 => Some(Inst::Imm(ImmOp::Sltiu, rd, rs1, imm)),
        0b100 => Some(Inst::Imm(ImmOp::Xori, rd, rs1, imm)),
        0b110 => Some(Inst::Imm(ImmOp::Ori, rd, rs1, imm)),
        0b111 => Some(Inst::Imm(ImmOp::Andi, rd, rs1, imm)),
        0b001 => if_zero(funct7, Inst::Shift(ShiftOp::Slli, rd, rs1, amount)),
        0b101 => shift_right(funct7, rd, rs1, amount),
        _ => None,
    }
}

// OP with funct7 0000000, by funct3.
fn arith(funct3: u32, rd: Reg, rs1: Reg, rs2: Reg) -> Option<Inst>
    ensures { result ≡ decode_arith ariths funct3 rd rs1 rs2 }
{
    match funct3 {
        0b000 => Some(Inst::Arith(ArithOp::Add, rd, rs1, rs2)),
        0b001 => Some(Inst::Arith(ArithOp::Sll, rd, rs1, rs2)),
        0b010 => Some(Inst::Arith(ArithOp::Slt, rd, rs1, rs2)),
        0b011 => Some(Inst::Arith(ArithOp::Sltu, rd, rs1, rs2)),
        0b100 => Some(Inst::Arith(ArithOp::Xor, rd, rs1, rs2)),
        0b101 => Some(Inst::Arith(ArithOp::Srl, rd, rs1, rs2)),
        0b110 => Some(Inst::Arith(ArithOp::Or, rd, rs1, rs2)),
        0b111 => Some(Inst::Arith(ArithOp::And, rd, rs1, rs2)),
        _ => None,
    }
}

// OP with funct7 0100000, by funct3.
fn other_arith(funct3: u32, rd: Reg, rs1: Reg, rs2: Reg) -> Option<Inst>
    ensures { result ≡ decode_arith others funct3 rd rs1 rs2 }
{
    match funct3 {
        0b000 => Some(Inst::Arith(ArithOp::Sub, rd, rs1, rs2)),
        0b101 => Some(Inst::Arith(ArithOp::Sra, rd, rs1, rs2)),
        _ => None,
    }
}

// OP with funct7 0000001, by funct3: the multiplications and divisions.
fn mul_div(funct3: u32, rd: Reg, rs1: Reg, rs2: Reg) -> Option<Inst>
    ensures { result ≡ decode_mul_div funct3 rd rs1 rs2 }
{
    match funct3 {
        0b000 => Some(Inst::MulDiv(MulDivOp::Mul, rd, rs1, rs2)),
        0b001 => Some(Inst::MulDiv(MulDivOp::Mulh, rd, rs1, rs2)),
        0b010 => Some(Inst::MulDiv(MulDivOp::Mulhsu, rd, rs1, rs2)),
        0b011 => Some(Inst::MulDiv(MulDivOp::Mulhu, rd, rs1, rs2)),
        0b100 => Some(Inst::MulDiv(MulDivOp::Div, rd, rs1, rs2)),
        0b101 => Some(Inst::MulDiv(MulDivOp::Divu, rd, rs1, rs2)),
        0b110 => Some(Inst::MulDiv(MulDivOp::Rem, rd, rs1, rs2)),
        0b111 => Some(Inst::MulDiv(MulDivOp::Remu, rd, rs1, rs2)),
        _ => None,
    }
}

// OP, by funct7.
fn register(funct7: u32, funct3: u32, rd: Reg, rs1: Reg, rs2: Reg) -> Option<Inst>
    ensures { result ≡ decode_register funct7 funct3 rd rs1 rs2 }
{
    match funct7 {
        0b0000000 => arith(funct3, rd, rs1, rs2),
        0b0100000 => other_arith(funct3, rd, rs1, rs2),
        0b0000001 => mul_div(funct3, rd, rs1, rs2),
        _ => None,
    }
}

// SYSTEM: two whole words are legal, and no others.
fn system(bits: u32) -> Option<Inst>
    ensures { result ≡ decode_system bits }
{
    match bits {
        0x0000_0073 => Some(Inst::Ecall),
        0x0010_0073 => Some(Inst::Ebreak),
        _ => None,
    }
}

// What the bits mean. Bits of a short instruction are illegal here: no opcode of theirs is listed.
#[tactic(auto, unfolding(isa::specs::Decoding::decoded))]
pub fn decode(bits: u32) -> Option<Inst>
    ensures { result ≡ decoded bits }
{
    let rd = Reg::field5(bits >> 7);
    let funct3 = (bits >> 12) & 7;
    let upper = (bits >> 12) & 0xf_ffff;
    let rs1 = Reg::field5(bits >> 15);
    let rs2 = Reg::field5(bits >> 20);
    let funct7 = (bits >> 25) & 0x7f;
    match bits & 0x7f {
        LUI => Some(Inst::Lui(rd, upper)),
        AUIPC => Some(Inst::Auipc(rd, upper)),
        JAL => Some(Inst::Jal(rd, imm_j(bits))),
        JALR => if_zero(funct3, Inst::Jalr(rd, rs1, imm_i(bits))),
        BRANCH => branch(funct3, rs1, rs2, imm_b(bits)),
        LOAD => load(funct3, rd, rs1, imm_i(bits)),
        STORE => store(funct3, rs1, rs2, imm_s(bits)),
        OP_IMM => immediate(funct3, funct7, rd, rs1, (bits >> 20) & 0x1f, imm_i(bits)),
        OP => register(funct7, funct3, rd, rs1, rs2),
        // fence.i, which has funct3 001, is illegal here
        MISC_MEM => if_zero(funct3, Inst::Fence(rd, rs1, (bits >> 20) & 0xfff)),
        SYSTEM => system(bits),
        _ => None,
    }
}
