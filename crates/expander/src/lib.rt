// What 16 bits stand for: the short instructions of RV32C, each written out as the instruction of
// 32 bits that does the same.
#![tactic(auto)]

ghost use Rattle.std.specs.Prelude.{◌≡◌};
ghost use Rattle.isa.specs.declared.Inst.TheVariants.{Arith};
ghost use Rattle.word.specs.Bits.{bits};
ghost use Rattle.word.specs.Tables.{find};
ghost use Rattle.isa.specs.Rvc.{
  reg11_7,
  reg6_2,
  short9_7,
  short4_2,
  imm6,
  field_lui,
  imm16sp,
  imm4spn,
  imm_lw,
  imm_lwsp,
  imm_swsp,
  imm_cj,
  imm_cb,
  nonzero,
  clear12,
  c_addi4spn,
  c_lw,
  c_sw,
  quadrant0,
  c_addi,
  c_jal,
  c_li,
  c_addi16sp,
  c_lui,
  c_upper,
  c_shift,
  c_andi,
  c_pair,
  illegal,
  c_alu,
  c_j,
  c_branch,
  quadrant1,
  c_slli,
  c_lwsp,
  c_jr,
  c_mv,
  c_jalr,
  c_add,
  c_register,
  c_swsp,
  quadrant2,
  expanded,
};

use isa::{ArithOp, Cond, ImmOp, Inst, LoadOp, Reg, ShiftOp, StoreOp};

// ---- fields

// rd or rs1, and rs2, of five bits.
fn reg_11_7(h: u32) -> Reg
    ensures { result ≡ reg11_7 h }
{
    Reg::field5(h >> 7)
}

fn reg_6_2(h: u32) -> Reg
    ensures { result ≡ reg6_2 h }
{
    Reg::field5(h >> 2)
}

// rs1' or rd', and rs2' or rd', of three bits: x8 to x15.
fn short_9_7(h: u32) -> Reg
    ensures { result ≡ short9_7 h }
{
    Reg::field3(h >> 7)
}

fn short_4_2(h: u32) -> Reg
    ensures { result ≡ short4_2 h }
{
    Reg::field3(h >> 2)
}

// The same fields as numbers. That of rs2 is a shift's amount too.
fn rd_number(h: u32) -> u32
    ensures { result ≡ bits h 11 7 }
{
    (h >> 7) & 31
}

fn rs_number(h: u32) -> u32
    ensures { result ≡ bits h 6 2 }
{
    (h >> 2) & 31
}

fn bit12(h: u32) -> u32
    ensures { result ≡ bits h 12 12 }
{
    (h >> 12) & 1
}

// ---- immediates: each piece is masked out and shifted to its place, from high bits to low

// C.ADDI, C.LI and C.ANDI.
fn imm6(h: u32) -> u32
    ensures { result ≡ imm6 h }
{
    word::sign_extend((((h >> 12) & 1) << 5) | ((h >> 2) & 31), 6)
}

// C.LUI: the 20-bit field of lui, which is the immediate without its 12 low bits.
fn field_lui(h: u32) -> u32
    ensures { result ≡ field_lui h }
{
    word::sign_extend((((h >> 12) & 1) << 17) | (((h >> 2) & 31) << 12), 18) >> 12
}

// C.ADDI16SP.
fn imm16sp(h: u32) -> u32
    ensures { result ≡ imm16sp h }
{
    word::sign_extend(
        (((h >> 12) & 1) << 9)
            | (((h >> 3) & 3) << 7)
            | (((h >> 5) & 1) << 6)
            | (((h >> 2) & 1) << 5)
            | (((h >> 6) & 1) << 4),
        10,
    )
}

// C.ADDI4SPN.
fn imm4spn(h: u32) -> u32
    ensures { result ≡ imm4spn h }
{
    (((h >> 7) & 15) << 6) | (((h >> 11) & 3) << 4) | (((h >> 5) & 1) << 3) | (((h >> 6) & 1) << 2)
}

// C.LW and C.SW.
fn imm_lw(h: u32) -> u32
    ensures { result ≡ imm_lw h }
{
    (((h >> 5) & 1) << 6) | (((h >> 10) & 7) << 3) | (((h >> 6) & 1) << 2)
}

// C.LWSP.
fn imm_lwsp(h: u32) -> u32
    ensures { result ≡ imm_lwsp h }
{
    (((h >> 2) & 3) << 6) | (((h >> 12) & 1) << 5) | (((h >> 4) & 7) << 2)
}

// C.SWSP.
fn imm_swsp(h: u32) -> u32
    ensures { result ≡ imm_swsp h }
{
    (((h >> 7) & 3) << 6) | (((h >> 9) & 15) << 2)
}

// C.J and C.JAL.
fn imm_cj(h: u32) -> u32
    ensures { result ≡ imm_cj h }
{
    word::sign_extend(
        (((h >> 12) & 1) << 11)
            | (((h >> 8) & 1) << 10)
            | (((h >> 9) & 3) << 8)
            | (((h >> 6) & 1) << 7)
            | (((h >> 7) & 1) << 6)
            | (((h >> 2) & 1) << 5)
            | (((h >> 11) & 1) << 4)
            | (((h >> 3) & 7) << 1),
        12,
    )
}

// C.BEQZ and C.BNEZ.
fn imm_cb(h: u32) -> u32
    ensures { result ≡ imm_cb h }
{
    word::sign_extend(
        (((h >> 12) & 1) << 8)
            | (((h >> 5) & 3) << 6)
            | (((h >> 2) & 1) << 5)
            | (((h >> 10) & 3) << 3)
            | (((h >> 3) & 3) << 1),
        9,
    )
}

// ---- what may not be

// Legal unless the number is 0.
fn nonzero(number: u32, i: Inst) -> Option<Inst>
    ensures { result ≡ nonzero number i }
{
    (number != 0).then_some(i)
}

// Legal only where bit 12 is 0.
fn clear12(h: u32, i: Inst) -> Option<Inst>
    ensures { result ≡ clear12 h i }
{
    (bit12(h) == 0).then_some(i)
}

// ---- quadrant 0, by the bits 15 to 13

fn c_addi4spn(h: u32) -> Option<Inst>
    ensures { result ≡ c_addi4spn h }
{
    let imm = imm4spn(h);
    nonzero(imm, Inst::Imm(ImmOp::Addi, short_4_2(h), Reg::STACK, imm))
}

fn c_lw(h: u32) -> Option<Inst>
    ensures { result ≡ c_lw h }
{
    Some(Inst::Load(LoadOp::Lw, short_4_2(h), short_9_7(h), imm_lw(h)))
}

fn c_sw(h: u32) -> Option<Inst>
    ensures { result ≡ c_sw h }
{
    Some(Inst::Store(StoreOp::Sw, short_9_7(h), short_4_2(h), imm_lw(h)))
}

fn quadrant0(h: u32) -> Option<Inst>
    ensures { result ≡ find illegal quadrant0 (bits h 15 13) (λ m. m) h }
{
    match (h >> 13) & 7 {
        0b000 => c_addi4spn(h),
        0b010 => c_lw(h),
        0b110 => c_sw(h),
        _ => None,
    }
}

// ---- quadrant 1

// C.NOP too, where rd is x0.
fn c_addi(h: u32) -> Option<Inst>
    ensures { result ≡ c_addi h }
{
    let rd = reg_11_7(h);
    Some(Inst::Imm(ImmOp::Addi, rd, rd, imm6(h)))
}

fn c_jal(h: u32) -> Option<Inst>
    ensures { result ≡ c_jal h }
{
    Some(Inst::Jal(Reg::LINK, imm_cj(h)))
}

fn c_li(h: u32) -> Option<Inst>
    ensures { result ≡ c_li h }
{
    Some(Inst::Imm(ImmOp::Addi, reg_11_7(h), Reg::ZERO, imm6(h)))
}

fn c_addi16sp(h: u32) -> Option<Inst>
    ensures { result ≡ c_addi16sp h }
{
    let imm = imm16sp(h);
    nonzero(imm, Inst::Imm(ImmOp::Addi, Reg::STACK, Reg::STACK, imm))
}

fn c_lui(h: u32) -> Option<Inst>
    ensures { result ≡ c_lui h }
{
    let field = field_lui(h);
    nonzero(field, Inst::Lui(reg_11_7(h), field))
}

// C.ADDI16SP where rd is the stack pointer, x2, else C.LUI.
fn c_upper(h: u32) -> Option<Inst>
    ensures { result ≡ c_upper h }
{
    if rd_number(h) == 2 {
        c_addi16sp(h)
    } else {
        c_lui(h)
    }
}

// C.SRLI and C.SRAI.
fn c_shift(o: ShiftOp, h: u32) -> Option<Inst>
    ensures { result ≡ c_shift o h }
{
    let rd = short_9_7(h);
    let amount = rs_number(h);
    clear12(h, Inst::Shift(o, rd, rd, amount))
}

fn c_andi(h: u32) -> Option<Inst>
    ensures { result ≡ c_andi h }
{
    let rd = short_9_7(h);
    Some(Inst::Imm(ImmOp::Andi, rd, rd, imm6(h)))
}

// C.SUB, C.XOR, C.OR and C.AND.
fn c_arith(o: ArithOp, h: u32) -> Option<Inst>
    ensures { result ≡ clear12 h (Arith o (short9_7 h) (short9_7 h) (short4_2 h)) }
{
    let rd = short_9_7(h);
    clear12(h, Inst::Arith(o, rd, rd, short_4_2(h)))
}

// The four above, by the bits 6 to 5.
fn c_pair(h: u32) -> Option<Inst>
    ensures { result ≡ c_pair h }
{
    match (h >> 5) & 3 {
        0b00 => c_arith(ArithOp::Sub, h),
        0b01 => c_arith(ArithOp::Xor, h),
        0b10 => c_arith(ArithOp::Or, h),
        0b11 => c_arith(ArithOp::And, h),
        _ => unreachable!(),
    }
}

// MISC-ALU, by the bits 11 to 10.
fn c_alu(h: u32) -> Option<Inst>
    ensures { result ≡ c_alu h }
{
    match (h >> 10) & 3 {
        0b00 => c_shift(ShiftOp::Srli, h),
        0b01 => c_shift(ShiftOp::Srai, h),
        0b10 => c_andi(h),
        0b11 => c_pair(h),
        _ => unreachable!(),
    }
}

fn c_j(h: u32) -> Option<Inst>
    ensures { result ≡ c_j h }
{
    Some(Inst::Jal(Reg::ZERO, imm_cj(h)))
}

// C.BEQZ and C.BNEZ.
fn c_branch(o: Cond, h: u32) -> Option<Inst>
    ensures { result ≡ c_branch o h }
{
    Some(Inst::Branch(o, short_9_7(h), Reg::ZERO, imm_cb(h)))
}

fn quadrant1(h: u32) -> Option<Inst>
    ensures { result ≡ find illegal quadrant1 (bits h 15 13) (λ m. m) h }
{
    match (h >> 13) & 7 {
        0b000 => c_addi(h),
        0b001 => c_jal(h),
        0b010 => c_li(h),
        0b011 => c_upper(h),
        0b100 => c_alu(h),
        0b101 => c_j(h),
        0b110 => c_branch(Cond::Beq, h),
        0b111 => c_branch(Cond::Bne, h),
        _ => unreachable!(),
    }
}

// ---- quadrant 2

fn c_slli(h: u32) -> Option<Inst>
    ensures { result ≡ c_slli h }
{
    let rd = reg_11_7(h);
    let amount = rs_number(h);
    clear12(h, Inst::Shift(ShiftOp::Slli, rd, rd, amount))
}

fn c_lwsp(h: u32) -> Option<Inst>
    ensures { result ≡ c_lwsp h }
{
    nonzero(
        rd_number(h),
        Inst::Load(LoadOp::Lw, reg_11_7(h), Reg::STACK, imm_lwsp(h)),
    )
}

fn c_jr(h: u32) -> Option<Inst>
    ensures { result ≡ c_jr h }
{
    nonzero(rd_number(h), Inst::Jalr(Reg::ZERO, reg_11_7(h), 0))
}

fn c_mv(h: u32) -> Option<Inst>
    ensures { result ≡ c_mv h }
{
    Some(Inst::Arith(ArithOp::Add, reg_11_7(h), Reg::ZERO, reg_6_2(h)))
}

// C.EBREAK where rs1 is 0.
fn c_jalr(h: u32) -> Option<Inst>
    ensures { result ≡ c_jalr h }
{
    if rd_number(h) == 0 {
        Some(Inst::Ebreak)
    } else {
        Some(Inst::Jalr(Reg::LINK, reg_11_7(h), 0))
    }
}

fn c_add(h: u32) -> Option<Inst>
    ensures { result ≡ c_add h }
{
    let rd = reg_11_7(h);
    Some(Inst::Arith(ArithOp::Add, rd, rd, reg_6_2(h)))
}

// The five above, by bit 12 and whether rs2 is 0.
fn c_register(h: u32) -> Option<Inst>
    ensures { result ≡ c_register h }
{
    match (bit12(h), rs_number(h)) {
        (0, 0) => c_jr(h),
        (0, _) => c_mv(h),
        (_, 0) => c_jalr(h),
        _ => c_add(h),
    }
}

fn c_swsp(h: u32) -> Option<Inst>
    ensures { result ≡ c_swsp h }
{
    Some(Inst::Store(StoreOp::Sw, Reg::STACK, reg_6_2(h), imm_swsp(h)))
}

fn quadrant2(h: u32) -> Option<Inst>
    ensures { result ≡ find illegal quadrant2 (bits h 15 13) (λ m. m) h }
{
    match (h >> 13) & 7 {
        0b000 => c_slli(h),
        0b010 => c_lwsp(h),
        0b100 => c_register(h),
        0b110 => c_swsp(h),
        _ => None,
    }
}

// ---- all quadrants

// The instruction that 16 bits stand for, by the low two. Where those are 11, the bits are a part
// of a 32-bit instruction, and as a short one they are illegal.
#[tactic(auto, unfolding(isa::specs::Rvc::expanded))]
pub fn expand(bits: u16) -> Option<Inst>
    ensures { result ≡ expanded bits }
{
    let h = u32::from(bits);
    match h & 3 {
        0b00 => quadrant0(h),
        0b01 => quadrant1(h),
        0b10 => quadrant2(h),
        _ => None,
    }
}
