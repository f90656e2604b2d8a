// The smallest halfword that stands for an instruction. One halfword is tried: the formats put it
// together, it is expanded again, and what it means is compared with the instruction.
#![tactic(auto)]

ghost use Rattle.std.specs.Prelude.{◌≡◌, ◌==◌, if◌then◌else◌, Ok, Err};
ghost use Rattle.isa.specs.Operations.{parts_of};
ghost use Rattle.isa.specs.Shortening.{means, stands, shortened};
ghost use Rattle.isa.specs.declared.Unshortened.TheVariants.{NoShortForm};
ghost use Rattle.shortest.specs.Formats.{form_cr, form_ci, form16sp, form_lwsp, form_css, form_ciw, form_cl, form_ca, form_cb, form_cbi, form_cj};
ghost use Rattle.shortest.specs.Trial.{try_addi, tried};

use isa::{ArithOp, Cond, ImmOp, Inst, LoadOp, Parts, ShiftOp, StoreOp, Unshortened};
use parts::parts_of;

fn form_cr(funct4: u32, rd: u32, rs2: u32, low: u32) -> u32
    ensures { result ≡ form_cr funct4 rd rs2 low }
{
    (funct4 & 15) << 12 | (rd & 31) << 7 | (rs2 & 31) << 2 | low & 3
}

fn form_ci(funct3: u32, imm: u32, rd: u32, low: u32) -> u32
    ensures { result ≡ form_ci funct3 imm rd low }
{
    (funct3 & 7) << 13 | ((imm >> 5) & 1) << 12 | (rd & 31) << 7 | (imm & 31) << 2 | low & 3
}

fn form_16sp(funct3: u32, imm: u32, rd: u32, low: u32) -> u32
    ensures { result ≡ form16sp funct3 imm rd low }
{
    (funct3 & 7) << 13
        | ((imm >> 9) & 1) << 12
        | (rd & 31) << 7
        | ((imm >> 4) & 1) << 6
        | ((imm >> 6) & 1) << 5
        | ((imm >> 7) & 3) << 3
        | ((imm >> 5) & 1) << 2
        | low & 3
}

fn form_lwsp(funct3: u32, imm: u32, rd: u32, low: u32) -> u32
    ensures { result ≡ form_lwsp funct3 imm rd low }
{
    (funct3 & 7) << 13
        | ((imm >> 5) & 1) << 12
        | (rd & 31) << 7
        | ((imm >> 2) & 7) << 4
        | ((imm >> 6) & 3) << 2
        | low & 3
}

fn form_css(funct3: u32, imm: u32, rs2: u32, low: u32) -> u32
    ensures { result ≡ form_css funct3 imm rs2 low }
{
    (funct3 & 7) << 13 | ((imm >> 2) & 15) << 9 | ((imm >> 6) & 3) << 7 | (rs2 & 31) << 2 | low & 3
}

fn form_ciw(funct3: u32, imm: u32, rd: u32, low: u32) -> u32
    ensures { result ≡ form_ciw funct3 imm rd low }
{
    (funct3 & 7) << 13
        | ((imm >> 4) & 3) << 11
        | ((imm >> 6) & 15) << 7
        | ((imm >> 2) & 1) << 6
        | ((imm >> 3) & 1) << 5
        | (rd & 7) << 2
        | low & 3
}

fn form_cl(funct3: u32, imm: u32, rs1: u32, rd: u32, low: u32) -> u32
    ensures { result ≡ form_cl funct3 imm rs1 rd low }
{
    (funct3 & 7) << 13
        | ((imm >> 3) & 7) << 10
        | (rs1 & 7) << 7
        | ((imm >> 2) & 1) << 6
        | ((imm >> 6) & 1) << 5
        | (rd & 7) << 2
        | low & 3
}

fn form_ca(funct6: u32, rd: u32, funct2: u32, rs2: u32, low: u32) -> u32
    ensures { result ≡ form_ca funct6 rd funct2 rs2 low }
{
    (funct6 & 63) << 10 | (rd & 7) << 7 | (funct2 & 3) << 5 | (rs2 & 7) << 2 | low & 3
}

fn form_cb(funct3: u32, imm: u32, rs1: u32, low: u32) -> u32
    ensures { result ≡ form_cb funct3 imm rs1 low }
{
    (funct3 & 7) << 13
        | ((imm >> 8) & 1) << 12
        | ((imm >> 3) & 3) << 10
        | (rs1 & 7) << 7
        | ((imm >> 6) & 3) << 5
        | ((imm >> 1) & 3) << 3
        | ((imm >> 5) & 1) << 2
        | low & 3
}

fn form_cbi(funct3: u32, imm: u32, funct2: u32, rd: u32, low: u32) -> u32
    ensures { result ≡ form_cbi funct3 imm funct2 rd low }
{
    (funct3 & 7) << 13
        | ((imm >> 5) & 1) << 12
        | (funct2 & 3) << 10
        | (rd & 7) << 7
        | (imm & 31) << 2
        | low & 3
}

fn form_cj(funct3: u32, imm: u32, low: u32) -> u32
    ensures { result ≡ form_cj funct3 imm low }
{
    (funct3 & 7) << 13
        | ((imm >> 11) & 1) << 12
        | ((imm >> 4) & 1) << 11
        | ((imm >> 8) & 3) << 9
        | ((imm >> 10) & 1) << 8
        | ((imm >> 6) & 1) << 7
        | ((imm >> 7) & 1) << 6
        | ((imm >> 1) & 7) << 3
        | ((imm >> 5) & 1) << 2
        | low & 3
}

// addi: C.ADDI where rd is rs1 and the immediate has six bits, since it is the smaller one where
// both it and C.ADDI16SP stand for the instruction; C.LI from x0; else C.ADDI4SPN.
fn try_addi(rd: u32, rs1: u32, imm: u32) -> u32
    ensures { result ≡ try_addi rd rs1 imm }
{
    if rd == rs1 {
        if imm.wrapping_add(32) < 64 {
            form_ci(0b000, imm, rd, 0b01)
        } else {
            form_16sp(0b011, imm, 2, 0b01)
        }
    } else if rs1 == 0 {
        form_ci(0b010, imm, rd, 0b01)
    } else {
        form_ciw(0b000, imm, rd, 0b00)
    }
}

// lw: C.LWSP from the stack pointer, x2, else C.LW.
fn try_lw(rd: u32, rs1: u32, imm: u32) -> u32
    ensures { result ≡ (if rs1 == 2 then form_lwsp 0b010 imm rd 0b10 else form_cl 0b010 imm rs1 rd 0b00) }
{
    if rs1 == 2 {
        form_lwsp(0b010, imm, rd, 0b10)
    } else {
        form_cl(0b010, imm, rs1, rd, 0b00)
    }
}

// sw: C.SWSP from the stack pointer, else C.SW.
fn try_sw(rs1: u32, rs2: u32, imm: u32) -> u32
    ensures { result ≡ (if rs1 == 2 then form_css 0b110 imm rs2 0b10 else form_cl 0b110 imm rs1 rs2 0b00) }
{
    if rs1 == 2 {
        form_css(0b110, imm, rs2, 0b10)
    } else {
        form_cl(0b110, imm, rs1, rs2, 0b00)
    }
}

// The halfword to try. Of an operation that has no short form it is 0, which is illegal.
#[tactic(auto, unfolding(shortest::specs::Trial::try_for))]
fn try_for(i: Inst) -> u32
    ensures { result ≡ tried (parts_of i) }
{
    let Parts {
        rd,
        rs1,
        rs2,
        imm,
        ..
    } = parts_of(i);
    match i {
        Inst::Lui(..) => form_ci(0b011, imm, rd, 0b01),
        Inst::Jal(..) => form_cj(if rd == 1 { 0b001 } else { 0b101 }, imm, 0b01),
        Inst::Jalr(..) => form_cr(if rd == 0 { 0b1000 } else { 0b1001 }, rs1, 0, 0b10),
        Inst::Branch(Cond::Beq, ..) => form_cb(0b110, imm, rs1, 0b01),
        Inst::Branch(Cond::Bne, ..) => form_cb(0b111, imm, rs1, 0b01),
        Inst::Load(LoadOp::Lw, ..) => try_lw(rd, rs1, imm),
        Inst::Store(StoreOp::Sw, ..) => try_sw(rs1, rs2, imm),
        Inst::Imm(ImmOp::Addi, ..) => try_addi(rd, rs1, imm),
        Inst::Imm(ImmOp::Andi, ..) => form_cbi(0b100, imm, 0b10, rd, 0b01),
        Inst::Shift(ShiftOp::Slli, ..) => form_ci(0b000, imm, rd, 0b10),
        Inst::Shift(ShiftOp::Srli, ..) => form_cbi(0b100, imm, 0b00, rd, 0b01),
        Inst::Shift(ShiftOp::Srai, ..) => form_cbi(0b100, imm, 0b01, rd, 0b01),
        Inst::Arith(ArithOp::Add, ..) => {
            form_cr(if rs1 == 0 { 0b1000 } else { 0b1001 }, rd, rs2, 0b10)
        }
        Inst::Arith(ArithOp::Sub, ..) => form_ca(0b100011, rd, 0b00, rs2, 0b01),
        Inst::Arith(ArithOp::Xor, ..) => form_ca(0b100011, rd, 0b01, rs2, 0b01),
        Inst::Arith(ArithOp::Or, ..) => form_ca(0b100011, rd, 0b10, rs2, 0b01),
        Inst::Arith(ArithOp::And, ..) => form_ca(0b100011, rd, 0b11, rs2, 0b01),
        Inst::Ebreak => form_cr(0b1001, 0, 0, 0b10),
        _ => 0,
    }
}

fn means_it(meaning: Option<Inst>, i: Inst) -> bool
    ensures { result ≡ means meaning i }
{
    meaning.is_some_and(|j| parts_of(j) == parts_of(i))
}

// The smallest halfword that stands for an instruction in range: the one that is tried, or none.
fn by_trial(i: Inst) -> Result<u16, Unshortened>
    ensures { result ≡ (if stands i (tried (parts_of i)) then Ok (tried (parts_of i)) else Err NoShortForm) }
{
    let half = try_for(i) as u16;
    if means_it(expander::expand(half), i) {
        Ok(half)
    } else {
        Err(Unshortened::NoShortForm)
    }
}

// The smallest halfword that stands for the instruction.
pub fn shorten(i: Inst) -> Result<u16, Unshortened>
    ensures { result ≡ shortened i }
{
    if ranges::in_range(i) {
        by_trial(i)
    } else {
        Err(Unshortened::OutOfRange)
    }
}
