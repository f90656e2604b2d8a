// What each operation computes. Signed operations go through i32 and i64 values, each step under a name
// that says which integer it is.
#![tactic(auto)]

ghost use Rattle.std.specs.Prelude.{◌≡◌, pos};
ghost use Rattle.isa.specs.declared.ArithOp.TheVariants.{Sub, Sll, Slt, Sltu, Srl, Sra};
ghost use Rattle.isa.specs.declared.Cond.TheVariants.{Blt};
ghost use Rattle.isa.specs.declared.MulDivOp.TheVariants.{Mul, Mulh, Mulhsu, Mulhu, Div, Divu, Rem, Remu};
ghost use Rattle.alu.specs.Integers.{signed, low_bits};
ghost use Rattle.alu.specs.Arithmetic.{sum, arith_of, imm_of, shift_of, mul_div_of, takes};

use isa::{ArithOp, Cond, ImmOp, MulDivOp, ShiftOp};

fn signed32(x: u32) -> i32
    ensures { result ≡ signed 32 x }
{
    x.cast_signed()
}

fn signed64(x: u32) -> i64
    ensures { result ≡ signed 32 x }
{
    i64::from(signed32(x))
}

// The same number, with room for a signed product.
fn plain64(x: u32) -> i64
    ensures { result ≡ pos x }
{
    i64::from(x)
}

// The low 32 bits of a signed number.
fn low32(z: i64) -> u32
    ensures { result ≡ low_bits 32 z }
{
    (z & 0xFFFF_FFFF) as u32
}

// The sum modulo 2^32: add, addresses, links and pc.
pub fn add(a: u32, b: u32) -> u32
    ensures { result ≡ sum a b }
{
    a.wrapping_add(b)
}

fn sub(a: u32, b: u32) -> u32
    ensures { result ≡ arith_of Sub a b }
{
    a.wrapping_sub(b)
}

fn is_less(a: u32, b: u32) -> bool
    ensures { result ≡ takes Blt a b }
{
    signed32(a) < signed32(b)
}

fn slt(a: u32, b: u32) -> u32
    ensures { result ≡ arith_of Slt a b }
{
    u32::from(is_less(a, b))
}

fn sltu(a: u32, b: u32) -> u32
    ensures { result ≡ arith_of Sltu a b }
{
    u32::from(a < b)
}

fn sll(a: u32, b: u32) -> u32
    ensures { result ≡ arith_of Sll a b }
{
    a << (b & 31)
}

fn srl(a: u32, b: u32) -> u32
    ensures { result ≡ arith_of Srl a b }
{
    a >> (b & 31)
}

fn sra(a: u32, b: u32) -> u32
    ensures { result ≡ arith_of Sra a b }
{
    (signed32(a) >> (b & 31)).cast_unsigned()
}

fn mul(a: u32, b: u32) -> u32
    ensures { result ≡ mul_div_of Mul a b }
{
    a.wrapping_mul(b)
}

fn mulh(a: u32, b: u32) -> u32
    ensures { result ≡ mul_div_of Mulh a b }
{
    low32((signed64(a) * signed64(b)) >> 32)
}

fn mulhsu(a: u32, b: u32) -> u32
    ensures { result ≡ mul_div_of Mulhsu a b }
{
    low32((signed64(a) * plain64(b)) >> 32)
}

fn mulhu(a: u32, b: u32) -> u32
    ensures { result ≡ mul_div_of Mulhu a b }
{
    ((u64::from(a) * u64::from(b)) >> 32) as u32
}

// In 64 bits the quotient of -2^31 by -1 fits.
fn div(a: u32, b: u32) -> u32
    ensures { result ≡ mul_div_of Div a b }
{
    if b == 0 {
        u32::MAX
    } else {
        low32(signed64(a) / signed64(b))
    }
}

fn divu(a: u32, b: u32) -> u32
    ensures { result ≡ mul_div_of Divu a b }
{
    if b == 0 { u32::MAX } else { a / b }
}

fn rem(a: u32, b: u32) -> u32
    ensures { result ≡ mul_div_of Rem a b }
{
    if b == 0 {
        a
    } else {
        low32(signed64(a) % signed64(b))
    }
}

fn remu(a: u32, b: u32) -> u32
    ensures { result ≡ mul_div_of Remu a b }
{
    if b == 0 { a } else { a % b }
}

pub fn arith(op: ArithOp, a: u32, b: u32) -> u32
    ensures { result ≡ arith_of op a b }
{
    match op {
        ArithOp::Add => add(a, b),
        ArithOp::Sub => sub(a, b),
        ArithOp::Sll => sll(a, b),
        ArithOp::Slt => slt(a, b),
        ArithOp::Sltu => sltu(a, b),
        ArithOp::Xor => a ^ b,
        ArithOp::Srl => srl(a, b),
        ArithOp::Sra => sra(a, b),
        ArithOp::Or => a | b,
        ArithOp::And => a & b,
    }
}

pub fn arith_imm(op: ImmOp, a: u32, imm: u32) -> u32
    ensures { result ≡ imm_of op a imm }
{
    match op {
        ImmOp::Addi => add(a, imm),
        ImmOp::Slti => slt(a, imm),
        ImmOp::Sltiu => sltu(a, imm),
        ImmOp::Xori => a ^ imm,
        ImmOp::Ori => a | imm,
        ImmOp::Andi => a & imm,
    }
}

pub fn shift(op: ShiftOp, a: u32, shamt: u32) -> u32
    ensures { result ≡ shift_of op a shamt }
{
    match op {
        ShiftOp::Slli => sll(a, shamt),
        ShiftOp::Srli => srl(a, shamt),
        ShiftOp::Srai => sra(a, shamt),
    }
}

pub fn mul_div(op: MulDivOp, a: u32, b: u32) -> u32
    ensures { result ≡ mul_div_of op a b }
{
    match op {
        MulDivOp::Mul => mul(a, b),
        MulDivOp::Mulh => mulh(a, b),
        MulDivOp::Mulhsu => mulhsu(a, b),
        MulDivOp::Mulhu => mulhu(a, b),
        MulDivOp::Div => div(a, b),
        MulDivOp::Divu => divu(a, b),
        MulDivOp::Rem => rem(a, b),
        MulDivOp::Remu => remu(a, b),
    }
}

// Whether a branch is taken.
pub fn is_taken(test: Cond, a: u32, b: u32) -> bool
    ensures { result ≡ takes test a b }
{
    match test {
        Cond::Beq => a == b,
        Cond::Bne => a != b,
        Cond::Blt => is_less(a, b),
        Cond::Bge => signed32(a) >= signed32(b),
        Cond::Bltu => a < b,
        Cond::Bgeu => a >= b,
    }
}
