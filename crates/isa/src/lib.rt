// What an instruction is: the registers, and the 48 operations with their operands.
#![tactic(auto)]

ghost use Rattle.std.specs.Prelude.{◌≡◌, ◌+◌};
ghost use Rattle.word.specs.Bits.{low};
ghost use Rattle.isa.specs.Registers.{reg, register};

use answers::Refusal;

// A register, x0 to x31.
#[derive(Clone, Copy)]
pub struct Reg {
    number: u8,
}

impl Reg {
    pub const ZERO: Reg = Reg { number: 0 };

    pub const LINK: Reg = Reg { number: 1 };

    pub const STACK: Reg = Reg { number: 2 };

    // The register with this number, which is 0 to 31 and nothing else.
    pub fn new(number: u32) -> Option<Reg>
        ensures { result ≡ register number }
    {
        if number < 32 {
            Some(Reg {
                number: number as u8,
            })
        } else {
            None
        }
    }

    // The register that a five-bit field names, the low bits of x.
    pub fn field5(x: u32) -> Reg
        ensures { result ≡ reg (low 5 x) }
    {
        Reg {
            number: (x & 31) as u8,
        }
    }

    // The register x8 to x15 that a three-bit field of a short instruction names, the low bits of x.
    pub fn field3(x: u32) -> Reg
        ensures { result ≡ reg (low 3 x + 8) }
    {
        Reg {
            number: ((x & 7) + 8) as u8,
        }
    }

    pub fn number(self) -> u32
        ensures { result ≡ self.number }
    {
        u32::from(self.number)
    }
}

// The kinds of an instruction, each with its place in the paper's order of the 48.

#[derive(Clone, Copy)]
pub enum Cond {
    Beq = 4,
    Bne = 5,
    Blt = 6,
    Bge = 7,
    Bltu = 8,
    Bgeu = 9,
}

#[derive(Clone, Copy)]
pub enum LoadOp {
    Lb = 10,
    Lh = 11,
    Lw = 12,
    Lbu = 13,
    Lhu = 14,
}

#[derive(Clone, Copy)]
pub enum StoreOp {
    Sb = 15,
    Sh = 16,
    Sw = 17,
}

#[derive(Clone, Copy)]
pub enum ImmOp {
    Addi = 18,
    Slti = 19,
    Sltiu = 20,
    Xori = 21,
    Ori = 22,
    Andi = 23,
}

#[derive(Clone, Copy)]
pub enum ShiftOp {
    Slli = 24,
    Srli = 25,
    Srai = 26,
}

#[derive(Clone, Copy)]
pub enum ArithOp {
    Add = 27,
    Sub = 28,
    Sll = 29,
    Slt = 30,
    Sltu = 31,
    Xor = 32,
    Srl = 33,
    Sra = 34,
    Or = 35,
    And = 36,
}

#[derive(Clone, Copy)]
pub enum MulDivOp {
    Mul = 40,
    Mulh = 41,
    Mulhsu = 42,
    Mulhu = 43,
    Div = 44,
    Divu = 45,
    Rem = 46,
    Remu = 47,
}

// An operation and the operands that its text shows, in the order rd, rs1, rs2, immediate.
// Immediates and offsets are sign-extended to 32 bits; lui and auipc carry the 20-bit field, a
// shift its amount and fence its 12-bit field.
#[derive(Clone, Copy)]
pub enum Inst {
    Lui(Reg, u32),
    Auipc(Reg, u32),
    Jal(Reg, u32),
    Jalr(Reg, Reg, u32),
    Branch(Cond, Reg, Reg, u32),
    Load(LoadOp, Reg, Reg, u32),
    Store(StoreOp, Reg, Reg, u32),
    Imm(ImmOp, Reg, Reg, u32),
    Shift(ShiftOp, Reg, Reg, u32),
    Arith(ArithOp, Reg, Reg, Reg),
    Fence(Reg, Reg, u32),
    Ecall,
    Ebreak,
    MulDiv(MulDivOp, Reg, Reg, Reg),
}

// Why an instruction has no halfword.
#[derive(Clone, Copy)]
pub enum Unshortened {
    OutOfRange,
    NoShortForm,
}

impl From<Unshortened> for Refusal {
    ghost use Rattle.isa.specs.Answers.{refusal_of};

    ghost from_gives = { λ why r. r ≡ refusal_of why };

    fn from(why: Unshortened) -> Refusal {
        match why {
            Unshortened::OutOfRange => Refusal::Field,
            Unshortened::NoShortForm => Refusal::NoShortForm,
        }
    }
}

// An instruction as numbers, as the C interface has it: its operation's place in the paper's order, and
// its operands, 0 for each that it does not have.
#[derive(Clone, Copy, PartialEq, Eq)]
pub struct Parts {
    pub operation: u8,
    pub rd: u32,
    pub rs1: u32,
    pub rs2: u32,
    pub imm: u32,
}
