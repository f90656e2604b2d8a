// The text of an instruction, written where a cursor stands.
#![tactic(auto)]

ghost use Rattle.std.specs.Prelude.{◌≡◌, ◌∷◌, ◌++◌, ◌<◌};
ghost use Rattle.ascii.specs.Numbers.{signed_decimal};
ghost use Rattle.ascii.specs.Rooms.{HasRoom, Appended};
ghost use Rattle.text.specs.Names.{name_at};
ghost use Rattle.text.specs.Samples.{sample_line};
ghost use Rattle.text.specs.Text.{space, comma, parens, register_text, shown, operands_of, text_of, short_text_of};

use ascii::Cursor;
use isa::{Inst, Reg};
use parts::parts_of;

// An operand as its text shows it: a register, an unsigned number, or a number in two's complement.
#[derive(Clone, Copy)]
pub enum Operand {
    Register(Reg),
    Unsigned(u32),
    Signed(u32),
}

// What stands in front of the text of a short instruction.
pub const SHORT: &[u8] = b"c:";

// A line of each operation, in the paper's order, with 1, 2, 3 and 4 as rd, rs1, rs2 and immediate:
// the names that the disassembler writes, and the shapes that the assembler reads by.
const LINES: [&[u8]; 48] = [
    b"lui x1,4\n",
    b"auipc x1,4\n",
    b"jal x1,4\n",
    b"jalr x1,4(x2)\n",
    b"beq x2,x3,4\n",
    b"bne x2,x3,4\n",
    b"blt x2,x3,4\n",
    b"bge x2,x3,4\n",
    b"bltu x2,x3,4\n",
    b"bgeu x2,x3,4\n",
    b"lb x1,4(x2)\n",
    b"lh x1,4(x2)\n",
    b"lw x1,4(x2)\n",
    b"lbu x1,4(x2)\n",
    b"lhu x1,4(x2)\n",
    b"sb x3,4(x2)\n",
    b"sh x3,4(x2)\n",
    b"sw x3,4(x2)\n",
    b"addi x1,x2,4\n",
    b"slti x1,x2,4\n",
    b"sltiu x1,x2,4\n",
    b"xori x1,x2,4\n",
    b"ori x1,x2,4\n",
    b"andi x1,x2,4\n",
    b"slli x1,x2,4\n",
    b"srli x1,x2,4\n",
    b"srai x1,x2,4\n",
    b"add x1,x2,x3\n",
    b"sub x1,x2,x3\n",
    b"sll x1,x2,x3\n",
    b"slt x1,x2,x3\n",
    b"sltu x1,x2,x3\n",
    b"xor x1,x2,x3\n",
    b"srl x1,x2,x3\n",
    b"sra x1,x2,x3\n",
    b"or x1,x2,x3\n",
    b"and x1,x2,x3\n",
    b"fence x1,x2,4\n",
    b"ecall\n",
    b"ebreak\n",
    b"mul x1,x2,x3\n",
    b"mulh x1,x2,x3\n",
    b"mulhsu x1,x2,x3\n",
    b"mulhu x1,x2,x3\n",
    b"div x1,x2,x3\n",
    b"divu x1,x2,x3\n",
    b"rem x1,x2,x3\n",
    b"remu x1,x2,x3\n",
];

// The line of an operation.
pub fn sample_line(operation: u8) -> &'static [u8]
    requires { operation < 48 }
    ensures { result.now ≡ sample_line operation }
{
    LINES[operation as usize]
}

// An operation's name: what its line has before the first space or newline. Byte by byte, since a copy of so
// many bytes as are not known beforehand is a call of memmove, which the library for C would have to be given.
fn put_name(out: &mut Cursor, operation: u8)
    requires { HasRoom out.old (name_at operation) }
    ensures { Appended out.old (name_at operation) out.new }
{
    if operation < 48 {
        for &byte in sample_line(operation) {
            if byte <= b' ' {
                break;
            }
            out.put(byte);
        }
    }
}

// An operand with the space, comma or bracket before it.
fn put_operand(out: &mut Cursor, before: u8, operand: Operand)
    requires { HasRoom out.old (before ∷ shown operand) }
    ensures { Appended out.old (before ∷ shown operand) out.new }
{
    out.put(before);
    match operand {
        Operand::Register(reg) => {
            out.put(b'x');
            out.put_decimal(reg.number());
        }
        Operand::Unsigned(n) => out.put_decimal(n),
        Operand::Signed(n) => out.put_signed(n),
    }
}

// " x6,524288"
fn put_two(out: &mut Cursor, first: Reg, last: Operand)
    requires { HasRoom out.old (space (register_text first) ++ comma (shown last)) }
    ensures { Appended out.old (space (register_text first) ++ comma (shown last)) out.new }
{
    put_operand(out, b' ', Operand::Register(first));
    put_operand(out, b',', last);
}

// " x5,x6,31"
fn put_three(out: &mut Cursor, first: Reg, second: Reg, last: Operand)
    requires { HasRoom out.old (space (register_text first) ++ comma (register_text second) ++ comma (shown last)) }
    ensures { Appended out.old (space (register_text first) ++ comma (register_text second) ++ comma (shown last)) out.new }
{
    put_two(out, first, Operand::Register(second));
    put_operand(out, b',', last);
}

// " x2,-8(x1)"
fn put_address(out: &mut Cursor, first: Reg, offset: u32, base: Reg)
    requires { HasRoom out.old (space (register_text first) ++ comma (signed_decimal offset) ++ parens (register_text base)) }
    ensures { Appended out.old (space (register_text first) ++ comma (signed_decimal offset) ++ parens (register_text base)) out.new }
{
    put_two(out, first, Operand::Signed(offset));
    put_operand(out, b'(', Operand::Register(base));
    out.put(b')');
}

#[tactic(auto, unfolding(crate::specs::Text::operands_of))]
fn put_operands(out: &mut Cursor, i: Inst)
    requires { HasRoom out.old (operands_of i) }
    ensures { Appended out.old (operands_of i) out.new }
{
    match i {
        Inst::Lui(rd, field) | Inst::Auipc(rd, field) => {
            put_two(out, rd, Operand::Unsigned(field));
        }
        Inst::Jal(rd, imm) => put_two(out, rd, Operand::Signed(imm)),
        Inst::Jalr(rd, rs1, imm) | Inst::Load(_, rd, rs1, imm) => put_address(out, rd, imm, rs1),
        Inst::Store(_, rs1, rs2, imm) => put_address(out, rs2, imm, rs1),
        Inst::Branch(_, first, second, imm) | Inst::Imm(_, first, second, imm) => {
            put_three(out, first, second, Operand::Signed(imm));
        }
        Inst::Shift(_, rd, rs1, field) | Inst::Fence(rd, rs1, field) => {
            put_three(out, rd, rs1, Operand::Unsigned(field));
        }
        Inst::Arith(_, rd, rs1, rs2) | Inst::MulDiv(_, rd, rs1, rs2) => {
            put_three(out, rd, rs1, Operand::Register(rs2));
        }
        Inst::Ecall | Inst::Ebreak => {}
    }
}

pub fn put_text(out: &mut Cursor, i: Inst)
    requires { HasRoom out.old (text_of i) }
    ensures { Appended out.old (text_of i) out.new }
{
    put_name(out, parts_of(i).operation);
    put_operands(out, i);
}

// The text of a short instruction that stands for i.
pub fn put_short_text(out: &mut Cursor, i: Inst)
    requires { HasRoom out.old (short_text_of i) }
    ensures { Appended out.old (short_text_of i) out.new }
{
    out.put_all(SHORT);
    put_text(out, i);
}
