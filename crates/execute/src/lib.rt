// One instruction, in two halves: what it asks for, by pc, the next address and the registers alone, and what comes of that in memory and row. Neither sees the state.
#![tactic(auto)]

ghost use Rattle.std.specs.Prelude.{◌≡◌, cond, length};
ghost use Rattle.answers.specs.Outcomes.{outcome};
ghost use Rattle.boards.specs.Boards.{board};
ghost use Rattle.alu.specs.Arithmetic.{sum, takes};
ghost use Rattle.answers.specs.Stops.{cause};
ghost use Rattle.execute.specs.declared.Act.TheVariants.{Ends};
ghost use Rattle.execute.specs.Execution.{upper_field, evened, act_of, performed};

use access::{Effect, load, store};
use alu::{add, arith, arith_imm, is_taken, mul_div, shift};
use answers::{Cause, Stop};
use fuses::RowBytes;
use isa::{Cond, Inst, LoadOp, Reg, StoreOp};
use state::read;

// What an instruction asks for. Each but the last ends with the address of the next instruction. `Ends`
// is one of four and no error of the others.
#[derive(Clone, Copy)]
pub enum Act {
    // a register gets a value
    Sets(Reg, u32, u32),
    // a register gets what is at an address
    Loads(LoadOp, Reg, u32, u32),
    // a value goes to an address
    Stores(StoreOp, u32, u32, u32),
    Ends(Cause),
}

fn upper_field(field: u32) -> u32
    ensures { result ≡ upper_field field }
{
    field << 12
}

fn even(address: u32) -> u32
    ensures { result ≡ evened address }
{
    address - address % 2
}

// Where a branch at pc goes on.
fn branch_target(test: Cond, a: u32, b: u32, imm: u32, pc: u32, next: u32) -> u32
    ensures { result ≡ cond (takes test a b) (sum pc imm) next }
{
    if is_taken(test, a, b) {
        return add(pc, imm);
    }
    next
}

// The run ends, with a stop at an address.
fn ends(stop: Stop, address: u32) -> Act
    ensures { result ≡ Ends (cause stop address) }
{
    Act::Ends(Cause::new(stop, address))
}

// What the instruction i at pc asks for, over the registers x; next is pc plus its own length.
pub fn decide(i: Inst, next: u32, pc: u32, x: &[u32; 31]) -> Act
    ensures { result ≡ act_of i next pc x.now }
{
    match i {
        Inst::Lui(rd, field) => Act::Sets(rd, upper_field(field), next),
        Inst::Auipc(rd, field) => Act::Sets(rd, add(pc, upper_field(field)), next),
        Inst::Jal(rd, imm) => Act::Sets(rd, next, add(pc, imm)),
        Inst::Jalr(rd, rs1, imm) => Act::Sets(rd, next, even(add(read(x, rs1), imm))),
        Inst::Branch(test, rs1, rs2, imm) => {
            let target = branch_target(test, read(x, rs1), read(x, rs2), imm, pc, next);
            Act::Sets(Reg::ZERO, 0, target)
        }
        Inst::Load(op, rd, rs1, imm) => Act::Loads(op, rd, add(read(x, rs1), imm), next),
        Inst::Store(op, rs1, rs2, imm) => {
            let address = add(read(x, rs1), imm);
            Act::Stores(op, read(x, rs2), address, next)
        }
        Inst::Imm(op, rd, rs1, imm) => Act::Sets(rd, arith_imm(op, read(x, rs1), imm), next),
        Inst::Shift(op, rd, rs1, shamt) => Act::Sets(rd, shift(op, read(x, rs1), shamt), next),
        Inst::Arith(op, rd, rs1, rs2) => Act::Sets(rd, arith(op, read(x, rs1), read(x, rs2)), next),
        Inst::Fence(_, _, _) => Act::Sets(Reg::ZERO, 0, next),
        Inst::Ecall => ends(Stop::Ecall, 0),
        Inst::Ebreak => ends(Stop::Ebreak, 0),
        Inst::MulDiv(op, rd, rs1, rs2) => Act::Sets(
            rd,
            mul_div(op, read(x, rs1), read(x, rs2)),
            next,
        ),
    }
}

// What comes of it. Of the row's words it may load and store to its own.
pub fn perform(own: u64, act: Act, mem: &mut [u8], row: &mut RowBytes) -> Effect
    ensures { outcome result (board mem.new row.new) ≡ performed own act (board mem.old row.old) }
{
    match act {
        Act::Sets(rd, value, pc) => Effect::Next { rd, value, pc },
        Act::Loads(op, rd, address, next) => load(own, op, rd, address, next, mem, row),
        Act::Stores(op, v, address, next) => store(own, op, v, address, next, mem, row),
        Act::Ends(why) => Effect::Halt(why),
    }
}
