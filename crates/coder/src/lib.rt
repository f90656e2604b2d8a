// The code of one line of the assembler's text.
#![tactic(auto)]

ghost use Rattle.std.specs.Prelude.{◌≡◌};
ghost use Rattle.coder.specs.Coding.{fault_at, inst_read, halved, worded, code_line};
ghost use Rattle.isa.specs.Encoding.{encoded};
ghost use Rattle.isa.specs.Shortening.{shortened};

use answers::Refusal;
use builder::built;
use encoder::encode;
use isa::{Inst, Reg};
use octets::Width;
use reader::{Fields, first_line};
use shortener::shorten;

// The code of a line: its bits, as a word's or a halfword's bytes, and the place after the line.
#[derive(Clone, Copy)]
pub struct Code {
    pub bits: u32,
    pub width: Width,
    pub end: usize,
}

// Why a line has no code, and the byte of the line that is at fault.
#[derive(Clone, Copy)]
pub struct Fault {
    pub refusal: Refusal,
    pub byte: usize,
}

impl Fault {
    fn new(refusal: Refusal, byte: usize) -> Fault
        ensures { result ≡ fault_at refusal byte }
    {
        Fault { refusal, byte }
    }
}

// The numbers of a line that is not at fault fit their fields.
fn inst_of(operation: u8, fields: Fields) -> Inst
    ensures { result ≡ inst_read operation fields }
{
    let rd = Reg::field5(fields.rd);
    let rs1 = Reg::field5(fields.rs1);
    let rs2 = Reg::field5(fields.rs2);
    built(operation, rd, rs1, rs2, fields.imm)
}

fn word_of(i: Inst, end: usize) -> Result<Code, Fault>
    ensures { result ≡ worded (encoded i) end }
{
    let bits = encode(i).ok_or(Fault::new(Refusal::NumberNotAllowed, 0))?;
    let width = Width::Four;
    Ok(Code { bits, width, end })
}

fn half_of(i: Inst, end: usize) -> Result<Code, Fault>
    ensures { result ≡ halved (shortened i) end }
{
    let half = shorten(i).map_err(|_| Fault::new(Refusal::NoShortLine, 0))?;
    let bits = half as u32;
    let width = Width::Two;
    Ok(Code { bits, width, end })
}

// What the first line of a text gives. Refuses with 10, 11 and 12.
pub fn code_line(text: &[u8]) -> Result<Code, Fault>
    ensures { result ≡ code_line text.now }
{
    let line = first_line(text).map_err(|byte| Fault::new(Refusal::Unreadable, byte))?;
    if let Some(byte) = line.fields.wrong {
        return Err(Fault::new(Refusal::NumberNotAllowed, byte));
    }
    let i = inst_of(line.operation, line.fields);
    if line.short {
        half_of(i, line.end)
    } else {
        word_of(i, line.end)
    }
}
