// The C interface, the assembler, into a room that the caller lends.
#![tactic(auto)]

ghost use Rattle.std.specs.Prelude.{◌≡◌};
ghost use Rattle.answers.specs.Outcomes.{outcome};
ghost use Rattle.c_assembly.specs.Assembly.{assemble_call};

use answers::{Refusal, reply};

// The codes of lines of text. Refuses with 10, 11 and 12, which tell the line and the byte, and with 13.
pub fn phuyurik_assemble(
    text: &[u8],
    room: &mut [u8],
    length: &mut usize,
    line: &mut usize,
    byte: &mut usize,
) -> u32
    ensures { outcome result ((length.new, (line.new, byte.new)), room.new) ≡ assemble_call text.now room.old length.old (line.old, byte.old) }
{
    let done = assembler::assemble(text, room);
    // Room shorter than the whole output is of no line.
    if let Err(fault) = done
        && !matches!(fault.refusal, Refusal::OutputRoom)
    {
        *line = fault.line;
        *byte = fault.byte;
    }
    reply(done.map_err(|fault| fault.refusal), length)
}
