// The assembler program's reading and writing: a text from a reader, its output to one writer, or a
// line to another.
#![tactic(auto)]

ghost use Rattle.std.specs.Prelude.{◌≡◌, ◌≤◌, length};
ghost use Rattle.answers.specs.Outcomes.{outcome};
ghost use Rattle.ascii.specs.Rooms.{Wrote};
ghost use Rattle.assembly_io.specs.Saying.{complaint, saying};

use answers::Refusal;
use ascii::Cursor;
use assembler::assemble;
use reading::read_full;
use std::io::{self, Read, Write};

// The longest text, and more than any output of one: a line is longer than what it gives.
const TEXT: usize = 65536;

// One byte more than a text may have tells those that are too long.
const READ: usize = 65537;

// So many bytes of the room are for standard output, or for standard error. No `Result`: both are what is
// to be written, and neither is a failure of `say`.
#[derive(Clone, Copy)]
pub enum Said {
    Output(usize),
    Error(usize),
}

fn complain(refusal: Refusal, room: &mut [u8]) -> usize
    requires { 65536 ≤ length room.old }
    ensures { Wrote room.old 0 (complaint refusal) room.new result }
{
    let mut out = Cursor { room, at: 0 };
    out.put_decimal(refusal.number() as u32);
    out.put(b'\n');
    out.at
}

// What the program writes for a text, at the front of a room that holds it.
pub fn say(text: &[u8], room: &mut [u8]) -> Said
    requires { 65536 ≤ length room.old }
    ensures { outcome result room.new ≡ saying text.now room.old }
{
    if text.len() > TEXT {
        let mut out = Cursor { room, at: 0 };
        out.put_all(b"too long\n");
        return Said::Error(out.at);
    }
    match assemble(text, room) {
        Ok(length) => Said::Output(length),
        Err(fault) => Said::Error(complain(fault.refusal, room)),
    }
}

// Reads a text, and writes what there is to say of it.
pub fn assemble_from<R: Read, W: Write, E: Write>(
    input: &mut R,
    output: &mut W,
    errors: &mut E,
) -> io::Result<()> {
    let mut text = [0u8; READ];
    let n = read_full(input, &mut text)?;
    let mut room = [0u8; TEXT];
    match say(&text[..n], &mut room) {
        Said::Output(length) => output.write_all(&room[..length]),
        Said::Error(length) => errors.write_all(&room[..length]),
    }
}
