// The assembler: the codes of lines of text, one after another, at the front of a room that the
// caller lends. The answer is their length; bytes of the room after them stay.
#![tactic(auto)]

ghost use Rattle.std.specs.Prelude.{◌≡◌, length};
ghost use Rattle.answers.specs.Outcomes.{outcome};
ghost use Rattle.ascii.specs.Rooms.{Wrote};
ghost use Rattle.assembly.specs.Assembly.{assembled};
ghost use Rattle.assembler.specs.Entry.{bytes_of, assemble_entry};
ghost use Rattle.assembler.specs.Passes.{measured, Fits};

use answers::Refusal;
use coder::{Code, Fault, code_line};
use stores::store_of;

// A refusal, with its line and its byte of the line, both from 0.
#[derive(Clone, Copy)]
pub struct LineFault {
    pub refusal: Refusal,
    pub line: usize,
    pub byte: usize,
}

// The codes of the lines of a text, one after the other, up to the first line at fault.
#[derive(Clone, Copy)]
struct Codes<'a> {
    rest: &'a [u8],
}

impl<'a> Iterator for Codes<'a> {
    ghost use Rattle.assembler.specs.Passes.{Turn};
    ghost use Rattle.std.specs.Iterator.{at_most};

    type Item = Result<Code, Fault>;

    ghost next_gives = { λ s r t. Turn s.rest.now r t.rest.now };

    ghost remaining = { λ s. at_most (length s.rest.now) };

    fn next(&mut self) -> Option<Result<Code, Fault>> {
        if self.rest.is_empty() {
            return None;
        }
        match code_line(self.rest) {
            Ok(code) => {
                self.rest = &self.rest[code.end..];
                Some(Ok(code))
            }
            Err(fault) => {
                self.rest = &[];
                Some(Err(fault))
            }
        }
    }
}

// The first pass: every line is looked at before anything is written. Answers the length of the
// output.
fn measure(text: &[u8]) -> Result<usize, LineFault>
    ensures { result ≡ measured 0 0 (assembled text.now) }
{
    let mut length = 0;
    for (line, code) in (Codes { rest: text }).enumerate() {
        match code {
            Ok(code) => length += code.width.bytes(),
            Err(fault) => {
                return Err(LineFault {
                    refusal: fault.refusal,
                    line,
                    byte: fault.byte,
                });
            }
        }
    }
    Ok(length)
}

// The second pass, over lines that are not at fault. Answers the place after the output.
fn write_lines(text: &[u8], room: &mut [u8]) -> usize
    requires { Fits (length room.old) 0 (assembled text.now) }
    ensures { Wrote room.old 0 (bytes_of (assembled text.now)) room.new result }
{
    let mut length = 0;
    for code in (Codes { rest: text }) {
        let Ok(code) = code else {
            return length;
        };
        store_of(room, length, code.width, code.bits);
        length += code.width.bytes();
    }
    length
}

// The codes of all lines, and their length. Refuses with 10, 11 and 12, for the first line at fault,
// and with 13, which is of no line and tells 0 and 0.
pub fn assemble(text: &[u8], room: &mut [u8]) -> Result<usize, LineFault>
    ensures { outcome result room.new ≡ assemble_entry text.now room.old }
{
    // of no lines there is nothing, and a walk over them would cost more than to say so
    if text.is_empty() {
        return Ok(0);
    }
    let length = measure(text)?;
    if length > room.len() {
        return Err(LineFault {
            refusal: Refusal::OutputRoom,
            line: 0,
            byte: 0,
        });
    }
    Ok(write_lines(text, room))
}
