// The disassembler: the text of an instruction at the front of a room that the caller lends. The
// answer is the text's length; bytes of the room after it stay.
#![tactic(auto)]

ghost use Rattle.std.specs.Prelude.{◌≡◌, ◌++◌, ◌≤◌, IfOk, length};
ghost use Rattle.answers.specs.Outcomes.{outcome};
ghost use Rattle.text.specs.Text.{text_of};
ghost use Rattle.disassembler.specs.Entries.{found_filled, word_entry, half_entry, inst_entry};

use answers::Refusal;
use ascii::Cursor;
use decoder::decode;
use expander::expand;
use isa::Inst;
use ranges::in_range;
use text::{SHORT, put_text};

// No text is longer, with `c:` in front or without.
pub const ROOM: usize = 24;

// The text of what was found, with a prefix. A small room was refused before it was looked for.
fn write_text(
    found: Result<Inst, Refusal>,
    prefix: &[u8],
    room: &mut [u8],
) -> Result<usize, Refusal>
    requires fits { IfOk found (λ i. length (prefix.now ++ text_of i) ≤ 19) }
    requires wide { 20 ≤ length room.old }
    ensures { outcome result room.new ≡ found_filled found prefix.now room.old }
{
    let i = found?;
    let mut out = Cursor { room, at: 0 };
    out.put_all(prefix);
    put_text(&mut out, i);
    Ok(out.at)
}

// The text of 32 bits. Refuses with 6 and 7.
pub fn text_of_word(bits: u32, room: &mut [u8]) -> Result<usize, Refusal>
    ensures { outcome result room.new ≡ word_entry bits room.old }
{
    if room.len() < ROOM {
        return Err(Refusal::Room);
    }
    write_text(decode(bits).ok_or(Refusal::NoInstruction), b"", room)
}

// The text of 16 bits. Refuses with 6 and 7.
#[tactic(auto, unfolding(text::specs::Text::short_text_of))]
pub fn text_of_half(bits: u16, room: &mut [u8]) -> Result<usize, Refusal>
    ensures { outcome result room.new ≡ half_entry bits room.old }
{
    if room.len() < ROOM {
        return Err(Refusal::Room);
    }
    write_text(expand(bits).ok_or(Refusal::NoInstruction), SHORT, room)
}

// The text of an instruction. Refuses with 6 and 8.
#[tactic(auto, unfolding(answers::specs::Outcomes::decided))]
pub fn text_of(i: Inst, room: &mut [u8]) -> Result<usize, Refusal>
    ensures { outcome result room.new ≡ inst_entry i room.old }
{
    if room.len() < ROOM {
        return Err(Refusal::Room);
    }
    write_text(in_range(i).then_some(i).ok_or(Refusal::Field), b"", room)
}
