// The C interface, texts and the listing, into a room that the caller lends.
#![tactic(auto)]

ghost use Rattle.std.specs.Prelude.{◌≡◌};
ghost use Rattle.answers.specs.Outcomes.{outcome};
ghost use Rattle.calls.specs.Calls.{of_numbers};
ghost use Rattle.c_texts.specs.Texts.{word_text_call, half_text_call, inst_text, inst_text_call, list_call};

use answers::{Refusal, reply};
use calls::inst_in;
use disassembler::ROOM;

// The text of 32 bits. Refuses with 6 and 7.
pub fn phuyurik_text_of_word(bits: u32, room: &mut [u8], length: &mut usize) -> u32
    ensures { outcome result (length.new, room.new) ≡ word_text_call bits room.old length.old }
{
    reply(disassembler::text_of_word(bits, room), length)
}

// The text of 16 bits. Refuses with 6 and 7.
pub fn phuyurik_text_of_half(bits: u16, room: &mut [u8], length: &mut usize) -> u32
    ensures { outcome result (length.new, room.new) ≡ half_text_call bits room.old length.old }
{
    reply(disassembler::text_of_half(bits, room), length)
}

// The room is asked for before the five numbers are looked at.
fn text_in(inst: &[u32; 5], room: &mut [u8]) -> Result<usize, Refusal>
    ensures { outcome result room.new ≡ inst_text (of_numbers inst.now) room.old }
{
    if room.len() < ROOM {
        return Err(Refusal::Room);
    }
    let i = inst_in(inst).ok_or(Refusal::Field)?;
    disassembler::text_of(i, room)
}

// The text of an instruction. Refuses with 6 and 8.
pub fn phuyurik_text_of(inst: &[u32; 5], room: &mut [u8], length: &mut usize) -> u32
    ensures { outcome result (length.new, room.new) ≡ inst_text_call inst.now room.old length.old }
{
    reply(text_in(inst, room), length)
}

// Whole lines of the listing from an address of the image on. Never refuses.
pub fn phuyurik_list(
    image: &[u8],
    from: usize,
    room: &mut [u8],
    length: &mut usize,
    next: &mut usize,
) -> u32
    ensures { outcome result ((length.new, next.new), room.new) ≡ list_call image.now from room.old (length.old, next.old) }
{
    let listed = listing::list(image, from, room);
    *length = listed.length;
    *next = listed.next;
    0
}
