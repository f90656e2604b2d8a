// The C interface but for runs: each export is the function of that name in the library below, under the same contract.
#![tactic(auto)]

ghost use Rattle.std.specs.Prelude.{◌≡◌};
ghost use Rattle.answers.specs.Outcomes.{outcome};
ghost use Rattle.c_codes.specs.Codes.{version, chart_call, decode_call, expand_call};
ghost use Rattle.c_insts.specs.Insts.{encode_call, shorten_call};
ghost use Rattle.c_texts.specs.Texts.{word_text_call, half_text_call, inst_text_call, list_call};
ghost use Rattle.c_assembly.specs.Assembly.{assemble_call};
ghost use Rattle.c_slots.specs.Slots.{write_call, read_call};

// The version of this interface.
#[unsafe(no_mangle)]
pub extern "C" fn phuyurik_version() -> u32
    ensures { result ≡ version }
{
    c_codes::phuyurik_version()
}

// The class of 32 bits in the chart. Never refuses.
#[unsafe(no_mangle)]
pub extern "C" fn phuyurik_chart(bits: u32, format: &mut u8) -> u32
    ensures { outcome result format.new ≡ chart_call bits format.old }
{
    c_codes::phuyurik_chart(bits, format)
}

// What 32 bits mean. Refuses with 7.
#[unsafe(no_mangle)]
pub extern "C" fn phuyurik_decode(bits: u32, inst: &mut [u32; 5]) -> u32
    ensures { outcome result inst.new ≡ decode_call bits inst.old }
{
    c_codes::phuyurik_decode(bits, inst)
}

// What 16 bits mean. Refuses with 7.
#[unsafe(no_mangle)]
pub extern "C" fn phuyurik_expand(bits: u16, inst: &mut [u32; 5]) -> u32
    ensures { outcome result inst.new ≡ expand_call bits inst.old }
{
    c_codes::phuyurik_expand(bits, inst)
}

// The word of an instruction. Refuses with 8.
#[unsafe(no_mangle)]
pub extern "C" fn phuyurik_encode(inst: &[u32; 5], bits: &mut u32) -> u32
    ensures { outcome result bits.new ≡ encode_call inst.now bits.old }
{
    c_insts::phuyurik_encode(inst, bits)
}

// The smallest halfword that stands for an instruction. Refuses with 8 and 9.
#[unsafe(no_mangle)]
pub extern "C" fn phuyurik_shorten(inst: &[u32; 5], bits: &mut u16) -> u32
    ensures { outcome result bits.new ≡ shorten_call inst.now bits.old }
{
    c_insts::phuyurik_shorten(inst, bits)
}

// The text of 32 bits. Refuses with 6 and 7.
#[unsafe(no_mangle)]
pub extern "C" fn phuyurik_text_of_word(bits: u32, room: &mut [u8], length: &mut usize) -> u32
    ensures { outcome result (length.new, room.new) ≡ word_text_call bits room.old length.old }
{
    c_texts::phuyurik_text_of_word(bits, room, length)
}

// The text of 16 bits. Refuses with 6 and 7.
#[unsafe(no_mangle)]
pub extern "C" fn phuyurik_text_of_half(bits: u16, room: &mut [u8], length: &mut usize) -> u32
    ensures { outcome result (length.new, room.new) ≡ half_text_call bits room.old length.old }
{
    c_texts::phuyurik_text_of_half(bits, room, length)
}

// The text of an instruction. Refuses with 6 and 8.
#[unsafe(no_mangle)]
pub extern "C" fn phuyurik_text_of(inst: &[u32; 5], room: &mut [u8], length: &mut usize) -> u32
    ensures { outcome result (length.new, room.new) ≡ inst_text_call inst.now room.old length.old }
{
    c_texts::phuyurik_text_of(inst, room, length)
}

// Whole lines of the listing from an address of the image on. Never refuses.
#[unsafe(no_mangle)]
pub extern "C" fn phuyurik_list(
    image: &[u8],
    from: usize,
    room: &mut [u8],
    length: &mut usize,
    next: &mut usize,
) -> u32
    ensures { outcome result ((length.new, next.new), room.new) ≡ list_call image.now from room.old (length.old, next.old) }
{
    c_texts::phuyurik_list(image, from, room, length, next)
}

// The codes of lines of text. Refuses with 10, 11 and 12, which tell the line and the byte, and with 13.
#[unsafe(no_mangle)]
pub extern "C" fn phuyurik_assemble(
    text: &[u8],
    room: &mut [u8],
    length: &mut usize,
    line: &mut usize,
    byte: &mut usize,
) -> u32
    ensures { outcome result ((length.new, (line.new, byte.new)), room.new) ≡ assemble_call text.now room.old length.old (line.old, byte.old) }
{
    c_assembly::phuyurik_assemble(text, room, length, line, byte)
}

// A state into slot k. Refuses with 4, 5, 14 and 15.
#[unsafe(no_mangle)]
pub extern "C" fn phuyurik_write_slot(state: &[u8; 144], slots: &mut [u8], k: usize) -> u32
    ensures { outcome result (tt, slots.new) ≡ write_call state.now k slots.old }
{
    c_slots::phuyurik_write_slot(state, slots, k)
}

// The state in slot k. Refuses with 4, 5, 14 and 15.
#[unsafe(no_mangle)]
pub extern "C" fn phuyurik_read_slot(state: &mut [u8; 144], slots: &[u8], k: usize) -> u32
    ensures { outcome result (state.new, tt) ≡ read_call k slots.now state.old }
{
    c_slots::phuyurik_read_slot(state, slots, k)
}
