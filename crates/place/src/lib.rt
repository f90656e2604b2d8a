// The memory map: where an access lies.
#![tactic(auto)]

ghost use Rattle.std.specs.Prelude.{◌≡◌};
ghost use Rattle.octets.specs.Widths.{width_bytes};
ghost use Rattle.place.specs.Map.{placed};

use octets::Width;

#[derive(Clone, Copy)]
pub enum Place {
    // the bytes of main memory from here
    Memory(usize),
    // a word of the fuse row, 0 to 63
    Fuse(usize),
    Misaligned,
    Outside,
}

const WINDOW_START: u32 = 0x8000_0000;

const WINDOW_END: u32 = 0x8000_0100;

// Where an access at an address lies, with a memory of so many bytes.
pub fn place_of(address: u32, width: Width, size: usize) -> Place
    ensures { result ≡ placed (width_bytes width) address size }
{
    let at = address as usize;
    if at % width.bytes() != 0 {
        return Place::Misaligned;
    }
    if at + width.bytes() <= size {
        return Place::Memory(at);
    }
    if (width == Width::Four) & (WINDOW_START <= address) & (address < WINDOW_END) {
        return Place::Fuse(((address - WINDOW_START) / 4) as usize);
    }
    Place::Outside
}
