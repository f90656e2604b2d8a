// The listing of an image, a page at a time into a room that the caller lends.
#![tactic(auto)]

ghost use Rattle.std.specs.Prelude.{◌≡◌, ◌++◌, ◌+◌, ◌≤◌, ◌<◌, length};
ghost use Rattle.answers.specs.Outcomes.{outcome};
ghost use Rattle.ascii.specs.Ascii.{bytes};
ghost use Rattle.ascii.specs.Numbers.{hex};
ghost use Rattle.ascii.specs.Rooms.{HasRoom, Appended};
ghost use Rattle.octets.specs.Bytes.{load};
ghost use Rattle.listing.specs.Listing.{shown_at, size_of, shown_text, line_at, list_entry};

use ascii::Cursor;
use fetch::fetch;
use isa::Inst;
use octets::load;
use text::{put_short_text, put_text};

// What `list` answers: the length of what it wrote, and the address of the line that comes next.
#[derive(Clone, Copy)]
pub struct Listed {
    pub length: usize,
    pub next: usize,
}

// The largest image, and the longest line.
const IMAGE: usize = 65536;

const LINE: usize = 38;

// What a line shows: an instruction of four bytes or of two, two bytes that are none, or a last odd
// byte.
#[derive(Clone, Copy)]
pub enum Shown {
    Long(Inst),
    Short(Inst),
    Unknown,
    Odd,
}

impl Shown {
    fn size(self) -> usize
        ensures { result ≡ size_of self }
    {
        match self {
            Shown::Long(_) => 4,
            Shown::Short(_) | Shown::Unknown => 2,
            Shown::Odd => 1,
        }
    }

    // The bytes that are shown, as a number.
    fn bits(self, image: &[u8], at: usize) -> u32
        requires { at + size_of self ≤ length image.now }
        ensures { result ≡ load (size_of self) at image.now }
    {
        match self {
            Shown::Long(_) => load::<4>(image, at) as u32,
            Shown::Short(_) | Shown::Unknown => load::<2>(image, at) as u32,
            Shown::Odd => load::<1>(image, at) as u32,
        }
    }

    fn put(self, out: &mut Cursor)
        requires { HasRoom out.old (shown_text self) }
        ensures { Appended out.old (shown_text self) out.new }
    {
        match self {
            Shown::Long(i) => put_text(out, i),
            Shown::Short(i) => put_short_text(out, i),
            Shown::Unknown | Shown::Odd => out.put(b'?'),
        }
    }
}

// What a step would fetch at an address; a byte that is the last is no instruction.
#[tactic(auto, unfolding(crate::specs::Listing::shown_at, crate::specs::Listing::shown_of))]
fn shown_at(image: &[u8], at: usize) -> Shown
    requires { at < 65536 }
    ensures { result ≡ shown_at image.now at }
{
    if at + 2 > image.len() {
        return Shown::Odd;
    }
    match fetch(at as u32, image) {
        Ok((i, 4)) => Shown::Long(i),
        Ok((i, _)) => Shown::Short(i),
        Err(_) => Shown::Unknown,
    }
}

// The address and the bits in hexadecimal, each with a space after it.
fn put_front(out: &mut Cursor, address: u32, bits: u32, digits: usize)
    requires { HasRoom out.old (hex 8 address ++ bytes " " ++ hex digits bits ++ bytes " ") }
    ensures { Appended out.old (hex 8 address ++ bytes " " ++ hex digits bits ++ bytes " ") out.new }
{
    out.put_hex(address, 8);
    out.put(b' ');
    out.put_hex(bits, digits);
    out.put(b' ');
}

// The line at an address of the image; the answer is the address after what it shows.
fn put_line(image: &[u8], at: usize, out: &mut Cursor) -> usize
    requires at_in_bounds { at < length image.now }
    requires has_room { out.old.at + 38 ≤ length out.old.room.now }
    ensures wrote { Appended out.old (line_at image.now at).text out.new }
    ensures next_value { result ≡ (line_at image.now at).next }
{
    if image.len() > IMAGE {
        out.put_all(b"too long\n");
        return image.len();
    }
    let shown = shown_at(image, at);
    let size = shown.size();
    put_front(out, at as u32, shown.bits(image, at), 2 * size);
    shown.put(out);
    out.put(b'\n');
    at + size
}

// Whole lines from an address of the image on, as long as there are any and the room has place for
// the longest; a room under 38 bytes gets none.
pub fn list(image: &[u8], from: usize, room: &mut [u8]) -> Listed
    ensures { outcome result room.new ≡ list_entry image.now from room.old }
{
    let mut out = Cursor { room, at: 0 };
    let mut next = from;
    // by the address that each line answers: lines show one, two or four bytes
    while next < image.len() && out.room.len() - out.at >= LINE {
        next = put_line(image, next, &mut out);
    }
    Listed {
        length: out.at,
        next,
    }
}
