// Reading a line: a cursor goes along the text and along the sample of each operation's line.
#![tactic(auto)]

ghost use Rattle.std.specs.Prelude.{◌≡◌, ◌≤◌, ◌<◌, length, drop};
ghost use Rattle.numerals.specs.Numbers.{digit_of};
ghost use Rattle.text.specs.Samples.{sample_line};
ghost use Rattle.reader.specs.Line.{reading, among_from, prefix, first_line};
ghost use Rattle.reader.specs.Reading.{At, allowed_value, put, fault, taken_number, starts_with, over_field, along, no_fields};

use builder::built;
use isa::Reg;
use numerals::{Field, read_number};
use ranges::in_range;
use text::sample_line;

// The numbers of a line so far, by field, and the place of the leftmost wrong one.
#[derive(Clone, Copy, Default)]
pub struct Fields {
    pub rd: u32,
    pub rs1: u32,
    pub rs2: u32,
    pub imm: u32,
    pub wrong: Option<usize>,
}

impl Fields {
    fn with(self, field: Field, value: u32) -> Fields
        ensures { result ≡ put (digit_of field) value self }
    {
        match field {
            Field::Rd => Fields { rd: value, ..self },
            Field::Rs1 => Fields { rs1: value, ..self },
            Field::Rs2 => Fields { rs2: value, ..self },
            Field::Imm => Fields { imm: value, ..self },
        }
    }

    fn with_wrong(self, at: usize) -> Fields
        ensures { result ≡ fault at self }
    {
        Fields {
            wrong: self.wrong.or(Some(at)),
            ..self
        }
    }

    // After a number that begins at a place, and that has a value or is none that numbers have.
    fn after_number(self, operation: u8, field: Field, at: usize, number: Option<u32>) -> Fields
        ensures { result ≡ taken_number operation (digit_of field) at number self }
    {
        match number {
            Some(value) if is_allowed(operation, field, value) => self.with(field, value),
            _ => self.with_wrong(at),
        }
    }
}

// How far a line was read: the place, and the fields so far.
#[derive(Clone, Copy)]
pub struct Cursor {
    pub at: usize,
    pub fields: Fields,
}

// A line that was read: with c: or not, its operation, by its place in the table of lines, its fields and
// the place after it.
#[derive(Clone, Copy)]
pub struct Reading {
    pub short: bool,
    pub operation: u8,
    pub fields: Fields,
    pub end: usize,
}

impl Cursor {
    // The line of an operation that ends here.
    fn line(self, short: bool, operation: u8) -> Reading
        ensures { result ≡ reading short operation self }
    {
        Reading {
            short,
            operation,
            fields: self.fields,
            end: self.at,
        }
    }
}

// Whether an operation takes a value in a field.
fn is_allowed(operation: u8, field: Field, value: u32) -> bool
    ensures { result ≡ allowed_value operation (digit_of field) value }
{
    match field {
        Field::Imm => in_range(built(operation, Reg::ZERO, Reg::ZERO, Reg::ZERO, value)),
        Field::Rd | Field::Rs1 | Field::Rs2 => value < 32,
    }
}

// Whether a byte stands at a place.
fn stands(text: &[u8], at: usize, byte: u8) -> bool
    ensures { result ≡ starts_with byte (drop at text.now) }
{
    text.get(at) == Some(&byte)
}

// Over the number of a field, or the place of a byte that can't go on.
fn over_field(text: &[u8], cursor: Cursor, operation: u8, field: Field) -> Result<Cursor, usize>
    requires { cursor.at ≤ length text.now }
    ensures { result ≡ over_field operation (digit_of field) (drop cursor.at text.now) cursor.at cursor.fields }
{
    let number = read_number(text, cursor.at, field.number())?;
    Ok(Cursor {
        at: number.end,
        fields: cursor
            .fields
            .after_number(operation, field, cursor.at, number.value),
    })
}

// Along the line of an operation, from a place of the text on; or the place of a byte that can't go
// on.
fn follow(text: &[u8], from: usize, operation: u8) -> Result<Cursor, usize>
    requires { (from ≤ length text.now) × (operation < 48) }
    ensures { result ≡ along operation (sample_line operation) text.now (At from no_fields) }
{
    let mut cursor = Cursor {
        at: from,
        fields: Fields::default(),
    };
    for &piece in sample_line(operation) {
        match Field::of_sample(piece) {
            Some(field) => cursor = over_field(text, cursor, operation, field)?,
            None if stands(text, cursor.at, piece) => cursor.at += 1,
            None => return Err(cursor.at),
        }
    }
    Ok(cursor)
}

// The line that one of the operations reads from a place on, or the place that none goes beyond.
fn among(text: &[u8], from: usize, short: bool) -> Result<Reading, usize>
    requires { from ≤ length text.now }
    ensures { result ≡ among_from short from 48 text.now }
{
    let mut furthest = 0;
    for operation in 0..48 {
        match follow(text, from, operation) {
            Ok(cursor) => return Ok(cursor.line(short, operation)),
            Err(at) => furthest = at.max(furthest),
        }
    }
    Err(furthest)
}

// How many bytes of c: are in front.
fn prefix(text: &[u8]) -> usize
    ensures { result ≡ prefix text.now }
{
    match text {
        [b'c', b':', ..] => 2,
        [b'c', ..] => 1,
        _ => 0,
    }
}

// For each sum that `guess` makes of a line's first bytes the operation whose name makes it, and 0
// where none does. The sample lines decide what is read: a name that this table misses makes its
// lines slow, not wrong.
const GUESSES: [u8; 128] = *b"\
    \x00\x00\x00\x14\x00\x08\x00\x00\x00\x00\x00\x03\x00\x00\x2e\x2d\
    \x00\x00\x25\x00\x00\x00\x1f\x16\x00\x26\x00\x00\x00\x00\x00\x1b\
    \x00\x1d\x00\x00\x0a\x00\x04\x00\x00\x00\x00\x0f\x12\x00\x18\x00\
    \x00\x00\x27\x2f\x00\x01\x07\x00\x00\x21\x00\x00\x0b\x00\x00\x28\
    \x00\x00\x00\x10\x00\x00\x19\x24\x00\x00\x29\x22\x0d\x00\x00\x2b\
    \x2a\x00\x05\x00\x17\x00\x00\x00\x1a\x00\x00\x09\x00\x00\x00\x00\
    \x06\x1c\x00\x00\x0e\x00\x00\x23\x00\x00\x2c\x00\x02\x00\x20\x00\
    \x00\x1e\x00\x00\x00\x00\x00\x00\x0c\x00\x00\x15\x00\x00\x13\x11";

// The low seven bits of the byte at a place, and 0 past the end.
fn low_bits(text: &[u8], at: usize) -> usize
    ensures { result < 128 }
{
    text.get(at).map_or(0, |byte| usize::from(*byte % 128))
}

// The operation that the line in front probably has. Of the fifth and the sixth byte only whether
// they are letters counts: digits of an operand may stand there.
fn guess(text: &[u8]) -> u8
    ensures { result < 48 }
{
    let two = low_bits(text, 0) + low_bits(text, 1) * 4;
    let four = two + low_bits(text, 2) * 10 + low_bits(text, 3) * 2;
    let six = four + low_bits(text, 4) / 64 * 6 + low_bits(text, 5) / 64;
    GUESSES[six % 128] % 48
}

// The first line of a text, sought among all operations, without c: and with it.
fn search(text: &[u8]) -> Result<Reading, usize>
    ensures { result ≡ first_line text.now }
{
    let plain = among(text, 0, false);
    let Err(stuck) = plain else {
        return plain;
    };
    let colon = prefix(text);
    if colon < 2 {
        return Err(colon.max(stuck));
    }
    among(text, 2, true).map_err(|at| at.max(stuck))
}

// The first line of a text, or the place of the first byte that can not continue a readable line. The
// guess reads most lines; only the search tells where one is stuck.
pub fn first_line(text: &[u8]) -> Result<Reading, usize>
    ensures { result ≡ first_line text.now }
{
    let short = prefix(text) == 2;
    let from = if short { 2 } else { 0 };
    let operation = guess(&text[from..]);
    match follow(text, from, operation) {
        Ok(cursor) => Ok(cursor.line(short, operation)),
        Err(_) => search(text),
    }
}
