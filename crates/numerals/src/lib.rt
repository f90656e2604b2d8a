// The numbers of a line: digits, with a minus where the field may have one.
#![tactic(auto)]

ghost use Rattle.std.specs.Prelude.{◌≡◌, ◌≤◌, length, drop};
ghost use Rattle.assembly.specs.Lines.{minus};
ghost use Rattle.numerals.specs.Numbers.{grown, digits_at, tidy, number_at, digit_of, field_in};

// What a number of a line is for.
#[derive(Clone, Copy)]
pub enum Field {
    Rd = 1,
    Rs1 = 2,
    Rs2 = 3,
    Imm = 4,
}

impl Field {
    // The field whose number a byte of a sample line stands for.
    pub fn of_sample(byte: u8) -> Option<Field>
        ensures { result ≡ field_in byte }
    {
        match byte {
            b'1' => Some(Field::Rd),
            b'2' => Some(Field::Rs1),
            b'3' => Some(Field::Rs2),
            b'4' => Some(Field::Imm),
            _ => None,
        }
    }

    pub fn number(self) -> u8
        ensures { result ≡ digit_of self }
    {
        self as u8
    }
}

// Digits that were read: the place after them, and their value.
#[derive(Clone, Copy)]
pub struct Digits {
    pub end: usize,
    pub value: u64,
}

// A number that was read: the place after it, and its value if it is written as numbers are and has
// 32 bits.
#[derive(Clone, Copy)]
pub struct Number {
    pub end: usize,
    pub value: Option<u32>,
}

// A value with one digit more. From 32 bits on it stays. A digit's low four bits are its value: with the
// difference to 0, which the test for a digit makes too, each turn waits for a product that is not taken.
fn with_digit(value: u64, digit: u8) -> u64
    requires { (48 ≤ digit) × (digit ≤ 57) }
    ensures { result ≡ grown value digit }
{
    if value < 0x1_0000_0000 {
        return value * 10 + (digit % 16) as u64;
    }
    value
}

// The digits from a place on.
fn read_digits(text: &[u8], from: usize) -> Digits
    requires { from ≤ length text.now }
    ensures { result ≡ digits_at from (drop from text.now) }
{
    let mut end = from;
    let mut value = 0;
    for b in &text[from..] {
        if !b.is_ascii_digit() {
            break;
        }
        value = with_digit(value, *b);
        end += 1;
    }
    Digits { end, value }
}

// The length of the minus sign at a place, 1 or 0. Only an immediate, field 4, may have one.
fn sign_length(text: &[u8], at: usize, field: u8) -> usize
    ensures { result ≡ minus field (drop at text.now) }
{
    if field == Field::Imm as u8 && text.get(at) == Some(&b'-') {
        1
    } else {
        0
    }
}

// No leading zero and no minus on zero: the first digit is 0 only in a number of one byte.
fn is_tidy(first: u8, length: usize) -> bool
    ensures { result ≡ tidy first length }
{
    first != b'0' || length == 1
}

// The number of a field from a place on, or the place where its first digit is missing. The field is any
// number: all but 4 are read without a minus.
pub fn read_number(text: &[u8], from: usize, field: u8) -> Result<Number, usize>
    requires { from ≤ length text.now }
    ensures { result ≡ number_at field from (drop from text.now) }
{
    let sign = sign_length(text, from, field);
    let first = from + sign;
    let Digits { end, value } = read_digits(text, first);
    if end == first {
        return Err(end);
    }
    let fits = value < 0x8000_0000 + sign as u64;
    let value = if !(is_tidy(text[first], end - from) & fits) {
        None
    } else if sign == 1 {
        Some((value as u32).wrapping_neg())
    } else {
        Some(value as u32)
    };
    Ok(Number { end, value })
}
