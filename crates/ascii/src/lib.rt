// Text in a room that the caller lends: bytes one after another, and numbers as text.
#![tactic(auto)]

ghost use Rattle.std.specs.Prelude.{◌≡◌, [], ◌∷◌, ◌+◌, ◌≤◌, length};
ghost use Rattle.ascii.specs.Numbers.{digit, decimal, signed_decimal, hex};
ghost use Rattle.ascii.specs.Rooms.{HasRoom, Appended};

// A room and how far it is written: what is put next stands from `at` on.
#[derive(Drop)]
pub struct Cursor<'a> {
    pub room: &'a mut [u8],
    pub at: usize,
}

impl Cursor<'_> {
    pub fn put(&mut self, byte: u8)
        requires { HasRoom self.old (byte ∷ []) }
        ensures { Appended self.old (byte ∷ []) self.new }
    {
        self.room[self.at] = byte;
        self.at += 1;
    }

    pub fn put_all(&mut self, text: &[u8])
        requires { HasRoom self.old text.now }
        ensures { Appended self.old text.now self.new }
    {
        let end = self.at + text.len();
        self.room[self.at..end].copy_from_slice(text);
        self.at = end;
    }

    pub fn put_decimal(&mut self, n: u32)
        requires { HasRoom self.old (decimal n) }
        ensures { Appended self.old (decimal n) self.new }
    {
        if n < 10 {
            self.put(b'0' + n as u8);
        } else {
            self.put_decimal(n / 10);
            self.put(b'0' + (n % 10) as u8);
        }
    }

    // A number in two's complement, with a minus sign where it is negative.
    pub fn put_signed(&mut self, n: u32)
        requires { HasRoom self.old (signed_decimal n) }
        ensures { Appended self.old (signed_decimal n) self.new }
    {
        if n < 0x8000_0000 {
            self.put_decimal(n);
        } else {
            self.put(b'-');
            self.put_decimal(n.wrapping_neg());
        }
    }

    // The last `count` digits of n in hexadecimal.
    pub fn put_hex(&mut self, n: u32, count: usize)
        requires { HasRoom self.old (hex count n) }
        ensures { Appended self.old (hex count n) self.new }
    {
        if count > 0 {
            self.put_hex(n / 16, count - 1);
            self.put(hex_digit(n % 16));
        }
    }
}

fn hex_digit(d: u32) -> u8
    requires { d + 1 ≤ 16 }
    ensures { result ≡ digit d }
{
    if d < 10 {
        b'0' + d as u8
    } else {
        b'a' + (d - 10) as u8
    }
}
