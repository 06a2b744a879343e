// A buffer, and the place in it where the next byte goes. What is put goes in as far as the buffer reaches.
// Not by Display: of `write!` a caller knows the bytes only where all of them had room.
ghost use Rattle.std.specs.Prelude.{◌≡◌, ◌≤◌, length, drop};
ghost use Rattle.text.specs.Hex.{hex_text, lower};
ghost use Rattle.text.specs.Out.{out as Out·out, put_byte as Out·put_byte, Puts, decimal, decimal_in};

use crate::hex::glyph;

// The clauses `same` and `long` stand in each function that prints: a type's invariant cannot tie a value to the one it was, and each caller needs them as its own.
#[derive(Drop)]
pub struct Out<'a> {
    pub bytes: &'a mut [u8],
    pub at: usize,
}

// The next place. It goes by value from byte to byte: kept behind `&mut self` it is read and written back at each, and a number takes half as long again.
fn put_byte(bytes: &mut [u8], at: usize, b: u8) -> usize
    ensures { Out·out bytes.new result ≡ Out·put_byte (Out·out bytes.old at) b }
{
    if at < bytes.len() {
        bytes[at] = b;
        at + 1
    } else {
        at
    }
}

// A text, and the next place.
fn put_text(bytes: &mut [u8], at: usize, text: &[u8]) -> usize
    ensures { Puts bytes.old at text.now bytes.new result }
{
    let mut to = at;
    for b in text {
        to = put_byte(bytes, to, *b);
    }
    to
}

// Two digits for each byte, and the next place. Out of line: within its callers the loop costs an emission's answer a fifth more.
#[inline(never)]
fn put_octets(bytes: &mut [u8], at: usize, octets: &[u8]) -> usize
    ensures { Puts bytes.old at (lower octets.now) bytes.new result }
{
    let mut to = at;
    for b in octets {
        to = put_byte(bytes, to, glyph(*b / 16));
        to = put_byte(bytes, to, glyph(*b % 16));
    }
    to
}

// As many digits as a number of 64 bits can have.
const DIGITS: usize = 20;

// A number in its fewest digits, at most `places` of them, and the next place.
#[tactic(auto, unfolding(crate::specs::Out::put_all, crate::specs::Out::decimal_in))]
fn put_digits(bytes: &mut [u8], at: usize, n: u64, places: usize) -> usize
    ensures { Puts bytes.old at (decimal_in places n) bytes.new result }
{
    if places == 0 {
        return at;
    }
    if n < 10 {
        return put_byte(bytes, at, b'0' + n as u8);
    }
    let next = put_digits(bytes, at, n / 10, places - 1);
    put_byte(bytes, next, b'0' + (n % 10) as u8)
}

// A number's digits at the end of a row, from the last on, and the place of the first.
fn spell(n: u64, digits: &mut [u8; DIGITS]) -> usize
    ensures { (drop result digits.new ≡ decimal n) × (result ≤ 20) }
{
    let mut rest = n;
    for i in (0..DIGITS).rev() {
        digits[i] = b'0' + (rest % 10) as u8;
        rest /= 10;
        if rest == 0 {
            return i;
        }
    }
    0
}

impl<'a> Out<'a> {
    pub fn put(&mut self, text: &[u8])
        ensures same { self.new.bytes.ghost_name ≡ self.old.bytes.ghost_name }
        ensures long { length self.new.bytes.now ≡ length self.old.bytes.now }
        ensures after { Puts self.old.bytes.now self.old.at text.now self.new.bytes.now self.new.at }
    {
        self.at = put_text(self.bytes, self.at, text);
    }

    // By a row of its own: out of line, since a short number is not to pay for the row.
    #[inline(never)]
    fn put_row(&mut self, n: u64)
        ensures same { self.new.bytes.ghost_name ≡ self.old.bytes.ghost_name }
        ensures long { length self.new.bytes.now ≡ length self.old.bytes.now }
        ensures after { Puts self.old.bytes.now self.old.at (decimal n) self.new.bytes.now self.new.at }
    {
        let mut digits = [0; DIGITS];
        let first = spell(n, &mut digits);
        self.put(&digits[first..]);
    }

    // A number in its fewest digits. Two ways, by what they cost: a row is cheaper for ten digits, and dearer for three.
    pub fn put_decimal(&mut self, n: u64)
        ensures same { self.new.bytes.ghost_name ≡ self.old.bytes.ghost_name }
        ensures long { length self.new.bytes.now ≡ length self.old.bytes.now }
        ensures after { Puts self.old.bytes.now self.old.at (decimal n) self.new.bytes.now self.new.at }
    {
        if n < 1000 {
            self.at = put_digits(self.bytes, self.at, n, DIGITS);
        } else {
            self.put_row(n);
        }
    }

    // The bytes as HEX.
    pub fn put_hex(&mut self, bytes: &[u8])
        ensures same { self.new.bytes.ghost_name ≡ self.old.bytes.ghost_name }
        ensures long { length self.new.bytes.now ≡ length self.old.bytes.now }
        ensures after { Puts self.old.bytes.now self.old.at (hex_text bytes.now) self.new.bytes.now self.new.at }
    {
        if bytes.is_empty() {
            return self.put(b"-");
        }
        self.at = put_octets(self.bytes, self.at, bytes);
    }
}
