// Pieces of a printed line: a byte, a text, a byte in hexadecimal, a number in decimal. A `Page` is a lent buffer whose front is text;
// each piece goes behind it. The `requires` ask for the most bytes that a text can take, and the `ensures` give that bound back.
#![tactic(auto)]

ghost use Rattle.std.specs.Prelude.{◌≡◌, [], ◌∷◌, ◌+◌, ◌*◌, ◌<◌, ◌≤◌, length, take};
ghost use Rattle.text.specs.Text.{digit, bytes_text, decimal};
ghost use Rattle.text.specs.Wrote.{Wrote};
ghost use Rattle.text.specs.Appended.{Appended};

use itoa::Buffer;

fn digit_of(value: u8) -> u8
    requires { value < 16 }
    ensures { result ≡ digit value }
{
    b"0123456789abcdef"[usize::from(value)]
}

// Bytes in hexadecimal at a place of a buffer, each after a space, and the place past them. It is here and not in `put_bytes`, since the
// compiler loads and stores a page's `used` for every byte (docs/DESIGN-PASS.md, 'Speed'). By `write!` there would be an error to answer
// for, which a buffer with room for the digits never has.
fn write_bytes(out: &mut [u8], at: usize, bytes: &[u8]) -> usize
    requires { at + 3 * length bytes.now ≤ length out.old }
    ensures written { Wrote out.old at (bytes_text bytes.now) out.new result }
    ensures size { result ≡ at + 3 * length bytes.now }
{
    let mut place = at;
    for byte in bytes {
        out[place] = b' ';
        out[place + 1] = digit_of(byte / 16);
        out[place + 2] = digit_of(byte % 16);
        place += 3;
    }
    place
}

// A lent buffer, and how many bytes of its front are text.
#[derive(Drop)]
pub struct Page<'a> {
    bytes: &'a mut [u8],
    used: usize,
}

impl<'a> Page<'a> {
    // No text stands on it yet.
    pub fn new(bytes: &'a mut [u8]) -> Self
        ensures bytes { result.bytes.now ≡ bytes.old }
        ensures used { result.used ≡ 0 }
        ensures same_buffer { result.bytes.ghost_name ≡ bytes.entry.ghost_name }
    {
        Page { bytes, used: 0 }
    }
}

impl Page<'_> {
    pub fn text(&self) -> &[u8]
        requires { self.now.used ≤ length self.now.bytes.now }
        ensures { result.now ≡ take self.now.used self.now.bytes.now }
    {
        &self.bytes[..self.used]
    }

    // How many bytes are left for more text.
    pub fn room(&self) -> usize
        requires { self.now.used ≤ length self.now.bytes.now }
        ensures { self.now.used + result ≡ length self.now.bytes.now }
    {
        self.bytes.len() - self.used
    }

    // No text stands on it any more.
    pub fn clear(&mut self)
        ensures used { self.new.used ≡ 0 }
        ensures bytes { self.new.bytes.now ≡ self.old.bytes.now }
        ensures same_buffer { self.new.bytes.ghost_name ≡ self.old.bytes.ghost_name }
    {
        self.used = 0;
    }

    pub fn put(&mut self, byte: u8)
        requires { self.old.used < length self.old.bytes.now }
        ensures { Appended self.old (byte ∷ []) self.new }
    {
        self.bytes[self.used] = byte;
        self.used += 1;
    }

    pub fn put_text(&mut self, text: &[u8])
        requires { self.old.used + length text.now ≤ length self.old.bytes.now }
        ensures { Appended self.old text.now self.new }
    {
        let end = self.used + text.len();
        self.bytes[self.used..end].copy_from_slice(text);
        self.used = end;
    }

    // Each byte after a space.
    pub fn put_bytes(&mut self, bytes: &[u8])
        requires { self.old.used + 3 * length bytes.now ≤ length self.old.bytes.now }
        ensures written { Appended self.old (bytes_text bytes.now) self.new }
        ensures size { self.new.used ≡ self.old.used + 3 * length bytes.now }
    {
        self.used = write_bytes(self.bytes, self.used, bytes);
    }

    pub fn put_decimal(&mut self, number: usize)
        requires { (self.old.used + 5 ≤ length self.old.bytes.now) × (number < 100000) }
        ensures written { Appended self.old (decimal number) self.new }
        ensures size { self.new.used ≤ self.old.used + 5 }
    {
        self.put_text(Buffer::new().format(number).as_bytes());
    }
}
