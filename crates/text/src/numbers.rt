// Numbers in decimal and in hexadecimal capitals, the most significant digit first.
ghost use Rattle.std.specs.Prelude.{[], ◌∷◌, ◌++◌, ◌≡◌, ◌≤◌, ◌<◌};
ghost use Rattle.text.specs.Numbers.{digit_byte, digits, field, hexadecimal_field};
ghost use Rattle.text.specs.Writer.{Wrote};

use crate::writer::Writer;

// The character of a digit. By hand: std's Display says nothing of the bytes that it puts into lent memory.
fn digit(d: u8) -> u8
    requires { d < 16 }
    ensures { result ≡ digit_byte d }
{
    if d < 10 { b'0' + d } else { b'A' + (d - 10) }
}

impl Writer<'_> {
    // The digits of n in a base, at least `least` of them, with zeros in front, and the byte after them.
    // From base 10 on a number of 64 bits has at most 20.
    fn number<const BASE: u64>(&mut self, mut least: usize, mut n: u64, end: u8)
        requires base { (10 ≤ BASE) × (BASE ≤ 16) }
        requires few { least ≤ 20 }
        ensures { Wrote self.old (digits 19 BASE least n ++ (end ∷ [])) self.new }
    {
        // Into a buffer from its end, since a method that calls itself gets no proof where the struct has a lifetime;
        // how many digits there are is known only once they are taken. A digit goes by `as`, since a TryFrom would answer
        // an error that never comes.
        let mut buffer = [end; 21];
        let mut first = 19;
        while n >= BASE || least > 1 {
            buffer[first] = digit((n % BASE) as u8);
            n /= BASE;
            least = least.saturating_sub(1);
            first -= 1;
        }
        buffer[first] = digit(n as u8);
        self.bytes(&buffer[first..]);
    }

    // A decimal number and the byte after it.
    pub(crate) fn field(&mut self, n: u64, end: u8)
        ensures { Wrote self.old (field n end) self.new }
    {
        self.number::<10>(0, n, end);
    }

    // A hexadecimal number of at least four digits and the byte after it.
    pub(crate) fn hexadecimal_field(&mut self, n: u64, end: u8)
        ensures { Wrote self.old (hexadecimal_field n end) self.new }
    {
        self.number::<16>(4, n, end);
    }
}
