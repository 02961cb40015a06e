// The fields of a picture file, little-endian, read from a part of the file. A field whose bit does
// not stand in the map takes no byte and has its default; one that the part cuts short counts 0.
ghost use Rattle.std.specs.Prelude.{◌≡◌, ℕ, ◌+◌, ◌*◌, ◌%◌, ◌^◌, ◌<◌, ◌≤◌, cond, not, length, Some, None, unwrap_or};
ghost use Rattle.floats.specs.Arithmetic.{bits};
ghost use Rattle.floats.specs.Domain.{in_domain};
ghost use Rattle.form.specs.Fields.{bits_of, little, number_at, stands, width_in, float_in};

// The bytes at a place, or zeros where the part ends inside them.
// A slice and a place: a struct of both would be made for each field.
fn bytes_at<const N: usize>(part: &[u8], at: usize) -> [u8; N]
    ensures { little result 0 N ≡ number_at part.now at N }
{
    let mut bytes = [0; N];
    if at <= part.len() && N <= part.len() - at {
        bytes.copy_from_slice(&part[at..at + N]);
    }
    bytes
}

// What a field holds: the number in its bytes, or what that number says. One impl for each number, alike but for
// the type: no trait of the library has `from_le_bytes`, and no macro may write an impl here.
pub trait FieldValue: Copy {
    ghost WIDTH: { ℕ };

    ghost valued: { ℕ → Self };

    const WIDTH: usize;

    fn read(part: &[u8], at: usize) -> Self
        ensures { result ≡ valued (number_at part.now at WIDTH) };
}

impl FieldValue for u8 {
    ghost WIDTH = { 1 };

    ghost valued = { λ n. n };

    const WIDTH: usize = 1;

    fn read(part: &[u8], at: usize) -> u8 {
        u8::from_le_bytes(bytes_at(part, at))
    }
}

impl FieldValue for u16 {
    ghost WIDTH = { 2 };

    ghost valued = { λ n. n };

    const WIDTH: usize = 2;

    fn read(part: &[u8], at: usize) -> u16 {
        u16::from_le_bytes(bytes_at(part, at))
    }
}

impl FieldValue for u32 {
    ghost WIDTH = { 4 };

    ghost valued = { λ n. n };

    const WIDTH: usize = 4;

    fn read(part: &[u8], at: usize) -> u32 {
        u32::from_le_bytes(bytes_at(part, at))
    }
}

impl FieldValue for u64 {
    ghost WIDTH = { 8 };

    ghost valued = { λ n. n };

    const WIDTH: usize = 8;

    fn read(part: &[u8], at: usize) -> u64 {
        u64::from_le_bytes(bytes_at(part, at))
    }
}

impl FieldValue for f64 {
    ghost WIDTH = { 8 };

    ghost valued = { bits };

    const WIDTH: usize = 8;

    fn read(part: &[u8], at: usize) -> f64 {
        from_bits(u64::read(part, at))
    }
}

// The float with these bits; each NaN pattern is the NaN.
pub fn from_bits(n: u64) -> f64
    ensures { result ≡ bits n }
{
    if n % 9223372036854775808 > 9218868437227405312 {
        return f64::NAN;
    }
    f64::from_bits(n)
}

// The bits of a float; a NaN's are those of the quiet one.
pub fn to_bits(x: f64) -> u64
    ensures { (result ≡ bits_of x) × (bits result ≡ x) }
{
    if x == x {
        return f64::to_bits(x);
    }
    9221120237041090560
}

// Whether the float with these bits is outside the domain. Without the sign bit a float's bits grow with
// it, those of 2^40 are the last in the domain, and a NaN's are above all.
#[tactic(auto, using(crate::proofs::Bits::far_above))]
pub fn is_far(n: u64) -> bool
    ensures { result ≡ not (in_domain (bits n)) }
{
    n % 9223372036854775808 > 4787326403894837248
}

// Whether the bit of this weight stands in a map.
#[tactic(auto, unfolding(crate::specs::Fields::stands))]
pub fn has(map: u8, weight: u8) -> bool
    ensures { 1 ≤ weight → result ≡ stands map weight }
{
    weight != 0 && map / weight % 2 == 1
}

// What follows an opening's size or a record's kind: the map of the fields that stand, and the bytes from the
// first of them on.
#[derive(Clone, Copy)]
pub struct Part<'a> {
    pub map: u8,
    pub bytes: &'a [u8],
}

// The fields of such a part, read one after the other: the next has the bit of this weight, and stands at this
// place.
#[derive(Clone, Copy)]
pub struct Fields<'a> {
    pub part: &'a [u8],
    pub map: u8,
    pub at: usize,
    pub weight: u8,
}

impl<'a> Fields<'a> {
    pub fn new(part: Part<'a>) -> Fields<'a>
        ensures { result ≡ record { part = part.entry.bytes; map = part.entry.map; at = 0; weight = 1 } }
    {
        Fields {
            part: part.bytes,
            map: part.map,
            at: 0,
            weight: 1,
        }
    }

    // The next field, if it stands.
    pub fn optional<T: FieldValue>(&mut self) -> Option<T>
        ensures value { 1 ≤ self.old.weight → result ≡ cond (stands self.old.map self.old.weight) (Some (T.valued (number_at self.old.part.now self.old.at T.WIDTH))) None }
        ensures after { 1 ≤ self.old.weight → self.old.at + T.WIDTH < 2 ^ 64 → self.new ≡ record { part = self.old.part; map = self.old.map; at = self.old.at + width_in self.old.map self.old.weight T.WIDTH; weight = self.old.weight * 2 % 256 } }
    {
        let stands = has(self.map, self.weight);
        self.weight = self.weight.wrapping_mul(2);
        if !stands {
            return None;
        }
        let value = T::read(self.part, self.at);
        self.at = self.at.wrapping_add(T::WIDTH);
        Some(value)
    }

    // The same with a default.
    pub fn next<T: FieldValue>(&mut self, absent: T) -> T
        ensures value { 1 ≤ self.old.weight → result ≡ cond (stands self.old.map self.old.weight) (T.valued (number_at self.old.part.now self.old.at T.WIDTH)) absent }
        ensures after { 1 ≤ self.old.weight → self.old.at + T.WIDTH < 2 ^ 64 → self.new ≡ record { part = self.old.part; map = self.old.map; at = self.old.at + width_in self.old.map self.old.weight T.WIDTH; weight = self.old.weight * 2 % 256 } }
    {
        self.optional().unwrap_or(absent)
    }

    // A float has the default 0.0.
    pub fn real(&mut self) -> f64
        ensures value { 1 ≤ self.old.weight → result ≡ float_in self.old.part.now self.old.at self.old.map self.old.weight }
        ensures after { 1 ≤ self.old.weight → self.old.at + 8 < 2 ^ 64 → self.new ≡ record { part = self.old.part; map = self.old.map; at = self.old.at + width_in self.old.map self.old.weight 8; weight = self.old.weight * 2 % 256 } }
    {
        self.next(0.0)
    }
}
