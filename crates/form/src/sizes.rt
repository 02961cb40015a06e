// How many bytes the fields of a record take, and what its form is refused with.
ghost use Rattle.std.specs.Prelude.{◌≡◌, ◌+◌, ◌*◌, ◌^◌, ◌<◌, ◌≤◌, cond, length, nat_le, sum, IfOk};
ghost use Rattle.refusals.specs.Refusals.{number_in};
ghost use Rattle.form.specs.Fields.{number_at, place_of, size_by};
ghost use Rattle.form.specs.Forms.{points_widths, pair_count, text_place, widths_of, record_end, record_form};
ghost use Rattle.form.specs.Kinds.{kind_number};

use crate::fields::{FieldValue, Part, has};
use crate::kind::Kind;
use refusals::refusal::Refusal;

// The bytes of the fields that stand, of fields of these widths.
#[inline]
fn size(map: u8, widths: &[usize]) -> usize
    requires few { length widths.now ≤ 8 }
    requires short { sum widths.now < 2 ^ 32 }
    ensures value { result ≡ size_by map widths.now }
    ensures bound { result ≤ sum widths.now }
{
    let mut end = 0;
    for (k, width) in widths.iter().enumerate() {
        if has(map, 1 << k) {
            end += *width;
        }
    }
    end
}

// The same, where no other bit stands.
#[inline]
fn whole_size(map: u8, widths: &[usize]) -> Result<usize, Refusal>
    requires few { length widths.now < 8 }
    requires short { sum widths.now < 2 ^ 32 }
    ensures number { number_in result ≡ cond (nat_le (2 ^ length widths.now) map) 16 0 }
    ensures value { IfOk result (λ n. n ≡ size_by map widths.now) }
{
    if map >= 1 << widths.len() {
        return Err(Refusal::Map);
    }
    Ok(size(map, widths))
}

// A text's length, in the byte at a place.
pub fn text_length(part: &[u8], at: usize) -> usize
    ensures { (result ≡ number_at part.now at 1) × (result < 256) }
{
    usize::from(u8::read(part, at))
}

// The bytes of a list of pairs, with its count.
fn list_width(part: &[u8]) -> usize
    ensures { (result ≡ 2 + 16 * number_at part.now 0 2) × (result < 2097152) }
{
    2 + 16 * usize::from(u16::read(part, 0))
}

impl Part<'_> {
    // How many pairs a points record has, and where its list ends.
    pub fn pair_count(self) -> usize
        ensures { result ≡ pair_count self.entry.map self.entry.bytes.now }
    {
        if has(self.map, 1) {
            return usize::from(u16::read(self.bytes, 0));
        }
        0
    }

    pub fn list_end(self) -> usize
        ensures { (result ≡ place_of self.entry.map (points_widths self.entry.bytes.now) 1) × (result < 2097152) }
    {
        size(self.map, &[list_width(self.bytes)])
    }
}

// Where a label's text begins, with its length.
pub fn text_place(map: u8) -> usize
    ensures { (result ≡ text_place map) × (result ≤ 20) }
{
    size(map, &[8, 8, 4])
}

// The bytes of the fields that stand, of a record of this kind.
#[tactic(auto, unfolding(crate::specs::Forms::widths_of))]
fn fields_size(kind: Kind, part: Part<'_>) -> Result<usize, Refusal>
    ensures number { number_in result ≡ cond (nat_le (2 ^ length (widths_of (kind_number kind) part.entry.map part.entry.bytes.now)) part.entry.map) 16 0 }
    ensures value { IfOk result (λ n. n ≡ size_by part.entry.map (widths_of (kind_number kind) part.entry.map part.entry.bytes.now)) }
{
    let map = part.map;
    match kind {
        Kind::Line => whole_size(map, &[8, 8, 8, 8, 4]),
        Kind::FilledLine => whole_size(map, &[8, 8, 8, 8, 8, 4]),
        Kind::Rectangle => whole_size(map, &[8, 8, 8, 8, 4]),
        Kind::Circle => whole_size(map, &[8, 8, 8, 4]),
        Kind::Points => whole_size(map, &[list_width(part.bytes), 4]),
        Kind::Layer => whole_size(map, &[]),
        Kind::Marker => whole_size(map, &[1, 4]),
        Kind::Label => {
            let text = text_length(part.bytes, text_place(map));
            whole_size(map, &[8, 8, 4, 1 + text])
        }
        Kind::Dot => whole_size(map, &[4, 4, 4]),
    }
}

// The end of the record at a place, or what its form is refused with: 17, 14, 15, 16, 14.
pub fn record_form(file: &[u8], at: usize) -> Result<usize, Refusal>
    ensures number { number_in result ≡ record_form file.now at }
    ensures end { IfOk result (λ end. end ≡ record_end file.now at) }
{
    if file.len() > 65536 {
        return Err(Refusal::Length);
    }
    if at > 65536 || file.len() < at + 2 {
        return Err(Refusal::Cut);
    }
    let kind = Kind::try_from(file[at])?;
    let part = Part {
        map: file[at + 1],
        bytes: &file[at + 2..],
    };
    let size = fields_size(kind, part)?;
    if part.bytes.len() < size {
        return Err(Refusal::Cut);
    }
    Ok(at + 2 + size)
}
