// The markers of document 01, 'Grids'.
ghost use Rattle.std.specs.Prelude.{◌≡◌};
ghost use Rattle.grids.specs.Markers.{marker_of, dot_size, is_plain, is_scalar, is_marker};

// The kind of the dots, and of the symbols that show them.
#[derive(Clone, Copy, PartialEq, Eq, Debug)]
pub enum Marker {
    Braille,
    Dot,
    Block,
    Bar,
    HalfBlock,
    Quadrant,
    Sextant,
    Custom,
}

// By the number, 1 to 8 in the order above. Any other counts as Dot, as in the Rust.
impl From<u8> for Marker {
    ghost from_gives = { λ number marker. marker ≡ marker_of number };

    #[tactic(auto, unfolding(crate::specs::Markers::marker_of))]
    fn from(number: u8) -> Marker {
        match number {
            1 => Marker::Braille,
            3 => Marker::Block,
            4 => Marker::Bar,
            5 => Marker::HalfBlock,
            6 => Marker::Quadrant,
            7 => Marker::Sextant,
            8 => Marker::Custom,
            _ => Marker::Dot,
        }
    }
}

// A number of columns and of rows.
#[derive(Clone, Copy)]
pub struct Size {
    pub columns: u32,
    pub rows: u32,
}

// The dots in a cell, across and down.
pub fn dot_size(marker: Marker) -> Size
    ensures { result ≡ dot_size marker }
{
    let (columns, rows) = match marker {
        Marker::Braille => (2, 4),
        Marker::HalfBlock => (1, 2),
        Marker::Quadrant => (2, 2),
        Marker::Sextant => (2, 3),
        Marker::Dot | Marker::Block | Marker::Bar | Marker::Custom => (1, 1),
    };
    Size { columns, rows }
}

// Whether a marker's cells are of one dot: not Braille, HalfBlock, Quadrant or Sextant.
pub fn is_plain(marker: Marker) -> bool
    ensures { result ≡ is_plain marker }
{
    matches!(
        marker,
        Marker::Dot | Marker::Block | Marker::Bar | Marker::Custom
    )
}

// Whether c is a Unicode scalar value: D7FF and E000 are, the numbers between are not.
pub fn is_scalar(c: u32) -> bool
    ensures { result ≡ is_scalar c }
{
    char::from_u32(c).is_some()
}

// Whether there is such a marker: 1 to 8, and 8 with a scalar value for its character. Of the number as it
// is given, since document 01 refuses one that is no marker.
#[tactic(auto, unfolding(crate::specs::Markers::is_marker))]
pub fn is_marker(marker: u8, character: u32) -> bool
    ensures { result ≡ is_marker marker character }
{
    match marker {
        8 => is_scalar(character),
        1..=7 => true,
        _ => false,
    }
}
