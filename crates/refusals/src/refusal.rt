// Document 01's refusals: 'Calls and refusals, in order', and those of the picture file.
ghost use Rattle.std.specs.Prelude.{◌≡◌};
ghost use Rattle.refusals.specs.Refusals.{number_of};

#[derive(Clone, Copy, PartialEq, Eq, Debug)]
pub enum Refusal {
    Size, // not 1 to 200 columns and 1 to 100 rows
    Number, // a bound or a coordinate outside the domain
    Colour, // a colour above Reset
    Marker, // a marker not 1 to 8, or 8 with no scalar value
    Canvas, // a canvas with a field outside the domain, or a store that is too short
    Rendered, // a canvas that was rendered
    Draws, // no draw or dot more is taken
    Pairs, // more than 1,000 pairs
    Outside, // a dot outside a HalfBlock grid
    Text, // a text of more than 40 bytes, or a byte outside 20 to 7E
    Labels, // no label more is taken
    Edge, // the area passes an edge of the screen
    Screen, // a screen of another number of cells
    Cut, // a file that ends inside a record
    Kind, // no such kind of record
    Map, // a bit of the map that has no field
    Length, // a file of more than 65,536 bytes
}

// The number, 1 to 17 in the order above.
impl From<Refusal> for u8 {
    ghost from_gives = { λ refusal number. number ≡ number_of refusal };

    fn from(refusal: Refusal) -> u8 {
        match refusal {
            Refusal::Size => 1,
            Refusal::Number => 2,
            Refusal::Colour => 3,
            Refusal::Marker => 4,
            Refusal::Canvas => 5,
            Refusal::Rendered => 6,
            Refusal::Draws => 7,
            Refusal::Pairs => 8,
            Refusal::Outside => 9,
            Refusal::Text => 10,
            Refusal::Labels => 11,
            Refusal::Edge => 12,
            Refusal::Screen => 13,
            Refusal::Cut => 14,
            Refusal::Kind => 15,
            Refusal::Map => 16,
            Refusal::Length => 17,
        }
    }
}
