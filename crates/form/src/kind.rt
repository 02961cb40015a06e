// The kinds of records.
ghost use Rattle.form.specs.Kinds.{Decodes};

use refusals::refusal::Refusal;

#[derive(Clone, Copy, PartialEq, Eq, Debug)]
pub enum Kind {
    Line,
    FilledLine,
    Rectangle,
    Circle,
    Points,
    Layer,
    Marker,
    Label,
    Dot,
}

// The kind with this number, 1 to 9 in the order above.
impl TryFrom<u8> for Kind {
    type Error = Refusal;

    ghost try_from_gives = { Decodes };

    fn try_from(number: u8) -> Result<Kind, Refusal> {
        match number {
            1 => Ok(Kind::Line),
            2 => Ok(Kind::FilledLine),
            3 => Ok(Kind::Rectangle),
            4 => Ok(Kind::Circle),
            5 => Ok(Kind::Points),
            6 => Ok(Kind::Layer),
            7 => Ok(Kind::Marker),
            8 => Ok(Kind::Label),
            9 => Ok(Kind::Dot),
            _ => Err(Refusal::Kind),
        }
    }
}
