// What a step that is not refused answers, and how it is printed.
use canvas::calls::Rendered;
use form::fields::to_bits;
use ledger::state::Canvas;
use std::fmt;

#[derive(Clone, Copy)]
pub enum Answer {
    Painted(u64),
    Done,
    Rendered(Rendered),
    Dot(Option<(u16, u16)>),
    Lent,
    Scratch(usize),
    Set,
    Canvas(Canvas),
    Digest(u64),
    Stores(u64),
    Unknown,
}

impl fmt::Display for Answer {
    fn fmt<W: fmt::Write>(&self, f: &mut fmt::Formatter<W>) -> fmt::Result {
        match *self {
            Answer::Painted(n) => write!(f, "painted {n}"),
            Answer::Done => f.write_str("done"),
            Answer::Rendered(r) => write!(f, "rendered {} labels {}", r.painted, r.label_cells),
            Answer::Dot(Some((column, row))) => write!(f, "dot {column} {row}"),
            Answer::Dot(None) => f.write_str("none"),
            Answer::Lent => f.write_str("lent"),
            Answer::Scratch(length) => write!(f, "scratch {length}"),
            Answer::Set => f.write_str("set"),
            Answer::Canvas(canvas) => write_canvas(f, canvas),
            Answer::Digest(digest) => write!(f, "digest {digest}"),
            Answer::Stores(digest) => write!(f, "stores {digest}"),
            Answer::Unknown => f.write_str("unknown"),
        }
    }
}

// The fields in the order of step 30.
fn write_canvas<W: fmt::Write>(f: &mut fmt::Formatter<W>, c: Canvas) -> fmt::Result {
    let b = c.bounds;
    write!(f, "canvas {} {}", c.columns, c.rows)?;
    write!(f, " {:016X} {:016X}", to_bits(b.left), to_bits(b.right))?;
    write!(f, " {:016X} {:016X}", to_bits(b.bottom), to_bits(b.top))?;
    write!(f, " {} {} {}", c.marker, c.character, c.background)?;
    write!(f, " {} {}", u8::from(c.dirty), u8::from(c.rendered))?;
    write!(f, " {} {} {}", c.labels, c.draws, c.painted)
}
