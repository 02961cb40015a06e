// The walk along a line from dot to dot: for_each_line_point of src/canvas/line.rs, as a value that
// gives its dots one after the other.
ghost use Rattle.std.specs.Prelude.{◌≡◌, ◌^◌, ◌<◌, pos, int_lt};
ghost use Rattle.std.specs.Int.Signed.{mag};
ghost use Rattle.walk.specs.Line.{starts_second, from_start};
ghost use Rattle.walk.specs.Walk.{first_decision, walk_of, count_of, moved, dot_of, next_decision, next_offset, small, step_of};

use crate::route::Route;

// The two ends of a line, in dots.
#[derive(Clone, Copy)]
pub struct Ends {
    pub x1: u16,
    pub y1: u16,
    pub x2: u16,
    pub y2: u16,
}

#[derive(Clone, Copy)]
pub struct Dot {
    pub column: u32,
    pub row: u32,
}

// A walk: its first dot, the longer and the shorter difference, whether it runs along the rows
// (`steep`) and downwards in number in the shorter direction (`back`); then the steps made, the
// offset in the shorter direction, and the decision value. Of `steep` and `back` each may stand without the other.
#[derive(Clone, Copy)]
pub struct Walk {
    pub x: u16,
    pub y: u16,
    pub long: u16,
    pub short: u16,
    pub steep: bool,
    pub back: bool,
    pub at: u16,
    pub offset: u16,
    pub d: i64,
}

// Whether the walk starts at the second end.
#[tactic(auto, unfolding(crate::specs::Line::starts_second))]
fn starts_second(e: Ends) -> bool
    ensures { result ≡ starts_second e }
{
    let dx = e.x1.abs_diff(e.x2);
    let dy = e.y1.abs_diff(e.y2);
    if dy < dx { e.x2 < e.x1 } else { e.y2 < e.y1 }
}

// The line with the end where its walk starts first.
#[tactic(auto, unfolding(crate::specs::Line::from_start))]
pub(crate) fn from_start(e: Ends) -> Ends
    ensures { result ≡ from_start e }
{
    if starts_second(e) {
        Ends {
            x1: e.x2,
            y1: e.y2,
            x2: e.x1,
            y2: e.y1,
        }
    } else {
        e
    }
}

fn first_decision(long: u16, short: u16) -> i64
    ensures { result ≡ first_decision long short }
{
    i64::from(2 * u32::from(short)) - i64::from(long)
}

fn is_above_zero(d: i64) -> bool
    ensures { result ≡ int_lt (pos 0) d }
{
    d > 0
}

// The decision value after a step: `if d > 0 { d -= 2 * dx; } d += 2 * dy;`.
#[tactic(auto, using(crate::proofs::Decision::from_bits), unfolding(crate::specs::Walk::next_decision))]
fn next_decision(d: i64, long: u16, short: u16) -> i64
    requires { mag d < 2 ^ 20 }
    ensures { result ≡ next_decision long short d }
{
    let more = i64::from(2 * u32::from(short));
    if is_above_zero(d) {
        d - i64::from(2 * u32::from(long)) + more
    } else {
        d + more
    }
}

// The offset after a step.
#[tactic(auto, unfolding(crate::specs::Walk::next_offset))]
fn next_offset(d: i64, offset: u16) -> u16
    requires { offset < 65535 }
    ensures { result ≡ next_offset d offset }
{
    if is_above_zero(d) { offset + 1 } else { offset }
}

// Whether d is far from an overflow. Of a walk from `new` it always is.
fn is_small(d: i64) -> bool
    ensures { result ≡ small d }
{
    (d > -1048577) & (d < 1048576)
}

// a moved by o, downwards in number if back, but not below 0.
fn moved_by(back: bool, a: u16, o: u16) -> u32
    ensures { result ≡ moved back a o }
{
    if back {
        u32::from(a.saturating_sub(o))
    } else {
        u32::from(a) + u32::from(o)
    }
}

impl Walk {
    // The walk between two ends, at its first dot.
    #[tactic(auto, using(crate::proofs::Decision::from_bits), unfolding(crate::specs::Walk::walk_of))]
    pub fn new(e: Ends) -> Walk
        ensures { result ≡ walk_of e }
    {
        let s = from_start(e);
        let dx = s.x1.abs_diff(s.x2);
        let dy = s.y1.abs_diff(s.y2);
        let long = dx.max(dy);
        let short = dx.min(dy);
        let shallow = dy < dx;
        let back = if shallow { s.y2 < s.y1 } else { s.x2 < s.x1 };
        let d = first_decision(long, short);
        Walk {
            x: s.x1,
            y: s.y1,
            long,
            short,
            steep: !shallow,
            back,
            at: 0,
            offset: 0,
            d,
        }
    }
}

impl Route for Walk {
    ghost count_of = { count_of };

    ghost dot_of = { dot_of };

    ghost next_of = { step_of };

    // How many dots the walk has.
    fn count(self) -> u32 {
        u32::from(self.long) + 1
    }

    // The dot that the walk is at.
    #[tactic(auto, unfolding(crate::specs::Walk::dot_of))]
    fn dot(self) -> Dot {
        let along = u32::from(self.at);
        if self.steep {
            Dot {
                column: moved_by(self.back, self.x, self.offset),
                row: u32::from(self.y) + along,
            }
        } else {
            Dot {
                column: u32::from(self.x) + along,
                row: moved_by(self.back, self.y, self.offset),
            }
        }
    }

    // The walk at its next dot; a walk at its end stays.
    #[tactic(auto, using(crate::proofs::Decision::from_bits), unfolding(crate::specs::Walk::step_of))]
    fn step(self) -> Walk {
        let near = is_small(self.d);
        let go = near & (self.at < self.long) & (self.offset < 65535);
        if go {
            let offset = next_offset(self.d, self.offset);
            let d = next_decision(self.d, self.long, self.short);
            Walk {
                at: self.at + 1,
                offset,
                d,
                ..self
            }
        } else {
            self
        }
    }
}
