// Clipping by the rule of document 01, 'Clipping (stand-in)', which is Cohen and Sutherland's.
ghost use Rattle.std.specs.Prelude.{◌≡◌};
ghost use Rattle.floats.specs.Arithmetic.{◌⊕◌, ◌⊖◌, ◌⊗◌, ◌⊘◌};
ghost use Rattle.walk.specs.Clip.{sides_of, outside, common, on_vertical, on_horizontal, cut_point, cut_of, clip_of};

// The bounds of a canvas, each included.
#[derive(Clone, Copy)]
pub struct Bounds {
    pub left: f64,
    pub right: f64,
    pub bottom: f64,
    pub top: f64,
}

// A line's two ends.
#[derive(Clone, Copy)]
pub struct Segment {
    pub x1: f64,
    pub y1: f64,
    pub x2: f64,
    pub y2: f64,
}

// The part of a line inside the bounds, if there is one, and the number of cuts made.
#[derive(Clone, Copy)]
pub struct Clipped {
    pub line: Option<Segment>,
    pub cuts: u32,
}

// The sides of the bounds beyond which an end lies: flags, since two of the four may be met.
#[derive(Clone, Copy)]
struct Sides {
    left: bool,
    right: bool,
    bottom: bool,
    top: bool,
}

// A point by its coordinates: a pair of a Points is one.
#[derive(Clone, Copy)]
pub struct Pair {
    pub x: f64,
    pub y: f64,
}

// The sides of the bounds beyond which a point lies.
#[tactic(auto, unfolding(crate::specs::Clip::sides_of))]
fn sides_of(b: Bounds, x: f64, y: f64) -> Sides
    ensures { result ≡ sides_of b x y }
{
    let left = x < b.left;
    let bottom = y < b.bottom;
    Sides {
        left,
        right: !left & (x > b.right),
        bottom,
        top: !bottom & (y > b.top),
    }
}

// Whether an end has a side.
#[tactic(auto, unfolding(crate::specs::Clip::outside))]
fn has_side(s: Sides) -> bool
    ensures { result ≡ outside s }
{
    s.left | s.right | s.bottom | s.top
}

// Whether two ends have a side in common.
#[tactic(auto, unfolding(crate::specs::Clip::common))]
fn side_in_common(s: Sides, t: Sides) -> bool
    ensures { result ≡ common s t }
{
    (s.left & t.left) | (s.right & t.right) | (s.bottom & t.bottom) | (s.top & t.top)
}

// How far up a line is at `to` across, or how far across at `to` up: multiplied before divided.
fn met(from: f64, end: f64, across: f64, far: f64, to: f64) -> f64
    ensures { result ≡ from ⊕ (end ⊖ from) ⊗ (to ⊖ across) ⊘ (far ⊖ across) }
{
    from + (end - from) * (to - across) / (far - across)
}

// Where the line meets the upright at x.
fn on_vertical(s: Segment, x: f64) -> Pair
    ensures { result ≡ on_vertical s x }
{
    let y = met(s.y1, s.y2, s.x1, s.x2, x);
    Pair { x, y }
}

// Where the line meets the level at y.
fn on_horizontal(s: Segment, y: f64) -> Pair
    ensures { result ≡ on_horizontal s y }
{
    let x = met(s.x1, s.x2, s.y1, s.y2, y);
    Pair { x, y }
}

// Where an end with these sides is cut: at its first side in the order left, right, bottom, top.
#[tactic(auto, unfolding(crate::specs::Clip::cut_point))]
fn cut_point(b: Bounds, s: Segment, end: Sides) -> Pair
    ensures { result ≡ cut_point b s end }
{
    if end.left {
        on_vertical(s, b.left)
    } else if end.right {
        on_vertical(s, b.right)
    } else if end.bottom {
        on_horizontal(s, b.bottom)
    } else {
        on_horizontal(s, b.top)
    }
}

// The line with its first end cut if that has a side, else with its second.
#[tactic(auto, unfolding(crate::specs::Clip::cut_of))]
fn cut(b: Bounds, s: Segment, first: Sides, second: Sides) -> Segment
    ensures { result ≡ cut_of b s first second }
{
    if has_side(first) {
        let p = cut_point(b, s, first);
        Segment {
            x1: p.x,
            y1: p.y,
            ..s
        }
    } else {
        let p = cut_point(b, s, second);
        Segment {
            x2: p.x,
            y2: p.y,
            ..s
        }
    }
}

// The part of a line with an end outside, by the rule.
#[tactic(auto, using(crate::proofs::Clipping::clipping))]
fn clip_outside(b: Bounds, line: Segment) -> Clipped
    ensures { result ≡ clip_of b line }
{
    let mut s = line;
    for cuts in 0..8 {
        let first = sides_of(b, s.x1, s.y1);
        let second = sides_of(b, s.x2, s.y2);
        let clipped = has_side(first) | has_side(second);
        if !clipped {
            return Clipped {
                line: Some(s),
                cuts,
            };
        }
        if side_in_common(first, second) {
            return Clipped { line: None, cuts };
        }
        s = cut(b, s, first, second);
    }
    // eight cuts made
    let clipped = is_outside(b, s.x1, s.y1) | is_outside(b, s.x2, s.y2);
    Clipped {
        line: if clipped { None } else { Some(s) },
        cuts: 8,
    }
}

// Whether a point has a side, with no need to know which.
#[tactic(auto, unfolding(crate::specs::Clip::sides_of, crate::specs::Clip::outside))]
pub fn is_outside(b: Bounds, x: f64, y: f64) -> bool
    ensures { result ≡ outside (sides_of b x y) }
{
    (x < b.left) | (x > b.right) | (y < b.bottom) | (y > b.top)
}

// The part of a line inside the bounds, with the number of cuts, at most 8. Most lines have no side at
// either end, and are accepted at once.
#[inline(always)]
#[tactic(auto, using(crate::proofs::Clipping::clipping))]
pub fn clip_line(b: Bounds, line: Segment) -> Clipped
    ensures { result ≡ clip_of b line }
{
    let first = is_outside(b, line.x1, line.y1);
    let second = is_outside(b, line.x2, line.y2);
    if first | second {
        clip_outside(b, line)
    } else {
        Clipped {
            line: Some(line),
            cuts: 0,
        }
    }
}
