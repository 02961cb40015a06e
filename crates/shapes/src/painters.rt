// The shapes, painted dot by dot in the order of the Rust. Each function paints the dots of a
// definition in specs/ and gives their number. They are no methods of Painter, since those can stand
// only in its own crate.
ghost use Rattle.std.specs.Prelude.{◌≡◌, true, false, ℕ, ◌<◌};
ghost use Rattle.floats.specs.Polyfills.{mul_add_of};
ghost use Rattle.angles.specs.Angles.{cos_at, sin_at};
ghost use Rattle.view.specs.Point.{inside_bounds, point_of};
ghost use Rattle.lines.specs.Painted.{Painted};
ghost use Rattle.shapes.specs.Shapes.{point_dots, line_ends, line_points, filled_points, segment, rectangle_points, circle_points};
ghost use Rattle.shapes.specs.Drawing.{shape_dots, RegularBraille, CircleInDomain};

use angles::angle_table;
use floats::domain::in_domain;
use floats::methods::{clamp, to_radians};
use floats::polyfills::{cos, mul_add, sin};
use grids::markers::Marker;
use grids::painting::paint_braille;
use lines::fills::paint_fill;
use lines::painter::{Painter, paint_dot};
use lines::walks::paint_walk;
use view::point::{View, dot_inside, frame_of, is_inside, is_regular, spot, spot_inside};
use walk::bresenham::Ends;
use walk::clip::{Bounds, Segment, clip_line};

// A shape with its floats, unnamed since callers take and pass them in the order of the Rust. The pairs
// of a Points stand beside it.
#[derive(Clone, Copy)]
pub enum Shape {
    Line(Segment),
    FilledLine(Segment, f64),
    Rectangle(f64, f64, f64, f64),
    Circle(f64, f64, f64),
}

// A dot, or none. Here and below 0 is the number of dots where there is none.
pub fn paint_found(cells: &mut [u32], p: Painter, found: Option<(u16, u16)>) -> u64
    ensures { Painted p cells.old (point_dots found) result cells.new }
{
    let Some((column, row)) = found else {
        return 0;
    };
    paint_dot(cells, p, u32::from(column), u32::from(row));
    1
}

// The dot of a point, or none.
#[tactic(auto, using(crate::proofs::LineCases::by_found))]
pub fn paint_point(cells: &mut [u32], p: Painter, x: f64, y: f64) -> u64
    ensures { Painted p cells.old (point_dots (point_of p.view x y)) result cells.new }
{
    let frame = frame_of(p.view);
    let found = spot(frame, x, y);
    paint_found(cells, p, found)
}

// What is left of a line after the clipping: its first end's x, and the dots of its ends. None where
// nothing is left, or an end has no dot. By `let .. else` and not `?`, the form that document 01 names.
#[inline(always)]
fn line_ends(v: View, s: Segment) -> Option<(f64, Ends)>
    ensures { result ≡ line_ends v s }
{
    let clipped = clip_line(v.bounds, s);
    let Some(kept) = clipped.line else {
        return None;
    };
    let f = frame_of(v);
    let first = spot_inside(f, kept.x1, kept.y1);
    let Some((x1, y1)) = first else {
        return None;
    };
    let second = spot_inside(f, kept.x2, kept.y2);
    let Some((x2, y2)) = second else {
        return None;
    };
    Some((kept.x1, Ends { x1, y1, x2, y2 }))
}

// A line: clipped, and walked between the dots of its ends.
#[inline(always)]
#[tactic(auto, using(crate::proofs::LineCases::by_found))]
pub fn paint_line(cells: &mut [u32], p: Painter, s: Segment) -> u64
    ensures { Painted p cells.old (line_points p.view s) result cells.new }
{
    let found = line_ends(p.view, s);
    let Some((_, ends)) = found else {
        return 0;
    };
    paint_walk(cells, p, ends)
}

// A filled line: its walk, filled to the dot row of `fill_to_y` clamped to the bounds.
#[tactic(auto, using(crate::proofs::LineCases::by_found))]
pub fn paint_filled_line(cells: &mut [u32], p: Painter, s: Segment, fill_to_y: f64) -> u64
    ensures { Painted p cells.old (filled_points p.view s fill_to_y) result cells.new }
{
    let v = p.view;
    let found = line_ends(v, s);
    let Some((x, ends)) = found else {
        return 0;
    };
    let y_fill = clamp(fill_to_y, v.bounds.bottom, v.bounds.top);
    let f = frame_of(v);
    let third = spot(f, x, y_fill);
    let Some((_, fill)) = third else {
        return 0;
    };
    paint_fill(cells, p, ends, fill)
}

fn segment(x1: f64, y1: f64, x2: f64, y2: f64) -> Segment
    ensures { result ≡ segment x1 y1 x2 y2 }
{
    Segment { x1, y1, x2, y2 }
}

// A rectangle: four lines, in the order of the Rust.
#[tactic(auto, using(crate::proofs::LineCases::few_dots))]
pub fn paint_rectangle(
    cells: &mut [u32],
    p: Painter,
    x: f64,
    y: f64,
    width: f64,
    height: f64,
) -> u64
    ensures { Painted p cells.old (rectangle_points p.view x y width height) result cells.new }
{
    let right = x + width;
    let top = y + height;
    let a = paint_line(cells, p, segment(x, y, x, top));
    let b = paint_line(cells, p, segment(x, top, right, top));
    let c = paint_line(cells, p, segment(right, y, right, top));
    let d = paint_line(cells, p, segment(x, y, right, y));
    a + b + c + d
}

// A circle by its centre and radius, with the points at 360 angles.
#[derive(Clone, Copy)]
struct Circle {
    x: f64,
    y: f64,
    radius: f64,
}

impl Circle {
    fn is_in_domain(self) -> bool
        ensures { result ≡ true → CircleInDomain self.x self.y self.radius }
    {
        in_domain(self.x) & in_domain(self.y) & in_domain(self.radius)
    }

    // Whether every point is inside the bounds: the outermost ones are, and no cosine or sine is above 1 in
    // size.
    #[tactic(auto, using(crate::proofs::CircleInside::points_inside))]
    fn is_inside(self, b: Bounds) -> bool
        requires { CircleInDomain self.x self.y self.radius }
        ensures { result ≡ true → (angle : ℕ) → angle < 360 → inside_bounds b (mul_add_of self.radius (cos_at angle) self.x) (mul_add_of self.radius (sin_at angle) self.y) ≡ true }
    {
        let left = mul_add(self.radius, -1.0, self.x);
        let right = mul_add(self.radius, 1.0, self.x);
        let bottom = mul_add(self.radius, -1.0, self.y);
        let top = mul_add(self.radius, 1.0, self.y);
        (self.radius > 0.0)
            & ((left >= b.left) & (right <= b.right))
            & ((bottom >= b.bottom) & (top <= b.top))
    }

    // On a Braille grid each point is tested, or none where all are inside. By a turn's number, since the table
    // is one row, each turn's cosine and then its sine.
    #[tactic(auto, using(crate::proofs::PaintLists::whole_circle))]
    fn paint_braille<const TESTED: bool>(self, cells: &mut [u32], p: Painter) -> u64
        requires known { RegularBraille p × CircleInDomain self.x self.y self.radius }
        requires inside { TESTED ≡ false → (angle : ℕ) → angle < 360 → inside_bounds p.view.bounds (mul_add_of self.radius (cos_at angle) self.x) (mul_add_of self.radius (sin_at angle) self.y) ≡ true }
        ensures { Painted p cells.old (circle_points p.view self.x self.y self.radius) result cells.new }
    {
        let table = angle_table();
        let frame = frame_of(p.view);
        let end = p.grid.cells_held(cells);
        let b = p.view.bounds;
        let mut painted = 0;
        for turn in 0..360 {
            let x = mul_add(self.radius, table[turn * 2], self.x);
            let y = mul_add(self.radius, table[turn * 2 + 1], self.y);
            if !TESTED || is_inside(b, x, y) {
                let d = dot_inside(frame, x, y);
                paint_braille(cells, p.grid.columns, end, d.column, d.row, p.word);
                painted += 1;
            }
        }
        painted
    }

    // On any grid, as circle.rs has it: each angle's cosine and sine are computed, and each point is tested.
    #[tactic(auto, using(crate::proofs::PaintLists::whole_circle))]
    fn paint_any(self, cells: &mut [u32], p: Painter) -> u64
        ensures { Painted p cells.old (circle_points p.view self.x self.y self.radius) result cells.new }
    {
        let frame = frame_of(p.view);
        let mut painted = 0;
        for degree in 0..360u16 {
            let radians = to_radians(f64::from(degree));
            let x = mul_add(self.radius, cos(radians), self.x);
            let y = mul_add(self.radius, sin(radians), self.y);
            let found = spot(frame, x, y);
            painted += paint_found(cells, p, found);
        }
        painted
    }

    // On Braille the cosines and sines stand in a table, and what need not be tested for each point is tested
    // here.
    fn paint(self, cells: &mut [u32], p: Painter) -> u64
        ensures { Painted p cells.old (circle_points p.view self.x self.y self.radius) result cells.new }
    {
        let known = self.is_in_domain();
        let regular = is_regular(p.view);
        if (p.grid.marker == Marker::Braille) & (known & regular) {
            if self.is_inside(p.view.bounds) {
                return self.paint_braille::<false>(cells, p);
            }
            return self.paint_braille::<true>(cells, p);
        }
        self.paint_any(cells, p)
    }
}

// A circle: the points at 360 angles. By a call, since the table of angles stands on its stack, which a caller that
// draws any shape would else take for a line too.
#[inline(never)]
pub fn paint_circle(cells: &mut [u32], p: Painter, x: f64, y: f64, radius: f64) -> u64
    ensures { Painted p cells.old (circle_points p.view x y radius) result cells.new }
{
    Circle { x, y, radius }.paint(cells, p)
}

// A shape.
#[inline(always)]
#[tactic(auto, unfolding(crate::specs::Drawing::shape_dots))]
pub fn paint_shape(cells: &mut [u32], p: Painter, shape: Shape) -> u64
    ensures { Painted p cells.old (shape_dots p.view shape) result cells.new }
{
    match shape {
        Shape::Line(s) => paint_line(cells, p, s),
        Shape::FilledLine(s, fill_to_y) => paint_filled_line(cells, p, s, fill_to_y),
        Shape::Rectangle(x, y, width, height) => paint_rectangle(cells, p, x, y, width, height),
        Shape::Circle(x, y, radius) => paint_circle(cells, p, x, y, radius),
    }
}
