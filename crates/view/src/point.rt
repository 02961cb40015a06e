// From bounds to a dot (Painter::get_point) and to a label's first cell (Canvas::render).
// A point's x and y go one by one, as in the Rust: each definition takes them so.
ghost use Rattle.std.specs.Prelude.{◌≡◌, ◌-◌, ◌<◌, ◌≤◌, true, false, not, T, pos, is_nan, Some};
ghost use Rattle.std.specs.Float.{fin};
ghost use Rattle.std.specs.Float.Ieee.{le, lt, to_unsigned};
ghost use Rattle.floats.specs.Polyfills.{0·25};
ghost use Rattle.view.specs.Limits.{max_columns, max_rows};
ghost use Rattle.view.specs.Point.{outside_bounds, flat_bounds, scaled_of, point_of, truncated_of, inside_bounds, label_place, view_of, regular_view, frame_of, scaled_by, spot_of};

use floats::casts::{as_u16, as_u64};
use floats::domain::in_domain;
use floats::methods::abs;
use floats::polyfills::round;
use grids::painting::Grid;
use walk::bresenham::Dot;
use walk::clip::{Bounds, is_outside};

// Bounds with a grid's resolution in dots.
#[derive(Clone, Copy)]
pub struct View {
    pub bounds: Bounds,
    pub width: u16,
    pub height: u16,
}

// The view of a grid of at most 200 by 100 cells.
pub fn view_of(bounds: Bounds, grid: Grid) -> View
    ensures { grid.columns ≤ max_columns → grid.rows ≤ max_rows → result ≡ view_of bounds grid.columns grid.rows grid.marker }
{
    let dots = grid.resolution();
    View {
        bounds,
        width: u16::try_from(dots.columns).unwrap_or(u16::MAX),
        height: u16::try_from(dots.rows).unwrap_or(u16::MAX),
    }
}

#[tactic(auto, unfolding(crate::specs::Point::flat_bounds))]
fn is_flat(b: Bounds) -> bool
    ensures { result ≡ flat_bounds b }
{
    (b.right - b.left <= 0.0) | (b.top - b.bottom <= 0.0)
}

// Whether the clamp to resolution - 1 never acts on a view, as `dot_inside` asks.
#[tactic(auto, unfolding(crate::specs::Point::regular_view))]
pub fn is_regular(v: View) -> bool
    ensures { result ≡ regular_view v }
{
    let b = v.bounds;
    let across = in_domain(b.left) & in_domain(b.right);
    let down = in_domain(b.bottom) & in_domain(b.top);
    let flat = is_flat(b);
    let columns = (1..=400).contains(&v.width);
    let rows = (1..=400).contains(&v.height);
    (across & down) & (!flat & (columns & rows))
}

// A view as a draw uses it for each of its points: what no point changes, computed once.
#[derive(Clone, Copy)]
pub struct Frame {
    pub view: View,
    pub width: f64, // from left to right
    pub height: f64, // from bottom to top
    pub across: f64, // the dots across less one
    pub down: f64, // the dots down less one
    // A flag, and no Option of the frame, which would be asked at each of its five callers.
    pub flat: bool, // whether width or height is at most 0
}

#[tactic(auto, unfolding(crate::specs::Point::frame_of))]
pub fn frame_of(v: View) -> Frame
    ensures { result ≡ frame_of v }
{
    let b = v.bounds;
    let flat = is_flat(b);
    Frame {
        view: v,
        width: b.right - b.left,
        height: b.top - b.bottom,
        across: f64::from(v.width) - 1.0,
        down: f64::from(v.height) - 1.0,
        flat,
    }
}

// The whole part of a float from 1 on that is below 2^53: its digits moved to the top with the leading
// one put before them, which is two instructions less than a mask, shifted by its exponent. The kit's own
// truncation also serves larger floats, which costs twice as much.
#[tactic(auto, using(floats::proofs::WholePart::whole_parts))]
fn whole_part(x: f64) -> u64
    requires low { T (le (fin false 1 (pos 0)) x) }
    requires high { T (lt x (fin false 1 (pos 53))) }
    ensures { result ≡ to_unsigned 64 x }
{
    let bits = f64::to_bits(x);
    let exponent = bits >> 52;
    let digits = (bits << 11) | 0x8000_0000_0000_0000;
    digits >> (1086 - exponent)
}

// `(distance * steps / width).round()` as a number, at most dots - 1, by the sum with 0.5 alone: below
// 0 `round` takes 0.5 away, but the number is 0 all the same, as it is below 1 and for a NaN. By `as`, here and
// below, what is known to be below 2^16: a try_from would be a test for each point.
#[tactic(auto, using(floats::proofs::WholePart::below_two_to_53, crate::proofs::DotPlaces::scaling))]
fn scaled(distance: f64, steps: f64, dots: u16, width: f64) -> u16
    ensures { result ≡ scaled_by distance steps dots width }
{
    let sum = distance * steps / width + 0.5;
    if sum >= 1.0 {
        if sum < f64::from(dots) {
            return whole_part(sum) as u16;
        }
        return dots.saturating_sub(1);
    }
    0
}

// The dot of a point that is known not to be outside the bounds, which are not tested: none where these
// have no width or height.
#[tactic(auto, unfolding(crate::specs::Point::spot_of))]
pub fn spot_inside(f: Frame, x: f64, y: f64) -> Option<(u16, u16)>
    ensures { outside_bounds f.view.bounds x y ≡ false → result ≡ spot_of f x y }
{
    if f.flat {
        return None;
    }
    let v = f.view;
    let b = v.bounds;
    let column = scaled(x - b.left, f.across, v.width, f.width);
    let row = scaled(b.top - y, f.down, v.height, f.height);
    Some((column, row))
}

// The dot of a point: none outside the bounds either.
#[tactic(auto, unfolding(crate::specs::Point::spot_of, crate::specs::Point::outside_bounds, walk::specs::Clip::sides_of, walk::specs::Clip::outside))]
pub fn spot(f: Frame, x: f64, y: f64) -> Option<(u16, u16)>
    ensures { result ≡ spot_of f x y }
{
    let v = f.view;
    if is_outside(v.bounds, x, y) {
        return None;
    }
    spot_inside(f, x, y)
}

// `((distance) * (resolution - 1.0) / width).round() as usize`, at most resolution - 1. Apart from
// `scaled`, since document 01 wants the operations of the Rust here.
#[tactic(auto, unfolding(crate::specs::Point::scaled_of))]
fn rounded(distance: f64, dots: u16, width: f64) -> u16
    ensures { result ≡ scaled_of distance dots width }
{
    let n = as_u64(round(distance * (f64::from(dots) - 1.0) / width));
    n.min(u64::from(dots.saturating_sub(1))) as u16
}

// The dot of a point by itself: the formula of get_point as the Rust has it. Painters use a frame.
#[tactic(auto, unfolding(crate::specs::Point::point_of, crate::specs::Point::outside_bounds, walk::specs::Clip::sides_of, walk::specs::Clip::outside))]
pub fn point(v: View, x: f64, y: f64) -> Option<(u16, u16)>
    ensures { result ≡ point_of v x y }
{
    let b = v.bounds;
    if is_outside(b, x, y) | is_flat(b) {
        return None;
    }
    let column = rounded(x - b.left, v.width, b.right - b.left);
    let row = rounded(b.top - y, v.height, b.top - b.bottom);
    Some((column, row))
}

// The whole part of a float from 0.25 on that is below 2^16, of which neither end is tested: below 1 the
// shift is by 53 or 54, which leaves 0. Other floats give some number. Apart from `whole_part`, whose
// shift would there be 64 or more.
fn whole_inside(x: f64) -> u16
    requires { T (not (is_nan x)) }
    ensures { lt x 0·25 ≡ false → to_unsigned 64 x < 65536 → result ≡ to_unsigned 64 x }
{
    let bits = f64::to_bits(x);
    let exponent = bits >> 52;
    let digits = (bits & 0xf_ffff_ffff_ffff) | 0x10_0000_0000_0000;
    let n = digits >> (1075u64.wrapping_sub(exponent) % 64);
    (n % 65536) as u16
}

// The dot of a point inside the bounds of a regular view, by its frame. Nothing is tested but that the
// sums are no NaN, whose bits may not be read: one comparison for both, which inside the bounds holds.
pub fn dot_inside(f: Frame, x: f64, y: f64) -> Dot
    ensures { (v : View) → f ≡ frame_of v → regular_view v ≡ true → inside_bounds v.bounds x y ≡ true → point_of v x y ≡ Some (result.column, result.row) }
{
    let v = f.view;
    let b = v.bounds;
    let across = (x - b.left) * f.across / f.width + 0.5;
    let down = (b.top - y) * f.down / f.height + 0.5;
    if (across == across) & (down == down) {
        return Dot {
            column: u32::from(whole_inside(across)),
            row: u32::from(whole_inside(down)),
        };
    }
    Dot { column: 0, row: 0 }
}

// Whether a point is inside the inclusive bounds, which one with a NaN is not.
#[tactic(auto, unfolding(crate::specs::Point::inside_bounds))]
pub fn is_inside(b: Bounds, x: f64, y: f64) -> bool
    ensures { result ≡ inside_bounds b x y }
{
    (x >= b.left) & (x <= b.right) & (y <= b.top) & (y >= b.bottom)
}

// `(distance * (cells - 1) / width.abs()) as u16`.
#[tactic(auto, unfolding(crate::specs::Point::truncated_of))]
fn truncated(distance: f64, cells: u16, width: f64) -> u16
    ensures { result ≡ truncated_of distance cells width }
{
    as_u16(distance * f64::from(cells.saturating_sub(1)) / abs(width))
}

// The cell of a label's first byte: none outside the bounds. Truncated, not rounded.
#[tactic(auto, unfolding(crate::specs::Point::label_place))]
pub fn label_place(b: Bounds, columns: u16, rows: u16, x: f64, y: f64) -> Option<(u16, u16)>
    ensures { result ≡ label_place b columns rows x y }
{
    if is_inside(b, x, y) {
        let column = truncated(x - b.left, columns, b.right - b.left);
        let row = truncated(b.top - y, rows, b.top - b.bottom);
        return Some((column, row));
    }
    None
}
