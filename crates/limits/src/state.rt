// The conditions on which a canvas, a size, bounds, a colour, a point, a shape or a dot is refused: document
// 01, 'Calls and refusals, in order'.
ghost use Rattle.std.specs.Prelude.{◌≡◌, ◌&&◌, leb};
ghost use Rattle.refusals.specs.Refusals.{number_in};
ghost use Rattle.floats.specs.Domain.{in_domain};
ghost use Rattle.view.specs.Limits.{max_draws};
ghost use Rattle.ledger.specs.Calls.{bad_size, bad_bounds, bad_colour, bad_segment, bad_shape, bad_point, outside_grid};
ghost use Rattle.ledger.specs.Model.{bad_canvas, short_stores, state_refusal};

use floats::domain::in_domain;
use grids::markers::{Marker, is_marker};
use grids::painting::cell_count;
use ledger::state::Canvas;
use refusals::refusal::Refusal;
use shapes::painters::Shape;
use walk::clip::{Bounds, Segment};

// The terminal's own colour, the last that is taken.
pub const RESET: u32 = 16777216;

// Not 1 to 200 columns and 1 to 100 rows. By two numbers: they are no canvas' yet.
pub fn is_bad_size(columns: u16, rows: u16) -> bool
    ensures { result ≡ bad_size columns rows }
{
    !(((columns >= 1) & (columns <= 200)) & ((rows >= 1) & (rows <= 100)))
}

fn are_in_domain(a: f64, b: f64, c: f64, d: f64) -> bool
    ensures { result ≡ ((in_domain a && in_domain b) && (in_domain c && in_domain d)) }
{
    (in_domain(a) & in_domain(b)) & (in_domain(c) & in_domain(d))
}

// A bound outside the domain. Apart from a segment's test below: the numbers of the two have other names.
pub fn is_bad_bounds(b: Bounds) -> bool
    ensures { result ≡ bad_bounds b }
{
    !are_in_domain(b.left, b.right, b.bottom, b.top)
}

// Above 16,777,216, Reset.
pub fn is_bad_colour(colour: u32) -> bool
    ensures { result ≡ bad_colour colour }
{
    colour > RESET
}

// A coordinate outside the domain.
pub fn is_bad_point(x: f64, y: f64) -> bool
    ensures { result ≡ bad_point x y }
{
    !(in_domain(x) & in_domain(y))
}

fn is_bad_segment(s: Segment) -> bool
    ensures { result ≡ bad_segment s }
{
    !are_in_domain(s.x1, s.y1, s.x2, s.y2)
}

// A shape with a number outside the domain.
#[tactic(auto, unfolding(ledger::specs::Calls::bad_shape))]
pub fn is_bad_shape(shape: Shape) -> bool
    ensures { result ≡ bad_shape shape }
{
    match shape {
        Shape::Line(s) => is_bad_segment(s),
        Shape::FilledLine(s, fill_to_y) => is_bad_segment(s) | !in_domain(fill_to_y),
        Shape::Rectangle(x, y, width, height) => !are_in_domain(x, y, width, height),
        Shape::Circle(x, y, radius) => !((in_domain(x) & in_domain(y)) & in_domain(radius)),
    }
}

// A dot outside a HalfBlock grid.
#[tactic(auto, unfolding(ledger::specs::Calls::outside_grid))]
pub fn is_outside_grid(c: Canvas, column: u32, row: u32) -> bool
    ensures { result ≡ outside_grid c.marker c.columns c.rows column row }
{
    (c.grid().marker == Marker::HalfBlock)
        & !((column < u32::from(c.columns)) & (row < u32::from(c.rows) * 2))
}

// No draw or dot more is taken.
pub fn is_full(draws: u32) -> bool
    ensures { result ≡ leb max_draws draws }
{
    draws >= 65535
}

// A canvas with a size, bound, colour, marker or count outside the domain.
#[tactic(auto, unfolding(ledger::specs::Model::bad_canvas))]
pub fn is_bad_canvas(c: Canvas) -> bool
    ensures { result ≡ bad_canvas c }
{
    let size = is_bad_size(c.columns, c.rows);
    let bounds = is_bad_bounds(c.bounds);
    let colour = is_bad_colour(c.background);
    let marker = !is_marker(c.marker, c.character);
    let painted = 160000 * u64::from(c.draws) < c.painted;
    (((size | bounds) | colour) | marker) | (((c.draws > 65535) | (c.labels > 64)) | painted)
}

// A store too short for the canvas, by the stores' lengths in words.
#[tactic(auto, unfolding(ledger::specs::Model::short_stores))]
pub fn is_short(c: Canvas, cells: usize, labels: usize) -> bool
    ensures { result ≡ short_stores c cells labels }
{
    let n = cell_count(c.columns, c.rows);
    (cells < n * 5) | (labels < 2816)
}

// What any call is refused on first: 5, then 6.
#[tactic(auto, unfolding(ledger::specs::Model::state_refusal))]
pub fn state(c: Canvas, cells: usize, labels: usize) -> Result<(), Refusal>
    ensures { number_in result ≡ state_refusal c cells labels }
{
    if is_bad_canvas(c) | is_short(c, cells, labels) {
        return Err(Refusal::Canvas);
    }
    if c.rendered {
        return Err(Refusal::Rendered);
    }
    Ok(())
}
