// The walk between two ends, painted. On HalfBlock, Quadrant and Sextant grids it is the Walk with its
// signed decision value, and each dot is tested; Braille and the grids of one dot a cell go by the
// faster course, which gives the same dots.
ghost use Rattle.std.specs.Prelude.{◌≡◌, [], ◌∷◌};
ghost use Rattle.walk.specs.Line.{line_dots};
ghost use Rattle.grids.specs.Painting.{cells_held};
ghost use Rattle.lines.specs.Painted.{Painted, painted_by};

use crate::held::{held_braille, held_plain};
use crate::painter::Painter;
use grids::markers::{Marker, is_plain};
use grids::painting::{flat_index, paint_half};
use walk::bresenham::{Dot, Ends, Walk};
use walk::course::Course;
use walk::route::Route;

// A dot of the walk, tested, where `end` is the number of cells held. Of two kinds, where paint_dot has
// four: by its match a dot on HalfBlock took 20 instructions more.
#[tactic(auto, using(crate::proofs::CourseLoops::one_dot))]
fn paint_step(cells: &mut [u32], p: Painter, end: usize, d: Dot)
    requires { end ≡ cells_held cells.old p.grid.columns p.grid.rows }
    ensures { cells.new ≡ painted_by p cells.old (d ∷ []) }
{
    if p.grid.marker == Marker::HalfBlock {
        paint_half(cells, p.grid.columns, end, d.column, d.row, p.word);
    } else {
        p.grid.paint(cells, d.column, d.row, p.word);
    }
}

// The dots of the walk on any grid, with a test for each.
fn walk_any(cells: &mut [u32], p: Painter, e: Ends) -> u64
    ensures { Painted p cells.old (line_dots e) result cells.new }
{
    let end = p.grid.cells_held(cells);
    let walk = Walk::new(e);
    for dot in walk.dots() {
        paint_step(cells, p, end, dot);
    }
    u64::from(walk.count())
}

// The walk between two ends. The marker is tested here once, and so are the cells: each dot lies
// between the ends, so that where the cell of the greatest column and row is held, the cells of all are.
#[tactic(auto, using(crate::proofs::CourseLoops::courses))]
pub fn paint_walk(cells: &mut [u32], p: Painter, e: Ends) -> u64
    ensures { Painted p cells.old (line_dots e) result cells.new }
{
    let grid = p.grid;
    let end = grid.cells_held(cells);
    let right = u32::from(e.x1.max(e.x2));
    let low = u32::from(e.y1.max(e.y2));
    let last_braille = flat_index(grid.columns, right / 2, low / 4);
    if (grid.marker == Marker::Braille) & (last_braille < end) {
        let course = Course::new(e);
        held_braille(cells, p, course);
        return u64::from(course.count);
    }
    let last_plain = flat_index(grid.columns, right, low);
    if is_plain(grid.marker) & (last_plain < end) {
        let course = Course::new(e);
        held_plain(cells, p, course);
        return u64::from(course.count);
    }
    walk_any(cells, p, e)
}
