// Where a draw paints, and one dot painted there.
ghost use Rattle.std.specs.Prelude.{◌≡◌, [], ◌∷◌};
ghost use Rattle.lines.specs.Painted.{dot_at, painted_by};

use grids::markers::Marker;
use grids::painting::{Grid, paint_braille, paint_half, paint_plain};
use view::point::View;

// The view, the grid, and the ink's word.
#[derive(Clone, Copy)]
pub struct Painter {
    pub view: View,
    pub grid: Grid,
    pub word: u32,
}

// A dot, by the kind of grid: on the kinds painted most, only the words that it changes are set.
#[tactic(auto, using(crate::proofs::CourseLoops::one_dot))]
pub fn paint_dot(cells: &mut [u32], p: Painter, column: u32, row: u32)
    ensures { cells.new ≡ painted_by p cells.old (dot_at column row ∷ []) }
{
    let grid = p.grid;
    let end = grid.cells_held(cells);
    match grid.marker {
        Marker::Braille => paint_braille(cells, grid.columns, end, column, row, p.word),
        Marker::Dot | Marker::Block | Marker::Bar | Marker::Custom => {
            paint_plain(cells, grid.columns, end, column, row, p.word)
        }
        Marker::HalfBlock => paint_half(cells, grid.columns, end, column, row, p.word),
        Marker::Quadrant | Marker::Sextant => grid.paint(cells, column, row, p.word),
    }
}
