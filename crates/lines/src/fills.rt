// A column of dots, and a line filled to a row: document 01, 'FilledLine: from each dot of the walk its
// column to the dot row of `fill_to_y` clamped to the bounds, both ends in.'
ghost use Rattle.walk.specs.Line.{line_dots};
ghost use Rattle.lines.specs.Painted.{Painted, flat, dot_at, column_to};

use crate::painter::Painter;
use columns::paint_rows;
use walk::bresenham::Ends;
use walk::course::Course;
use walk::route::Route;

// A column of dots from one row to another, both in.
pub fn paint_column(cells: &mut [u32], p: Painter, column: u32, row: u32, fill: u32) -> u64
    ensures { Painted p cells.old (column_to fill (dot_at column row)) result cells.new }
{
    let low = row.min(fill);
    let high = row.max(fill);
    paint_rows(cells, p.grid, column, low, high, p.word);
    u64::from(high - low) + 1
}

// From each dot of a line its column to the fill's row.
pub fn paint_fill(cells: &mut [u32], p: Painter, e: Ends, fill: u16) -> u64
    ensures { Painted p cells.old (flat (column_to fill) (line_dots e)) result cells.new }
{
    let mut painted = 0;
    for dot in Course::new(e).dots() {
        painted += paint_column(cells, p, dot.column, dot.row, u32::from(fill));
    }
    painted
}
