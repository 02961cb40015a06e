// A column of dots, filled a cell at a time: a cell's bits are set together and its ink once. So
// painting a FilledLine (document 01, 'Shapes') takes a step for each cell, not for each dot. Rows become counts, and
// 64 bits 32 again, by `as`: usize has no From of u32, and a try_from would be a test for each column.
#![tactic(auto)]

ghost use Rattle.std.specs.Prelude.{◌≡◌, true, ◌&&◌, ◌+◌, ◌-◌, ◌*◌, ◌/◌, ◌%◌, ◌<◌, ◌≤◌, ltb, leb, length};
ghost use Rattle.grids.specs.declared.markers.Marker.{Marker};
ghost use Rattle.grids.specs.Painting.{paint_dots, inked_cell};
ghost use Rattle.grids.specs.Markers.{is_plain};
ghost use Rattle.columns.specs.Columns.{column_dots, column_mask, inked_down, braille_rows, strip_painted};

use grids::markers::{Marker, is_plain};
use grids::painting::{Grid, cell_count, flat_index, ink};

// Whether the grid has the cell i, and the store all of the grid: then the store has every cell
// from 0 to i, and none of them needs a test of its own.
fn holds(cells: &[u32], grid: Grid, i: usize) -> bool
    ensures { result ≡ (ltb i (grid.columns * grid.rows) && leb (grid.columns * grid.rows * 5) (length cells.now)) }
{
    let end = cell_count(grid.columns, grid.rows);
    i < end && end * 5 <= cells.len()
}

// The bits of dots of a column that lie in one Braille cell.
#[tactic(auto, using(crate::proofs::ColumnSteps::masks), unfolding(crate::specs::Columns::column_mask))]
fn column_mask(column: u32, row: u32, count: u32) -> u32
    requires { row % 4 + count ≤ 4 }
    ensures { result ≡ column_mask column row count }
{
    (85 >> (8 - count * 2)) << (row % 4 * 2 + column % 2)
}

// Bits and ink set in a cell that the store has. By an index, as in crate layers.
#[tactic(auto, using(grids::proofs::InkedCells::inking))]
fn ink_at(cells: &mut [u32], i: usize, bits: u32, word: u32)
    requires { i < length cells.old / 5 }
    ensures { cells.new ≡ inked_cell cells.old i bits word }
{
    let k = i * 5;
    ink(&mut cells[k..k + 5], bits, word);
}

// The same bits and ink in cells below one another.
fn ink_down(cells: &mut [u32], first: usize, columns: u16, count: usize, bits: u32, word: u32)
    requires { first + count * columns < length cells.old / 5 + columns }
    ensures { cells.new ≡ inked_down columns bits word cells.old first count }
{
    let step = usize::from(columns);
    for k in 0..count {
        ink_at(cells, first + k * step, bits, word);
    }
}

// The dots of a column from one row to another, both in, of the ink of a word; none where the second row is
// the lower number.
#[derive(Clone, Copy)]
struct Strip {
    grid: Grid,
    column: u32,
    low: u32,
    high: u32,
    word: u32,
}

impl Strip {
    // Braille dots in cells that the store has: the first cell's, whole cells, and the last cell's.
    #[tactic(auto, unfolding(crate::specs::Columns::braille_rows))]
    fn ink_braille(self, cells: &mut [u32])
        requires { (self.low ≤ self.high) × (self.high / 4 * self.grid.columns + self.column / 2 < length cells.old / 5) }
        ensures { cells.new ≡ braille_rows self.grid.columns self.word cells.old self.column self.low self.high }
    {
        let column = self.column;
        let columns = self.grid.columns;
        let head = flat_index(columns, column / 2, self.low / 4);
        if self.low / 4 == self.high / 4 {
            let bits = column_mask(column, self.low, self.high - self.low + 1);
            ink_at(cells, head, bits, self.word);
        } else {
            let tail = flat_index(columns, column / 2, self.high / 4);
            let below = head + usize::from(columns);
            let between = (self.high / 4 - self.low / 4 - 1) as usize;
            let first = column_mask(column, self.low, 4 - self.low % 4);
            let whole = column_mask(column, 0, 4);
            let last = column_mask(column, 0, self.high % 4 + 1);
            ink_at(cells, head, first, self.word);
            ink_down(cells, below, columns, between, whole, self.word);
            ink_at(cells, tail, last, self.word);
        }
    }

    // Each way below leaves strip_painted.
    // On any grid: one dot after the other.
    #[inline(never)]
    fn paint_each(self, cells: &mut [u32])
        ensures { cells.new ≡ strip_painted self cells.old }
    {
        for row in u64::from(self.low)..=u64::from(self.high) {
            self.grid.paint(cells, self.column, row as u32, self.word);
        }
    }

    // On a Braille grid.
    #[tactic(auto, using(crate::proofs::ColumnSteps::filling))]
    fn paint_braille(self, cells: &mut [u32])
        requires { self.grid.marker ≡ Marker.Braille }
        ensures { cells.new ≡ strip_painted self cells.old }
    {
        let last = flat_index(self.grid.columns, self.column / 2, self.high / 4);
        if self.low <= self.high && holds(cells, self.grid, last) {
            self.ink_braille(cells);
        } else {
            let strip = self; // lent by address to the call, so that `self` itself stands in registers
            strip.paint_each(cells);
        }
    }

    // On a grid of one dot a cell.
    #[tactic(auto, using(crate::proofs::ColumnSteps::filling))]
    fn paint_plain(self, cells: &mut [u32])
        requires { is_plain self.grid.marker ≡ true }
        ensures { cells.new ≡ strip_painted self cells.old }
    {
        let columns = self.grid.columns;
        let last = flat_index(columns, self.column, self.high);
        if self.low <= self.high && holds(cells, self.grid, last) {
            let first = flat_index(columns, self.column, self.low);
            let count = (self.high - self.low) as usize + 1;
            ink_down(cells, first, columns, count, 1, self.word);
        } else {
            let strip = self; // as in paint_braille
            strip.paint_each(cells);
        }
    }

    // On any other grid than a Braille one.
    fn paint_other(self, cells: &mut [u32])
        ensures { cells.new ≡ strip_painted self cells.old }
    {
        if is_plain(self.grid.marker) {
            self.paint_plain(cells);
        } else {
            let strip = self; // as in paint_braille
            strip.paint_each(cells);
        }
    }
}

// The dots of a column from one row to another, both in; none where the second is the lower number.
pub fn paint_rows(cells: &mut [u32], grid: Grid, column: u32, low: u32, high: u32, word: u32)
    ensures { cells.new ≡ paint_dots grid.marker grid.columns grid.rows word cells.old (column_dots column low (high + 1 - low)) }
{
    let strip = Strip {
        grid,
        column,
        low,
        high,
        word,
    };
    if grid.marker == Marker::Braille {
        strip.paint_braille(cells);
    } else {
        strip.paint_other(cells);
    }
}
