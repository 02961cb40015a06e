// A grid of dots, and a dot painted into the one being drawn. Ink is passed as its word in the store.
// Column, row and word go one by one, as in the Rust's paint: in the loops over dots they go in by registers.
ghost use Rattle.std.specs.Prelude.{◌≡◌, ◌+◌, ◌*◌, ◌/◌, ◌%◌, ◌<◌, ◌≤◌, ◌^◌};
ghost use Rattle.grids.specs.Markers.{resolution_of};
ghost use Rattle.grids.specs.Painting.{paint_of, inked_words, cells_held, dot_set, braille_dot, plain_dot, half_dot};

use crate::markers::{Marker, Size, dot_size};

// The number of a cell by its column and row: of 32 bits each, so that nothing overflows. By `as`, here and below:
// usize has no From of u32, and a try_from would be a test for each dot.
pub fn flat_index(columns: u16, column: u32, row: u32) -> usize
    ensures { result ≡ row * columns + column }
{
    row as usize * usize::from(columns) + column as usize
}

// How many cells a canvas has. By two numbers: they are no canvas' yet.
pub fn cell_count(columns: u16, rows: u16) -> usize
    ensures { result ≡ columns * rows }
{
    usize::from(columns) * usize::from(rows)
}

fn power(k: u32) -> u32
    requires { k < 8 }
    ensures { result ≡ 2 ^ k }
{
    1 << k
}

// Bits and ink set in the words of one cell, lent by themselves; those of the picture are not
// touched. A part of another length stays as it is: where five words are lent, the compiler leaves
// the test out.
#[tactic(auto, unfolding(crate::specs::Painting::inked_words))]
pub fn ink(cell: &mut [u32], bits: u32, word: u32)
    ensures { cell.new ≡ inked_words cell.old bits word }
{
    if cell.len() == 5 {
        cell[3] = cell[3] | bits;
        cell[4] = word;
    }
}

// The cell i inked, where it is one of the first `end` and the store has it.
#[tactic(auto, using(crate::proofs::InkedCells::inking), unfolding(crate::specs::Painting::dot_set))]
fn ink_within(cells: &mut [u32], end: usize, i: usize, bits: u32, word: u32)
    ensures { cells.new ≡ dot_set cells.old end i bits word }
{
    let held = end.min(cells.len() / 5);
    if i < held {
        let k = i * 5;
        ink(&mut cells[k..k + 5], bits, word);
    }
}

// What paint does on a grid of COLUMNS by ROWS dots a cell, where `end` is the number of cells held. The
// sizes are constants, since a division by a variable is slower for each dot.
fn paint_sized<const COLUMNS: u32, const ROWS: u32>(
    cells: &mut [u32],
    columns: u16,
    end: usize,
    column: u32,
    row: u32,
    word: u32,
)
    requires { (0 < COLUMNS) × (COLUMNS ≤ 2) × (0 < ROWS) × (ROWS ≤ 4) }
    ensures { cells.new ≡ dot_set cells.old end (row / ROWS * columns + column / COLUMNS) (2 ^ (row % ROWS * COLUMNS + column % COLUMNS)) word }
{
    let i = flat_index(columns, column / COLUMNS, row / ROWS);
    let bit = power(row % ROWS * COLUMNS + column % COLUMNS);
    ink_within(cells, end, i, bit, word);
}

// What paint does with Braille, where `end` is the number of cells held.
pub fn paint_braille(cells: &mut [u32], columns: u16, end: usize, column: u32, row: u32, word: u32)
    ensures { cells.new ≡ braille_dot columns end cells.old column row word }
{
    paint_sized::<2, 4>(cells, columns, end, column, row, word);
}

// The same with a marker of one dot a cell: '1 by 1 dots for markers 2, 3, 4 and 8'.
pub fn paint_plain(cells: &mut [u32], columns: u16, end: usize, column: u32, row: u32, word: u32)
    ensures { cells.new ≡ plain_dot columns end cells.old column row word }
{
    paint_sized::<1, 1>(cells, columns, end, column, row, word);
}

// The same with HalfBlock: the ink of the dot's half, the upper or the lower, is set.
#[tactic(auto, unfolding(crate::specs::Painting::half_dot))]
pub fn paint_half(cells: &mut [u32], columns: u16, end: usize, column: u32, row: u32, word: u32)
    ensures { cells.new ≡ half_dot columns end cells.old column row word }
{
    let i = flat_index(columns, column, row / 2);
    let held = end.min(cells.len() / 5);
    if i < held {
        let half = (row % 2) as usize;
        cells[i * 5 + 3 + half] = word;
    }
}

// A grid of dots: a canvas' size in cells, and the marker of the dots. Crates columns and layers above have
// what is done with a whole column of dots, and with all cells.
#[derive(Clone, Copy, PartialEq, Eq, Debug)]
pub struct Grid {
    pub columns: u16,
    pub rows: u16,
    pub marker: Marker,
}

impl Grid {
    // The dots across and down.
    pub fn resolution(self) -> Size
        ensures { result ≡ resolution_of self.marker self.columns self.rows }
    {
        let size = dot_size(self.marker);
        Size {
            columns: u32::from(self.columns) * size.columns,
            rows: u32::from(self.rows) * size.rows,
        }
    }

    // How many of the cells the store has: for paint_braille, paint_plain and paint_half, and to test the
    // cells of a line once.
    pub fn cells_held(self, cells: &[u32]) -> usize
        ensures { result ≡ cells_held cells.now self.columns self.rows }
    {
        let n = cell_count(self.columns, self.rows);
        n.min(cells.len() / 5)
    }

    // A dot painted: in the cell that it falls in, or nowhere where that is past the last.
    #[tactic(auto, using(crate::proofs::HalfCells::painting))]
    pub fn paint(self, cells: &mut [u32], column: u32, row: u32, word: u32)
        ensures { cells.new ≡ paint_of self.marker self.columns self.rows cells.old column row word }
    {
        let end = self.cells_held(cells);
        match self.marker {
            Marker::Braille => paint_braille(cells, self.columns, end, column, row, word),
            Marker::HalfBlock => paint_half(cells, self.columns, end, column, row, word),
            Marker::Quadrant => { paint_sized::<2, 2>(cells, self.columns, end, column, row, word) }
            Marker::Sextant => paint_sized::<2, 3>(cells, self.columns, end, column, row, word),
            Marker::Dot | Marker::Block | Marker::Bar | Marker::Custom => {
                paint_plain(cells, self.columns, end, column, row, word)
            }
        }
    }
}
