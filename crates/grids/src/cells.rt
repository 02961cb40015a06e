// The lent store of cells, CELL_WORDS words a cell. In each word 0 is nothing, and value + 1 is a
// value. A cell by itself is read and written through load and store. Loops over many cells or dots
// (in crates columns, layers, lines and display) reach the words that they need by themselves, or
// lend a cell's to painting's ink, and test once how many cells the store has.
ghost use Rattle.std.specs.Prelude.{◌≡◌};
ghost use Rattle.grids.specs.Cells.{cell_at, put_cell};

pub const CELL_WORDS: usize = 5;

// A cell: the composed picture's symbol and colours, then what the grid being drawn holds. That is a
// pattern of dots and the last one's ink; on a HalfBlock grid the upper dot's ink and the lower's.
#[derive(Clone, Copy, Default)]
pub struct Cell {
    pub symbol: u32,
    pub foreground: u32,
    pub background: u32,
    pub pattern: u32,
    pub ink: u32,
}

// The cell i of the store; blank past its last whole cell.
#[tactic(auto, unfolding(crate::specs::Cells::cell_at, crate::specs::Cells::words_at))]
pub fn load(cells: &[u32], i: usize) -> Cell
    ensures { result ≡ cell_at cells.now i }
{
    if i < cells.len() / 5 {
        let k = i * 5;
        Cell {
            symbol: cells[k],
            foreground: cells[k + 1],
            background: cells[k + 2],
            pattern: cells[k + 3],
            ink: cells[k + 4],
        }
    } else {
        Cell::default()
    }
}

// The cell i of the store becomes c; past the last whole cell nothing changes.
#[tactic(auto, unfolding(crate::specs::Cells::put_cell, crate::specs::Cells::put_words))]
pub fn store(cells: &mut [u32], i: usize, c: Cell)
    ensures { cells.new ≡ put_cell cells.old i c }
{
    if i < cells.len() / 5 {
        let k = i * 5;
        cells[k] = c.symbol;
        cells[k + 1] = c.foreground;
        cells[k + 2] = c.background;
        cells[k + 3] = c.pattern;
        cells[k + 4] = c.ink;
    }
}
