// What the grid being drawn sets in the picture, and the loops over a canvas' cells: save, reset, both
// for a finished layer, and blank (the grids' `save` and `reset` of src/canvas.rs in ratatui-widgets).
// In a LayerCell, as in the store, a word of 0 sets nothing and value + 1 sets a value. The character goes
// beside the marker: a canvas holds one whatever its marker is, and a grid's dots do not depend on it.
#![tactic(auto)]

ghost use Rattle.std.specs.Prelude.{◌≡◌, false, ◌&&◌, List, ℕ, suc, ◌+◌, ◌*◌, ◌/◌, ◌%◌, ◌^◌, ◌≤◌, ◌<◌, min, eqb, length};
ghost use Rattle.grids.specs.Lists.{over};
ghost use Rattle.grids.specs.declared.markers.Marker.{Marker};
ghost use Rattle.grids.specs.Markers.{is_half_block, is_block};
ghost use Rattle.grids.specs.Symbols.{braille_symbol, pattern_count, symbol_of};
ghost use Rattle.grids.specs.Dots.{half_block_cell};
ghost use Rattle.grids.specs.Cells.{cell_at, do_cell, do_four, each_cell};
ghost use Rattle.grids.specs.Layer.{pattern_sets, layer_cell, laid_over, saved_cell, cleared_cell, merged_cell, is_bare, save_of, reset_of, blank_of};

use grids::cells::{Cell, load, store};
use grids::layer::LayerCell;
use grids::markers::Marker;
use grids::painting::{Grid, cell_count};
use grids::symbols::{braille_symbol, read_pattern, symbol};

// Of a HalfBlock grid, by the inks of the two halves.
#[tactic(auto, unfolding(grids::specs::Dots::half_block_cell))]
fn half_block_cell(upper: u32, lower: u32) -> LayerCell
    ensures { result ≡ half_block_cell upper lower }
{
    let (symbol, foreground, background) = match (upper, lower) {
        (0, 0) => (0, 0, 0),
        (0, _) => (0x2585, lower, 0),
        (_, 0) => (0x2581, upper, 0),
        _ if upper == lower => (0x2589, upper, lower),
        _ => (0x2581, upper, lower),
    };
    LayerCell {
        symbol,
        foreground,
        background,
    }
}

// Of any other grid, by its pattern and ink.
#[tactic(auto, using(crate::proofs::SavedCells::symbols))]
fn pattern_cell(marker: Marker, character: u32, pattern: u32, ink: u32) -> LayerCell
    ensures { result ≡ pattern_sets marker (character % 2 ^ 21) pattern ink }
{
    if pattern == 0 {
        return LayerCell::default();
    }
    LayerCell {
        symbol: symbol(marker, character, pattern) + 1,
        foreground: ink,
        background: if marker == Marker::Block { ink } else { 0 },
    }
}

// What the grid sets in a cell.
#[tactic(auto, unfolding(grids::specs::Layer::layer_cell))]
pub fn layer_cell(marker: Marker, character: u32, c: Cell) -> LayerCell
    ensures { result ≡ layer_cell marker (character % 2 ^ 21) c }
{
    if marker == Marker::HalfBlock {
        return half_block_cell(c.pattern, c.ink);
    }
    let pattern = read_pattern(marker, c.pattern);
    pattern_cell(marker, character, pattern, c.ink)
}

// A word over another: what the upper one sets, else what the lower one does. No method of the library
// does this with numbers, and an Option of a word would need a second one in the store.
fn over_word(upper: u32, lower: u32) -> u32
    ensures { result ≡ over upper lower }
{
    if upper == 0 { lower } else { upper }
}

// A cell with its grid laid over its picture.
#[tactic(auto, unfolding(grids::specs::Layer::saved_cell))]
fn saved_cell(marker: Marker, character: u32, c: Cell) -> Cell
    ensures { result ≡ saved_cell marker (character % 2 ^ 21) c }
{
    let l = layer_cell(marker, character, c);
    let symbol = over_word(l.symbol, c.symbol);
    let foreground = over_word(l.foreground, c.foreground);
    let background = over_word(l.background, c.background);
    Cell {
        symbol,
        foreground,
        background,
        ..c
    }
}

// A cell's words are reached by its index, here and below: of the slice that chunks_exact_mut and
// as_chunks_mut lend in parts, the library does not say what it ends as.

// The grid of a cell cleared: no ink stays. The picture's words are not touched.
#[tactic(auto, using(crate::proofs::SavedCells::words))]
fn clear_at(cells: &mut [u32], i: usize)
    requires { i < length cells.old / 5 }
    ensures { cells.new ≡ do_cell cleared_cell cells.old i }
{
    let at = i * 5;
    cells[at + 3] = 0;
    cells[at + 4] = 0;
}

// What the grid sets in a cell, laid over its picture, and the grid cleared.
#[tactic(auto, unfolding(grids::specs::Cells::put_cell, grids::specs::Cells::put_words, grids::specs::Cells::cell_at, grids::specs::Cells::words_at))]
fn lay_at(cells: &mut [u32], i: usize, l: LayerCell)
    requires { i < length cells.old / 5 }
    ensures { cells.new ≡ do_cell (λ c. cleared_cell (laid_over l c)) cells.old i }
{
    let k = i * 5;
    let symbol = over_word(l.symbol, cells[k]);
    let foreground = over_word(l.foreground, cells[k + 1]);
    let background = over_word(l.background, cells[k + 2]);
    cells[k] = symbol;
    cells[k + 1] = foreground;
    cells[k + 2] = background;
    cells[k + 3] = 0;
    cells[k + 4] = 0;
}

// Whether the grid holds nothing in a cell: by `&`, since a branch for each word would cost more than
// reading it.
#[tactic(auto, using(crate::proofs::SavedCells::words))]
fn is_bare(cells: &[u32], i: usize) -> bool
    requires { i < length cells.now / 5 }
    ensures { result ≡ is_bare (cell_at cells.now i) }
{
    let k = i * 5;
    (cells[k + 3] == 0) & (cells[k + 4] == 0)
}

// Whether it holds nothing in four cells that follow each other.
fn are_bare(cells: &[u32], i: usize) -> bool
    requires { i + 4 ≤ length cells.now / 5 }
    ensures { result ≡ ((is_bare (cell_at cells.now i) && is_bare (cell_at cells.now (i + 1)))
        && is_bare (cell_at cells.now (i + 2))) && is_bare (cell_at cells.now (i + 3)) }
{
    let first = is_bare(cells, i);
    let second = is_bare(cells, i + 1);
    let third = is_bare(cells, i + 2);
    let fourth = is_bare(cells, i + 3);
    first & second & third & fourth
}

// A cell merged: saved, and its grid cleared.
#[inline(always)]
#[tactic(auto, using(crate::proofs::SavedCells::words), unfolding(grids::specs::Layer::saved_cell))]
fn merge_at(cells: &mut [u32], i: usize, marker: Marker, character: u32)
    requires { i < length cells.old / 5 }
    ensures { cells.new ≡ do_cell (merged_cell marker (character % 2 ^ 21)) cells.old i }
{
    let k = i * 5;
    let c = Cell {
        pattern: cells[k + 3],
        ink: cells[k + 4],
        ..Cell::default()
    };
    let l = layer_cell(marker, character, c);
    lay_at(cells, i, l);
}

// A cell whose grid sets a symbol, by its word, and no background: merged.
#[tactic(auto, using(crate::proofs::SavedCells::words))]
fn lay_word(cells: &mut [u32], i: usize, word: u32)
    requires { i < length cells.old / 5 }
    ensures { cells.new ≡ do_cell (λ c. record { symbol = word; foreground = over c.ink c.foreground; background = c.background; pattern = 0; ink = 0 })
        cells.old i }
{
    let first = i * 5;
    let foreground = over_word(cells[first + 4], cells[first + 1]);
    cells[first] = word;
    cells[first + 1] = foreground;
    cells[first + 3] = 0;
    cells[first + 4] = 0;
}

// The word of a Braille pattern's symbol.
#[tactic(auto, using(crate::proofs::SavedCells::symbols))]
fn braille_word(pattern: u32) -> u32
    ensures { result ≡ suc (braille_symbol pattern) }
{
    braille_symbol(pattern) + 1
}

// A cell of a grid of so many patterns that sets no background merged: by `word_of`, the word of a
// pattern's symbol.
#[inline(always)]
#[tactic(auto, using(crate::proofs::SavedCells::merged))]
fn merge_symbol<const PATTERNS: u32, F: Fn(u32) -> u32>(cells: &mut [u32], i: usize, word_of: &F)
    requires held { i < length cells.old / 5 }
    requires some { 0 < PATTERNS }
    requires can { F.IsAlwaysCallable word_of.now }
    ensures { (marker : Marker) (character : ℕ) → is_half_block marker ≡ false → is_block marker ≡ false → pattern_count marker ≡ PATTERNS
        → ((pattern word : ℕ) → pattern < PATTERNS → F.post word_of.now pattern word → word ≡ suc (symbol_of marker character pattern))
        → cells.new ≡ do_cell (merged_cell marker character) cells.old i }
{
    let pattern = cells[i * 5 + 3] % PATTERNS;
    if pattern == 0 {
        clear_at(cells, i);
    } else {
        let word = word_of(pattern);
        lay_word(cells, i, word);
    }
}

// Four cells of such a grid merged.
#[inline(always)]
fn merge_four_symbols<const PATTERNS: u32, F: Fn(u32) -> u32>(
    cells: &mut [u32],
    i: usize,
    word_of: F,
)
    requires held { i + 4 ≤ length cells.old / 5 }
    requires some { 0 < PATTERNS }
    requires can { F.IsAlwaysCallable word_of }
    ensures { (marker : Marker) (character : ℕ) → is_half_block marker ≡ false → is_block marker ≡ false → pattern_count marker ≡ PATTERNS
        → ((pattern word : ℕ) → pattern < PATTERNS → F.post word_of pattern word → word ≡ suc (symbol_of marker character pattern))
        → cells.new ≡ do_four (merged_cell marker character) cells.old i }
{
    merge_symbol::<PATTERNS, F>(cells, i, &word_of);
    merge_symbol::<PATTERNS, F>(cells, i + 1, &word_of);
    merge_symbol::<PATTERNS, F>(cells, i + 2, &word_of);
    merge_symbol::<PATTERNS, F>(cells, i + 3, &word_of);
}

// Four cells merged. Without ink they stay as they are, which is the same, since 'A layer sets nothing
// in a cell without its dots'; most cells of a layer are so, and four are tested as fast as one.
// Braille, Dot and Custom are told apart once for the four, and not for each cell.
#[inline(always)]
#[tactic(auto, using(crate::proofs::SavedCells::merged))]
fn merge_four(cells: &mut [u32], i: usize, marker: Marker, character: u32, word: u32)
    requires { (i + 4 ≤ length cells.old / 5) × (word ≡ suc (symbol_of marker (character % 2 ^ 21) 1)) }
    ensures { cells.new ≡ do_four (merged_cell marker (character % 2 ^ 21)) cells.old i }
{
    if are_bare(cells, i) {
        return;
    }
    match marker {
        Marker::Braille => merge_four_symbols::<256, _>(cells, i, braille_word),
        Marker::Dot | Marker::Custom => merge_four_symbols::<2, _>(cells, i, |_| word),
        _ => {
            merge_at(cells, i, marker, character);
            merge_at(cells, i + 1, marker, character);
            merge_at(cells, i + 2, marker, character);
            merge_at(cells, i + 3, marker, character);
        }
    }
}

// The first n fours of cells merged. In its callers, where the marker may be a constant.
#[inline(always)]
#[tactic(auto, using(crate::proofs::SavedCells::symbols, crate::proofs::CellLoops::passes))]
fn merge_fours(cells: &mut [u32], n: usize, marker: Marker, character: u32)
    requires { n * 4 ≤ length cells.old / 5 }
    ensures { cells.new ≡ each_cell (merged_cell marker (character % 2 ^ 21)) cells.old (n * 4) }
{
    let word = symbol(marker, character, 1) + 1;
    for i in 0..n {
        merge_four(cells, i * 4, marker, character, word);
    }
}

// The cells from one place to the n-th merged, after those before it.
fn merge_rest(cells: &mut [u32], from: usize, n: usize, marker: Marker, character: u32)
    requires { (from ≤ n) × (n ≤ length cells.old / 5) }
    ensures { (start : List ℕ) → cells.old ≡ each_cell (merged_cell marker (character % 2 ^ 21)) start from
        → cells.new ≡ each_cell (merged_cell marker (character % 2 ^ 21)) start n }
{
    for i in from..n {
        merge_at(cells, i, marker, character);
    }
}

// The grid laid over the picture, in each of the canvas' cells.
pub fn save(cells: &mut [u32], grid: Grid, character: u32)
    ensures { cells.new ≡ save_of grid.marker (character % 2 ^ 21) cells.old (grid.columns * grid.rows) }
{
    let n = cell_count(grid.columns, grid.rows);
    for i in 0..n {
        let c = load(cells, i);
        let d = saved_cell(grid.marker, character, c);
        store(cells, i, d);
    }
}

// The grid cleared, in each of the canvas' cells.
#[tactic(auto, using(crate::proofs::CellLoops::passes))]
pub fn reset(cells: &mut [u32], grid: Grid)
    ensures { cells.new ≡ reset_of cells.old (grid.columns * grid.rows) }
{
    let n = grid.cells_held(cells);
    for i in 0..n {
        clear_at(cells, i);
    }
}

// save and reset in one pass, four cells at a time.
#[tactic(auto, using(crate::proofs::CellLoops::passes))]
fn save_reset(cells: &mut [u32], grid: Grid, character: u32)
    ensures { cells.new ≡ reset_of (save_of grid.marker (character % 2 ^ 21) cells.old (grid.columns * grid.rows)) (grid.columns * grid.rows) }
{
    let n = grid.cells_held(cells);
    let fours = n / 4;
    // A loop of its own for each grid that most pictures are drawn on.
    match grid.marker {
        Marker::Braille => merge_fours(cells, fours, Marker::Braille, character),
        Marker::Dot => merge_fours(cells, fours, Marker::Dot, character),
        Marker::Custom => merge_fours(cells, fours, Marker::Custom, character),
        marker => merge_fours(cells, fours, marker, character),
    }
    merge_rest(cells, fours * 4, n, grid.marker, character);
}

// A layer saved, and its grid cleared: 'Each saving clears the grid'. HalfBlock, Quadrant and Sextant
// take the two passes of the Rust. Braille and the grids of one dot a cell, which most pictures are
// drawn on, take one: there a second pass was measured to matter.
pub fn finish_layer(cells: &mut [u32], grid: Grid, character: u32)
    ensures { cells.new ≡ reset_of (save_of grid.marker (character % 2 ^ 21) cells.old (grid.columns * grid.rows)) (grid.columns * grid.rows) }
{
    if matches!(
        grid.marker,
        Marker::HalfBlock | Marker::Quadrant | Marker::Sextant
    ) {
        save(cells, grid, character);
        reset(cells, grid);
    } else {
        save_reset(cells, grid, character);
    }
}

// The canvas' cells made blank: one fill of memory.
#[tactic(auto, using(crate::proofs::CellLoops::passes))]
pub fn blank(cells: &mut [u32], grid: Grid)
    ensures { cells.new ≡ blank_of cells.old (grid.columns * grid.rows) }
{
    let n = grid.cells_held(cells) * 5;
    cells[..n].fill(0);
}
