// The dots of a line by its course, where the store has the cell of each, so that none is tested: on
// Braille, and on the grids of one dot a cell. Most lines of most pictures are such, and a test for
// each dot was measured to matter.
ghost use Rattle.std.specs.Prelude.{◌≡◌, ℕ, ◌+◌, ◌*◌, ◌/◌, ◌^◌, ◌<◌, [], ◌∷◌, length, ◌≢◌};
ghost use Rattle.walk.specs.Course.{course_dot, course_after, course_dots};
ghost use Rattle.grids.specs.declared.markers.Marker.{Marker};
ghost use Rattle.grids.specs.Markers.{by, dot_size};
ghost use Rattle.grids.specs.Painting.{cells_held};
ghost use Rattle.lines.specs.Painted.{painted_by};
ghost use Rattle.lines.specs.HeldWords.{word_after, words_set};

use crate::painter::Painter;
use grids::painting::{flat_index, ink};
use walk::bresenham::Dot;
use walk::course::{Course, ONE};
use walk::route::Route;

// A dot of a Braille grid whose cell the store has: paint_braille of grids without its test.
fn set_braille(cells: &mut [u32], p: Painter, d: Dot)
    requires { (p.grid.marker ≡ Marker.Braille) × (d.row / 4 * p.grid.columns + d.column / 2 < cells_held cells.old p.grid.columns p.grid.rows) }
    ensures { cells.new ≡ painted_by p cells.old (d ∷ []) }
{
    let i = flat_index(p.grid.columns, d.column / 2, d.row / 4);
    let place = d.row % 4 * 2 + d.column % 2;
    let k = i * 5;
    ink(&mut cells[k..k + 5], 1 << place, p.word);
}

// The dots of a course on a Braille grid, where the cell of each is held, so that none is tested.
#[inline(never)]
pub(crate) fn held_braille(cells: &mut [u32], p: Painter, c: Course)
    requires { (p.grid.marker ≡ Marker.Braille) × ((k : ℕ) → k < c.count → (course_dot (course_after k c)).row / 4 * p.grid.columns + (course_dot (course_after k c)).column / 2 < cells_held cells.old p.grid.columns p.grid.rows) }
    ensures { cells.new ≡ painted_by p cells.old (course_dots c c.count) }
{
    for dot in c.dots() {
        set_braille(cells, p, dot);
    }
}

// Bit and ink of cells that the store has: the k-th stands at word start + k * step + unit * the whole
// part of from + k * slope. Its numbers are computed once for a line, and go in by registers. By `as`, here and
// below, since usize has no From of u64.
fn held_words(
    cells: &mut [u32],
    word: u32,
    start: usize,
    step: usize,
    unit: usize,
    from: u64,
    slope: u64,
    count: u32,
)
    requires { (start + count * step < 2 ^ 64) × ((k : ℕ) → k < count → word_after start step unit from slope k + 4 < length cells.old) }
    ensures { cells.new ≡ words_set word (word_after start step unit from slope) cells.old count }
{
    let mut at = start;
    let mut place = from;
    for _k in 0..count {
        let i = at + ((place / ONE) as usize) * unit;
        cells[i + 3] |= 1;
        cells[i + 4] = word;
        at += step;
        place = place.wrapping_add(slope);
    }
}

// The dots of a course on a grid of one dot a cell, where the cell of each is held, so that none is
// tested. Each step goes a whole column or, where it does not, a whole row, so that only the other way
// needs its fixed point.
pub(crate) fn held_plain(cells: &mut [u32], p: Painter, c: Course)
    requires { (dot_size p.grid.marker ≡ by 1 1) × ((k : ℕ) → k < c.count → (course_dot (course_after k c)).row * p.grid.columns + (course_dot (course_after k c)).column < cells_held cells.old p.grid.columns p.grid.rows) × ((k : ℕ) → k < c.count → (c.right ≡ 2 ^ 48 → (course_dot (course_after k c)).column ≡ c.column / 2 ^ 48 + k) × ((c.right ≢ 2 ^ 48) → (course_dot (course_after k c)).row ≡ c.row / 2 ^ 48 + k)) }
    ensures { cells.new ≡ painted_by p cells.old (course_dots c c.count) }
{
    // By `as`: over usize::from the two conditions of held_words did not close.
    let stride = (p.grid.columns as usize) * 5;
    if c.right == ONE {
        let start = ((c.column / ONE) as usize) * 5;
        held_words(cells, p.word, start, 5, stride, c.row, c.down, c.count);
    } else {
        let start = ((c.row / ONE) as usize) * stride;
        held_words(cells, p.word, start, stride, 5, c.column, c.right, c.count);
    }
}
