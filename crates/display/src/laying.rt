// The picture and the labels laid on the screen, three plain words a cell.
// Screen, area, canvas and cells go one by one, as in crate canvas: which of them is written is said by &mut.
ghost use Rattle.std.specs.Prelude.{◌≡◌, ℕ, ◌+◌, ◌-◌, ◌*◌, ◌/◌, ◌^◌, ◌<◌, ◌≤◌, min, true, false, length, get_or};
ghost use Rattle.grids.specs.Lists.{foldl};
ghost use Rattle.view.specs.Limits.{max_labels};
ghost use Rattle.ledger.specs.Calls.{passes_edge, bad_screen};
ghost use Rattle.ledger.specs.Screen.{cell_on, put_on, or_else, layered};
ghost use Rattle.ledger.specs.Labels.{place_of, label_at, held_labels};
ghost use Rattle.ledger.specs.Model.{spot, puts, picture_at, laid_screen, fitting_at, fitting, written_label, label_cells};

use grids::painting::cell_count;
use ledger::screen::Area;
use ledger::state::Canvas;

// The area passes an edge of the screen.
pub fn passes_edge(c: Canvas, a: Area) -> bool
    ensures { result ≡ passes_edge c.columns c.rows a }
{
    (u32::from(a.columns) < u32::from(a.x) + u32::from(c.columns))
        | (u32::from(a.rows) < u32::from(a.y) + u32::from(c.rows))
}

// The screen has another number of cells than its size says.
pub fn is_bad_screen(a: Area, words: &[u32]) -> bool
    ensures { result ≡ bad_screen a words.now }
{
    words.len() != cell_count(a.columns, a.rows) * 3
}

// A word's value, or else another.
pub fn value_or(word: u32, other: u32) -> u32
    ensures { result ≡ or_else word other }
{
    word.checked_sub(1).unwrap_or(other)
}

// A column and row of the area, as a cell of the screen. A u32 is cast by `as`, here and below, since usize has no From of it.
#[tactic(auto, unfolding(ledger::specs::Model::spot))]
fn spot_index(a: Area, column: u32, row: u32) -> usize
    ensures place { result ≡ spot a column row }
    ensures small { result < 2 ^ 50 }
{
    (usize::from(a.y) + row as usize) * usize::from(a.columns)
        + (usize::from(a.x) + column as usize)
}

// A cell of the store laid on a cell of the screen; both are there. 'Background first, then layers'.
#[tactic(auto, using(crate::proofs::Rows::cell_held), unfolding(grids::specs::Cells::words_at))]
fn lay_cell(screen: &mut [u32], cells: &[u32], i: usize, background: u32)
    requires { (i * 3 + 3 ≤ length screen.old) × (i * 5 + 5 ≤ length cells.now) }
    ensures { screen.new ≡ put_on screen.old i (layered background (picture_at cells.now i) (cell_on screen.old i)) }
{
    let j = i * 3;
    let k = i * 5;
    let symbol = value_or(cells[k], screen[j]);
    let foreground = value_or(cells[k + 1], screen[j + 1]);
    let back = value_or(cells[k + 2], background);
    screen[j] = symbol;
    screen[j + 1] = foreground;
    screen[j + 2] = back;
}

// Cells of the store laid side by side on as many of the screen. By an index, since what a loop over
// chunks_exact_mut wrote is not known after it.
fn lay_cells(screen: &mut [u32], cells: &[u32], background: u32)
    requires { length cells.now / 5 * 3 ≤ length screen.old }
    ensures { screen.new ≡ puts (λ i. i) (λ i. layered background (picture_at cells.now i)) screen.old (length cells.now / 5) }
{
    for i in 0..cells.len() / 5 {
        lay_cell(screen, cells, i, background);
    }
}

// The background alone laid on cells of the screen.
fn lay_blank(screen: &mut [u32], background: u32)
    ensures { screen.new ≡ puts (λ i. i) (λ i. layered background (record { symbol = 0; foreground = 0; background = 0 })) screen.old (length screen.old / 3) }
{
    for i in 0..screen.len() / 3 {
        screen[i * 3 + 2] = background;
    }
}

// Whether no word is set.
#[tactic(auto, using(crate::proofs::Rows::or_zero))]
fn is_blank(words: &[u32]) -> bool
    ensures { result ≡ true → (k : ℕ) → k < length words.now → get_or words.now k 0 ≡ 0 }
{
    let mut any: u32 = 0;
    for word in words {
        any |= *word;
    }
    any == 0
}

// Eight cells of the store laid on eight of the screen. 'A layer sets nothing in a cell without its dots',
// and most have none: there the symbol and the foreground stay, and the background alone is written.
fn lay_eight(screen: &mut [u32], cells: &[u32], background: u32)
    requires { (length screen.old ≡ 24) × (length cells.now ≡ 40) }
    ensures { screen.new ≡ puts (λ i. i) (λ i. layered background (picture_at cells.now i)) screen.old 8 }
{
    if is_blank(cells) {
        lay_blank(screen, background);
    } else {
        lay_cells(screen, cells, background);
    }
}

// A row of the canvas laid on the screen: its cells that the store has, eight at a time while there are as
// many, and blank ones past the store's last.
fn lay_row(screen: &mut [u32], cells: &[u32], background: u32)
    requires { length cells.now / 5 ≤ length screen.old / 3 }
    ensures { screen.new ≡ puts (λ i. i) (λ i. layered background (picture_at cells.now i)) screen.old (length screen.old / 3) }
{
    let eights = cells.len() / 40;
    for i in 0..eights {
        lay_eight(
            &mut screen[i * 24..i * 24 + 24],
            &cells[i * 40..i * 40 + 40],
            background,
        );
    }
    lay_cells(
        &mut screen[eights * 24..],
        &cells[eights * 40..],
        background,
    );
    let held = cells.len() / 5;
    lay_blank(&mut screen[held * 3..], background);
}

// The canvas' rows laid on a screen that the area fits, each from those of its cells that the store has.
#[tactic(auto, using(crate::proofs::Rows::row_in_screen))]
fn lay_rows(screen: &mut [u32], a: Area, cells: &[u32], c: Canvas)
    requires { (passes_edge c.columns c.rows a ≡ false) × (bad_screen a screen.old ≡ false) }
    ensures { screen.new ≡ laid_screen c cells.now a screen.old }
{
    let columns = usize::from(c.columns);
    for row in 0..u32::from(c.rows) {
        let at = spot_index(a, 0, row) * 3;
        let from = (row as usize * columns * 5).min(cells.len());
        let end = (from + columns * 5).min(cells.len());
        lay_row(
            &mut screen[at..at + columns * 3],
            &cells[from..end],
            c.background,
        );
    }
}

// The canvas' cells laid on the screen; nothing is where the area passes an edge or the screen is bad,
// which render refuses.
pub fn lay(screen: &mut [u32], a: Area, cells: &[u32], c: Canvas)
    ensures { passes_edge c.columns c.rows a ≡ false → bad_screen a screen.old ≡ false
        → screen.new ≡ laid_screen c cells.now a screen.old }
{
    if passes_edge(c, a) {
        return;
    }
    if is_bad_screen(a, screen) {
        return;
    }
    lay_rows(screen, a, cells, c);
}

// How many bytes of a label at this place stand in the canvas' area: 0 is the number where none does.
fn fitting_bytes(c: Canvas, column_word: u32, row: u32, length: u32) -> u32
    ensures { result ≡ fitting_at c.columns c.rows (place_of column_word row) length }
{
    if (column_word == 0) | (row >= u32::from(c.rows)) {
        return 0;
    }
    let room = u32::from(c.columns).saturating_sub(column_word - 1);
    length.min(room)
}

// One byte of a label written.
fn write_byte(screen: &mut [u32], j: usize, byte: u32, word: u32)
    requires { j * 3 + 3 ≤ length screen.old }
    ensures { screen.new
        ≡ put_on screen.old j (record { symbol = byte; foreground = or_else word (cell_on screen.old j).foreground; background = (cell_on screen.old j).background }) }
{
    let k = j * 3;
    let foreground = value_or(word, screen[k + 1]);
    screen[k] = byte;
    screen[k + 1] = foreground;
}

// The bytes of a label written side by side, from the cell `at` on.
fn write_bytes(screen: &mut [u32], at: usize, bytes: &[u32], word: u32)
    requires { (at + length bytes.now) * 3 ≤ length screen.old }
    ensures { screen.new
        ≡ puts (λ i. at + i) (λ i old. record { symbol = get_or bytes.now i 0; foreground = or_else word old.foreground; background = old.background }) screen.old (length bytes.now) }
{
    for (i, byte) in bytes.iter().enumerate() {
        write_byte(screen, at + i, *byte, word);
    }
}

// The label k written on the screen; the number of its cells, which is 0 where none stands in the area.
#[tactic(auto, using(ledger::proofs::Written::label_writing))]
pub fn write_label(screen: &mut [u32], a: Area, c: Canvas, labels: &[u32], k: u32) -> u32
    ensures { k * 44 + 44 ≤ length labels.now → passes_edge c.columns c.rows a ≡ false → bad_screen a screen.old ≡ false
        → (result ≡ fitting c (label_at labels.now k)) × (screen.new ≡ written_label c a screen.old (label_at labels.now k)) }
{
    let at = (k as usize) * 44;
    if at + 44 > labels.len() {
        return 0;
    }
    let label = &labels[at..at + 44];
    let length = label[3].min(40);
    let n = fitting_bytes(c, label[0], label[1], length);
    let bytes = &label[4..4 + n as usize];
    let start = spot_index(a, label[0].saturating_sub(1), label[1]);
    if start + bytes.len() <= screen.len() / 3 {
        write_bytes(screen, start, bytes, label[2]);
    }
    n
}

// The labels held written on the screen, in order; the number of their cells.
#[tactic(auto, using(ledger::proofs::Written::count_next, ledger::proofs::Written::written_next))]
pub fn write_labels(screen: &mut [u32], a: Area, c: Canvas, labels: &[u32]) -> u32
    ensures { c.labels ≤ max_labels → max_labels * 44 ≤ length labels.now → passes_edge c.columns c.rows a ≡ false → bad_screen a screen.old ≡ false
        → (result ≡ label_cells c (held_labels labels.now c.labels)) × (screen.new ≡ foldl (written_label c a) screen.old (held_labels labels.now c.labels)) }
{
    let mut count: u32 = 0;
    for k in 0..c.labels.min(64) {
        let n = write_label(screen, a, c, labels, k);
        count = count.wrapping_add(n);
    }
    count
}
