// The calls on a canvas: document 01, 'Calls and refusals, in order'. A refused call leaves the canvas
// and every lent list as they were. Canvas, cells and labels stand side by side, since which of them a call
// writes is said by `&mut`; markers come as numbers, since one that is no marker is refused with 4.
ghost use Rattle.std.specs.Prelude.{◌≡◌, ◌+◌, ◌^◌, ◌<◌, ◌≤◌, cond, List, length};
ghost use Rattle.refusals.specs.Refusals.{number_of, number_in};
ghost use Rattle.view.specs.Limits.{max_columns, max_rows, max_draws, reset};
ghost use Rattle.walk.specs.declared.clip.Pair.{Pair};
ghost use Rattle.shapes.specs.declared.painters.Shape.{Shape};
ghost use Rattle.ledger.specs.Calls.{bad_shape, bad_pairs, open_refusal, draw, points, dot, layer, marker, print, render};
ghost use Rattle.ledger.specs.Model.{zero_canvas, open_cells, drawn_canvas, marked_cells, rendered_cells, state_after};
ghost use Rattle.ledger.specs.Outcomes.{given, refusal_by, answer_on, screen_on, open_called, painter_of};
ghost use Rattle.ledger.specs.PointCall.{pointed_on};
ghost use Rattle.canvas.specs.Results.{opened, painted, done, rendered, found};

use display::labels::{choice_word, is_bad_choice, is_bad_text, put_label};
use display::laying::{is_bad_screen, lay, passes_edge, write_labels};
use grids::markers::is_marker;
use grids::painting::cell_count;
use layers::{blank, finish_layer, reset};
use ledger::screen::Area;
use ledger::state::{Canvas, Opening};
use limits::state::{
    is_bad_bounds, is_bad_canvas, is_bad_colour, is_bad_point, is_bad_shape, is_bad_size, is_full,
    is_outside_grid, state,
};
use lines::painter::Painter;
use refusals::refusal::Refusal;
use shapes::painters::{Shape, paint_shape};
use view::point::{label_place, point, view_of};
use walk::clip::Bounds;

// What a render counts: the dots painted in all, and the cells that labels took.
#[derive(Clone, Copy, PartialEq, Eq, Debug)]
pub struct Rendered {
    pub painted: u64,
    pub label_cells: u32,
}

// ---- what each call is refused on

// A condition of a refusal. Each list of them below stands in document 01's order.
fn refuse_if(met: bool, refusal: Refusal) -> Result<(), Refusal>
    ensures { number_in result ≡ cond met (number_of refusal) 0 }
{
    if met { Err(refusal) } else { Ok(()) }
}

#[tactic(auto, using(crate::proofs::Refusing::conditions), unfolding(ledger::specs::Calls::open_refusal))]
fn open_refusal(o: Opening, cells: usize, labels: usize) -> Result<(), Refusal>
    ensures { number_in result ≡ open_refusal o cells labels }
{
    refuse_if(is_bad_size(o.columns, o.rows), Refusal::Size)?;
    refuse_if(is_bad_bounds(o.bounds), Refusal::Number)?;
    refuse_if(is_bad_colour(o.background), Refusal::Colour)?;
    refuse_if(!is_marker(o.marker, o.character), Refusal::Marker)?;
    let n = cell_count(o.columns, o.rows);
    refuse_if((cells < n * 5) | (labels < 2816), Refusal::Canvas)
}

// Of a draw: of its shape it is enough whether a number is bad. By a flag: an Option of the shape would be none
// where a number is bad, and what the call is refused with first is said of the shape in both cases.
#[inline(always)]
#[tactic(auto, using(crate::proofs::Refusing::conditions), unfolding(ledger::specs::Calls::refusal))]
pub fn draw_refusal(
    c: Canvas,
    cells: usize,
    labels: usize,
    bad: bool,
    colour: u32,
) -> Result<(), Refusal>
    ensures { (shape : Shape) → bad ≡ bad_shape shape → number_in result ≡ refusal_by c cells labels (draw shape colour) }
{
    state(c, cells, labels)?;
    refuse_if(bad, Refusal::Number)?;
    refuse_if(is_bad_colour(colour), Refusal::Colour)?;
    refuse_if(is_full(c.draws), Refusal::Draws)
}

// Of Points: of its list of pairs the length and whether one of them is bad are enough.
#[tactic(auto, using(crate::proofs::Refusing::conditions), unfolding(ledger::specs::Calls::refusal))]
pub fn points_refusal(
    c: Canvas,
    cells: usize,
    labels: usize,
    bad: bool,
    count: usize,
    colour: u32,
) -> Result<(), Refusal>
    ensures { (pairs : List Pair) → bad ≡ bad_pairs pairs → count ≡ length pairs → number_in result ≡ refusal_by c cells labels (points pairs colour) }
{
    state(c, cells, labels)?;
    refuse_if(bad, Refusal::Number)?;
    refuse_if(is_bad_colour(colour), Refusal::Colour)?;
    refuse_if(is_full(c.draws), Refusal::Draws)?;
    refuse_if(count > 1000, Refusal::Pairs)
}

#[tactic(auto, using(crate::proofs::Refusing::conditions), unfolding(ledger::specs::Calls::refusal))]
fn dot_refusal(
    c: Canvas,
    cells: usize,
    labels: usize,
    column: u32,
    row: u32,
    colour: u32,
) -> Result<(), Refusal>
    ensures { number_in result ≡ refusal_by c cells labels (dot column row colour) }
{
    state(c, cells, labels)?;
    refuse_if(is_bad_colour(colour), Refusal::Colour)?;
    refuse_if(is_full(c.draws), Refusal::Draws)?;
    let outside = is_outside_grid(c, column, row);
    refuse_if(outside, Refusal::Outside)
}

#[tactic(auto, using(crate::proofs::Refusing::conditions), unfolding(ledger::specs::Calls::refusal))]
fn marker_refusal(
    c: Canvas,
    cells: usize,
    labels: usize,
    number: u8,
    character: u32,
) -> Result<(), Refusal>
    ensures { number_in result ≡ refusal_by c cells labels (marker number character) }
{
    state(c, cells, labels)?;
    refuse_if(!is_marker(number, character), Refusal::Marker)
}

#[tactic(auto, using(crate::proofs::Refusing::conditions), unfolding(ledger::specs::Calls::refusal))]
fn print_refusal(
    c: Canvas,
    cells: usize,
    labels: usize,
    x: f64,
    y: f64,
    text: &[u8],
    choice: Option<u32>,
) -> Result<(), Refusal>
    ensures { number_in result ≡ refusal_by c cells labels (print x y text.now choice) }
{
    state(c, cells, labels)?;
    refuse_if(is_bad_point(x, y), Refusal::Number)?;
    refuse_if(is_bad_choice(choice), Refusal::Colour)?;
    refuse_if(is_bad_text(text), Refusal::Text)?;
    refuse_if(c.labels >= 64, Refusal::Labels)
}

#[tactic(auto, using(crate::proofs::Refusing::conditions), unfolding(ledger::specs::Calls::refusal))]
fn render_refusal(
    c: Canvas,
    cells: usize,
    labels: usize,
    area: Area,
    screen: &[u32],
) -> Result<(), Refusal>
    ensures { number_in result ≡ refusal_by c cells labels (render area screen.now) }
{
    state(c, cells, labels)?;
    refuse_if(passes_edge(c, area), Refusal::Edge)?;
    refuse_if(is_bad_screen(area, screen), Refusal::Screen)
}

// ---- steps of the calls

// The canvas of a refused opening, which 'state' meets with 5.
pub fn zero_canvas() -> Canvas
    ensures { result ≡ zero_canvas }
{
    Canvas {
        columns: 0,
        rows: 0,
        bounds: Bounds {
            left: 0.0,
            right: 0.0,
            bottom: 0.0,
            top: 0.0,
        },
        marker: 0,
        character: 0,
        background: 0,
        dirty: false,
        rendered: false,
        labels: 0,
        draws: 0,
        painted: 0,
    }
}

// Where a draw in this colour paints.
pub fn painter_for(c: Canvas, colour: u32) -> Painter
    ensures { c.columns ≤ max_columns → c.rows ≤ max_rows → colour ≤ reset → result ≡ painter_of c colour }
{
    let grid = c.grid();
    Painter {
        view: view_of(c.bounds, grid),
        grid,
        word: colour.wrapping_add(1),
    }
}

// The canvas after a draw or dot of n dots.
pub fn count_draw(canvas: &mut Canvas, n: u64)
    ensures { canvas.old.draws < max_draws → canvas.old.painted + n < 2 ^ 64 → canvas.new ≡ drawn_canvas canvas.old n }
{
    canvas.dirty = true;
    canvas.draws = canvas.draws.wrapping_add(1);
    canvas.painted = canvas.painted.wrapping_add(n);
}

// The grid cleared in any case; a dirty one is laid over the picture before.
fn clear_grid(c: Canvas, cells: &mut [u32])
    ensures { cells.new ≡ marked_cells c cells.old }
{
    if c.dirty {
        finish_layer(cells, c.grid(), c.character);
    } else {
        reset(cells, c.grid());
    }
}

// A dirty grid laid over the picture, and cleared.
fn finish(c: Canvas, cells: &mut [u32])
    ensures { cells.new ≡ rendered_cells c cells.old }
{
    if c.dirty {
        finish_layer(cells, c.grid(), c.character);
    }
}

// ---- the calls

// A canvas as the opening says, blank in the lent store of cells.
pub fn open(opening: Opening, cells: &mut [u32], labels: &[u32]) -> Result<Canvas, Refusal>
    ensures canvas { opened result ≡ open_called opening cells.old (length labels.now) }
    ensures cells { cells.new ≡ open_cells opening cells.old (length labels.now) }
{
    open_refusal(opening, cells.len(), labels.len())?;
    let canvas = Canvas::opened(opening);
    blank(cells, canvas.grid());
    Ok(canvas)
}

// The same in place of a canvas that was held: a refused opening leaves the canvas of zeros there.
pub fn reopen(
    canvas: &mut Canvas,
    opening: Opening,
    cells: &mut [u32],
    labels: &[u32],
) -> Result<(), Refusal>
    ensures answer { done result ≡ (open_called opening cells.old (length labels.now)).answer }
    ensures canvas { canvas.new ≡ (open_called opening cells.old (length labels.now)).canvas }
    ensures cells { cells.new ≡ open_cells opening cells.old (length labels.now) }
{
    *canvas = zero_canvas();
    *canvas = open(opening, cells, labels)?;
    Ok(())
}

// A shape drawn in a colour; the number of its dots.
#[tactic(auto, using(ledger::proofs::CallFacts::calls))]
pub fn draw(
    canvas: &mut Canvas,
    cells: &mut [u32],
    labels: &[u32],
    shape: Shape,
    colour: u32,
) -> Result<u64, Refusal>
    ensures answer { painted result ≡ answer_on (given canvas.old cells.old labels.now) (draw shape colour) }
    ensures canvas { canvas.new ≡ (state_after (given canvas.old cells.old labels.now) (draw shape colour)).canvas }
    ensures cells { cells.new ≡ (state_after (given canvas.old cells.old labels.now) (draw shape colour)).cells }
{
    let bad = is_bad_shape(shape);
    draw_refusal(*canvas, cells.len(), labels.len(), bad, colour)?;
    let p = painter_for(*canvas, colour);
    let n = paint_shape(cells, p, shape);
    count_draw(canvas, n);
    Ok(n)
}

// One dot painted: `Painter::paint` inside a draw.
#[tactic(auto, using(ledger::proofs::CallFacts::calls))]
pub fn dot(
    canvas: &mut Canvas,
    cells: &mut [u32],
    labels: &[u32],
    column: u32,
    row: u32,
    colour: u32,
) -> Result<u64, Refusal>
    ensures answer { painted result ≡ answer_on (given canvas.old cells.old labels.now) (dot column row colour) }
    ensures canvas { canvas.new ≡ (state_after (given canvas.old cells.old labels.now) (dot column row colour)).canvas }
    ensures cells { cells.new ≡ (state_after (given canvas.old cells.old labels.now) (dot column row colour)).cells }
{
    dot_refusal(*canvas, cells.len(), labels.len(), column, row, colour)?;
    let word = colour.wrapping_add(1);
    canvas.grid().paint(cells, column, row, word);
    count_draw(canvas, 1);
    Ok(1)
}

// The layer saved, a clean one too, and a new one begun.
#[tactic(auto, using(ledger::proofs::CallFacts::calls))]
pub fn layer(canvas: &mut Canvas, cells: &mut [u32], labels: &[u32]) -> Result<(), Refusal>
    ensures answer { done result ≡ answer_on (given canvas.old cells.old labels.now) layer }
    ensures canvas { canvas.new ≡ (state_after (given canvas.old cells.old labels.now) layer).canvas }
    ensures cells { cells.new ≡ (state_after (given canvas.old cells.old labels.now) layer).cells }
{
    state(*canvas, cells.len(), labels.len())?;
    finish_layer(cells, canvas.grid(), canvas.character);
    canvas.dirty = false;
    Ok(())
}

// A dirty layer saved, the grid cleared, and a new one begun with another marker.
#[tactic(auto, using(ledger::proofs::CallFacts::calls))]
pub fn marker(
    canvas: &mut Canvas,
    cells: &mut [u32],
    labels: &[u32],
    number: u8,
    character: u32,
) -> Result<(), Refusal>
    ensures answer { done result ≡ answer_on (given canvas.old cells.old labels.now) (marker number character) }
    ensures canvas { canvas.new ≡ (state_after (given canvas.old cells.old labels.now) (marker number character)).canvas }
    ensures cells { cells.new ≡ (state_after (given canvas.old cells.old labels.now) (marker number character)).cells }
{
    marker_refusal(*canvas, cells.len(), labels.len(), number, character)?;
    clear_grid(*canvas, cells);
    canvas.marker = number;
    canvas.character = character;
    canvas.dirty = false;
    Ok(())
}

// A label kept, with its place in the area.
#[tactic(auto, using(ledger::proofs::CallFacts::calls))]
pub fn print(
    canvas: &mut Canvas,
    cells: &[u32],
    labels: &mut [u32],
    x: f64,
    y: f64,
    text: &[u8],
    choice: Option<u32>,
) -> Result<(), Refusal>
    ensures answer { done result ≡ answer_on (given canvas.old cells.now labels.old) (print x y text.now choice) }
    ensures canvas { canvas.new ≡ (state_after (given canvas.old cells.now labels.old) (print x y text.now choice)).canvas }
    ensures labels { labels.new ≡ (state_after (given canvas.old cells.now labels.old) (print x y text.now choice)).labels }
{
    print_refusal(*canvas, cells.len(), labels.len(), x, y, text, choice)?;
    let place = label_place(canvas.bounds, canvas.columns, canvas.rows, x, y);
    let word = choice_word(choice);
    put_label(labels, canvas.labels, place, word, text);
    canvas.labels = canvas.labels.wrapping_add(1);
    Ok(())
}

// The picture and the labels laid on the screen; the canvas is closed.
#[tactic(auto, using(ledger::proofs::CallFacts::calls))]
pub fn render(
    canvas: &mut Canvas,
    cells: &mut [u32],
    labels: &[u32],
    area: Area,
    screen: &mut [u32],
) -> Result<Rendered, Refusal>
    ensures answer { rendered result ≡ answer_on (given canvas.old cells.old labels.now) (render area screen.old) }
    ensures canvas { canvas.new ≡ (state_after (given canvas.old cells.old labels.now) (render area screen.old)).canvas }
    ensures cells { cells.new ≡ (state_after (given canvas.old cells.old labels.now) (render area screen.old)).cells }
    ensures screen { screen.new ≡ screen_on (given canvas.old cells.old labels.now) area screen.old }
{
    render_refusal(*canvas, cells.len(), labels.len(), area, screen)?;
    finish(*canvas, cells);
    lay(screen, area, cells, *canvas);
    let label_cells = write_labels(screen, area, *canvas, labels);
    canvas.dirty = false;
    canvas.rendered = true;
    Ok(Rendered {
        painted: canvas.painted,
        label_cells,
    })
}

// The dot of a point, as the canvas stands; it needs no store, and takes a rendered canvas too.
#[tactic(auto, using(crate::proofs::Refusing::conditions, ledger::proofs::CallSteps::canvas_size), unfolding(ledger::specs::PointCall::point_refusal, ledger::specs::PointCall::pointed_on))]
pub fn get_point(canvas: Canvas, x: f64, y: f64) -> Result<Option<(u16, u16)>, Refusal>
    ensures { found result ≡ pointed_on canvas x y }
{
    refuse_if(is_bad_canvas(canvas), Refusal::Canvas)?;
    refuse_if(is_bad_point(x, y), Refusal::Number)?;
    let v = view_of(canvas.bounds, canvas.grid());
    Ok(point(v, x, y))
}
