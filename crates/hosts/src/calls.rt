// The calls of document 01, 'Calls and refusals, in order', on a canvas that is lent as words, with its
// stores. Each answers 0 or document 01's number. A refused call leaves every word, store and number as
// it was, but a refused opening makes the words 0; `Hosted` of crate words says what a list of them does.
ghost use Rattle.std.specs.Prelude.{◌≡◌};
ghost use Rattle.ledger.specs.Calls.{draw, points, dot, layer, marker, print};
ghost use Rattle.refusals.specs.Refusals.{number_in};
ghost use Rattle.canvas.specs.Results.{painted, rendered};
ghost use Rattle.flat.specs.Flat.{pairs_of};
ghost use Rattle.words.specs.Words.{painted_after, label_cells_after, words_left};
ghost use Rattle.words.specs.Hosted.{host, TypedOpening, TypedCall};
ghost use Rattle.hosts.specs.Calls.{layout_number, opening_with, Opened, Marked, Drawn, Printed, Rendered, choice_of};

use canvas::calls::{
    Rendered as Counts, dot, draw, layer, marker, open, print, render, zero_canvas,
};
use flat::Flat;
use ledger::screen::Area;
use ledger::state::{Canvas, Opening};
use pairs::points::points;
use refusals::refusal::Refusal;
use shapes::painters::Shape;
use walk::clip::{Bounds, Segment};
use words::{finish, is_short, keep_all, load};

// What a caller compares with the number of the header that it was built against.
#[unsafe(no_mangle)]
pub extern "C" fn mossbuckle_layout() -> u32
    ensures { result ≡ layout_number }
{
    1
}

#[unsafe(no_mangle)]
pub extern "C" fn mossbuckle_open(
    canvas: &mut [u64],
    cells: &mut [u32],
    labels: &[u32],
    columns: u16,
    rows: u16,
    left: f64,
    right: f64,
    bottom: f64,
    top: f64,
    number: u8,
    character: u32,
    background: u32,
) -> u8
    ensures opened { Opened (host canvas.old cells.old labels.now)
        (opening_with columns rows left right bottom top number character background) result canvas.new cells.new }
    ensures typed_opening { TypedOpening (opening_with columns rows left right bottom top number character background) }
{
    if is_short(&*canvas) {
        return 5;
    }
    let opening = Opening {
        columns,
        rows,
        bounds: Bounds {
            left,
            right,
            bottom,
            top,
        },
        marker: number,
        character,
        background,
    };
    match open(opening, &mut *cells, labels) {
        Ok(c) => {
            keep_all(&mut *canvas, c);
            0
        }
        Err(refusal) => {
            keep_all(&mut *canvas, zero_canvas());
            u8::from(refusal)
        }
    }
}

// ---- draws and dots: on 0 the painted number is set

// The outcome of a call that paints.
fn finish_painted(
    words: &mut [u64],
    canvas: Canvas,
    called: Result<u64, Refusal>,
    number: &mut u64,
) -> u8
    ensures status { result ≡ number_in called }
    ensures words { words.new ≡ words_left words.old called canvas }
    ensures painted { number.new ≡ painted_after number.old (painted called) }
{
    if let Ok(n) = called {
        *number = n;
    }
    finish(&mut *words, canvas, called)
}

// A shape, drawn on the canvas that the words mean.
fn draw_shape(
    canvas: &mut [u64],
    cells: &mut [u32],
    labels: &[u32],
    shape: Shape,
    colour: u32,
    painted: &mut u64,
) -> u8
    ensures { Drawn (host canvas.old cells.old labels.now) (draw shape colour)
        painted.old result canvas.new cells.new painted.new }
{
    let mut c = load(&*canvas);
    let called = draw(&mut c, &mut *cells, labels, shape, colour);
    finish_painted(&mut *canvas, c, called, &mut *painted)
}

#[unsafe(no_mangle)]
pub extern "C" fn mossbuckle_line(
    canvas: &mut [u64],
    cells: &mut [u32],
    labels: &[u32],
    x1: f64,
    y1: f64,
    x2: f64,
    y2: f64,
    colour: u32,
    painted: &mut u64,
) -> u8
    ensures { Drawn (host canvas.old cells.old labels.now)
        (draw (Shape.Line (record { x1 = x1; y1 = y1; x2 = x2; y2 = y2 })) colour)
        painted.old result canvas.new cells.new painted.new }
{
    let shape = Shape::Line(Segment { x1, y1, x2, y2 });
    draw_shape(canvas, cells, labels, shape, colour, painted)
}

#[unsafe(no_mangle)]
pub extern "C" fn mossbuckle_filled_line(
    canvas: &mut [u64],
    cells: &mut [u32],
    labels: &[u32],
    x1: f64,
    y1: f64,
    x2: f64,
    y2: f64,
    fill_to_y: f64,
    colour: u32,
    painted: &mut u64,
) -> u8
    ensures { Drawn (host canvas.old cells.old labels.now)
        (draw (Shape.FilledLine (record { x1 = x1; y1 = y1; x2 = x2; y2 = y2 }) fill_to_y) colour)
        painted.old result canvas.new cells.new painted.new }
{
    let shape = Shape::FilledLine(Segment { x1, y1, x2, y2 }, fill_to_y);
    draw_shape(canvas, cells, labels, shape, colour, painted)
}

#[unsafe(no_mangle)]
pub extern "C" fn mossbuckle_rectangle(
    canvas: &mut [u64],
    cells: &mut [u32],
    labels: &[u32],
    x: f64,
    y: f64,
    width: f64,
    height: f64,
    colour: u32,
    painted: &mut u64,
) -> u8
    ensures { Drawn (host canvas.old cells.old labels.now) (draw (Shape.Rectangle x y width height) colour)
        painted.old result canvas.new cells.new painted.new }
{
    let shape = Shape::Rectangle(x, y, width, height);
    draw_shape(canvas, cells, labels, shape, colour, painted)
}

#[unsafe(no_mangle)]
pub extern "C" fn mossbuckle_circle(
    canvas: &mut [u64],
    cells: &mut [u32],
    labels: &[u32],
    x: f64,
    y: f64,
    radius: f64,
    colour: u32,
    painted: &mut u64,
) -> u8
    ensures { Drawn (host canvas.old cells.old labels.now) (draw (Shape.Circle x y radius) colour)
        painted.old result canvas.new cells.new painted.new }
{
    let shape = Shape::Circle(x, y, radius);
    draw_shape(canvas, cells, labels, shape, colour, painted)
}

// Points at x and y by turns; a last coordinate by itself is not looked at.
#[unsafe(no_mangle)]
pub extern "C" fn mossbuckle_points(
    canvas: &mut [u64],
    cells: &mut [u32],
    labels: &[u32],
    coords: &[f64],
    colour: u32,
    painted: &mut u64,
) -> u8
    ensures { Drawn (host canvas.old cells.old labels.now) (points (pairs_of coords.now) colour)
        painted.old result canvas.new cells.new painted.new }
{
    let mut c = load(&*canvas);
    let called = points(&mut c, &mut *cells, labels, Flat { coords }, colour);
    finish_painted(&mut *canvas, c, called, &mut *painted)
}

#[unsafe(no_mangle)]
pub extern "C" fn mossbuckle_dot(
    canvas: &mut [u64],
    cells: &mut [u32],
    labels: &[u32],
    column: u32,
    row: u32,
    colour: u32,
    painted: &mut u64,
) -> u8
    ensures { Drawn (host canvas.old cells.old labels.now) (dot column row colour)
        painted.old result canvas.new cells.new painted.new }
{
    let mut c = load(&*canvas);
    let called = dot(&mut c, &mut *cells, labels, column, row, colour);
    finish_painted(&mut *canvas, c, called, &mut *painted)
}

// ---- layers and labels

#[unsafe(no_mangle)]
pub extern "C" fn mossbuckle_layer(canvas: &mut [u64], cells: &mut [u32], labels: &[u32]) -> u8
    ensures { Marked (host canvas.old cells.old labels.now) layer
        result canvas.new cells.new }
{
    let mut c = load(&*canvas);
    let called = layer(&mut c, &mut *cells, labels);
    finish(&mut *canvas, c, called)
}

#[unsafe(no_mangle)]
pub extern "C" fn mossbuckle_marker(
    canvas: &mut [u64],
    cells: &mut [u32],
    labels: &[u32],
    number: u8,
    character: u32,
) -> u8
    ensures marked { Marked (host canvas.old cells.old labels.now) (marker number character)
        result canvas.new cells.new }
    ensures typed_call { TypedCall (marker number character) }
{
    let mut c = load(&*canvas);
    let called = marker(&mut c, &mut *cells, labels, number, character);
    finish(&mut *canvas, c, called)
}

// 'Colour or none': FFFFFFFF, which is no colour, is none.
fn choice_of(colour: u32) -> Option<u32>
    ensures { result ≡ choice_of colour }
{
    if colour == 4294967295 {
        return None;
    }
    Some(colour)
}

#[unsafe(no_mangle)]
pub extern "C" fn mossbuckle_print(
    canvas: &mut [u64],
    cells: &[u32],
    labels: &mut [u32],
    x: f64,
    y: f64,
    text: &[u8],
    colour: u32,
) -> u8
    ensures { Printed (host canvas.old cells.now labels.old)
        (print x y text.now (choice_of colour)) result canvas.new labels.new }
{
    let mut c = load(&*canvas);
    let choice = choice_of(colour);
    let called = print(&mut c, cells, &mut *labels, x, y, text, choice);
    finish(&mut *canvas, c, called)
}

// ---- the screen

// The outcome of a render.
fn finish_rendered(
    words: &mut [u64],
    canvas: Canvas,
    called: Result<Counts, Refusal>,
    painted: &mut u64,
    label_cells: &mut u32,
) -> u8
    ensures status { result ≡ number_in called }
    ensures words { words.new ≡ words_left words.old called canvas }
    ensures painted { painted.new ≡ painted_after painted.old (rendered called) }
    ensures label_cells { label_cells.new ≡ label_cells_after label_cells.old (rendered called) }
{
    if let Ok(counts) = called {
        *painted = counts.painted;
        *label_cells = counts.label_cells;
    }
    finish(&mut *words, canvas, called)
}

// The canvas laid on a screen of columns by rows cells, with its area's corner at x and y. On 0 the
// painted number and the label cells are set.
#[unsafe(no_mangle)]
pub extern "C" fn mossbuckle_render(
    canvas: &mut [u64],
    cells: &mut [u32],
    labels: &[u32],
    columns: u16,
    rows: u16,
    x: u16,
    y: u16,
    screen: &mut [u32],
    painted: &mut u64,
    label_cells: &mut u32,
) -> u8
    ensures { Rendered (host canvas.old cells.old labels.now)
        (record { columns = columns; rows = rows; x = x; y = y }) screen.old painted.old label_cells.old
        result canvas.new cells.new screen.new painted.new label_cells.new }
{
    let mut c = load(&*canvas);
    let area = Area {
        columns,
        rows,
        x,
        y,
    };
    let called = render(&mut c, &mut *cells, labels, area, &mut *screen);
    finish_rendered(&mut *canvas, c, called, &mut *painted, &mut *label_cells)
}
