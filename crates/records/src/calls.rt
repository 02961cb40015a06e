// The call that a record stands for: the fields are read from the part of the file that begins with the
// record's first field.
// Canvas, cells and labels stand side by side, as in crate canvas.
ghost use Rattle.std.specs.Prelude.{◌≡◌, true, ◌≤◌, length};
ghost use Rattle.ledger.specs.Calls.{draw};
ghost use Rattle.ledger.specs.Model.{refusal_on, state_after};
ghost use Rattle.ledger.specs.Outcomes.{given};
ghost use Rattle.refusals.specs.Refusals.{number_in};
ghost use Rattle.form.specs.Fields.{size_by};
ghost use Rattle.form.specs.Forms.{max_file, pair_count, label_widths, widths_of};
ghost use Rattle.form.specs.Kinds.{kind_number};
ghost use Rattle.lists.specs.Lists.{list_fits};
ghost use Rattle.records.specs.Records.{line_call, filled_line_call, rectangle_call, circle_call, points_call, marker_call, label_text, label_call, dot_call, call_of};

use canvas::calls::{dot, draw, layer, marker, print};
use form::fields::{Fields, Part, has};
use form::kind::Kind;
use form::sizes::{text_length, text_place};
use ledger::state::Canvas;
use limits::state::RESET;
use lists::PairList;
use pairs::points::points;
use refusals::refusal::Refusal;
use shapes::painters::Shape;
use walk::clip::Segment;

// A shape with its colour.
#[derive(Clone, Copy)]
struct Drawing {
    shape: Shape,
    colour: u32,
}

fn line_of(part: Part<'_>) -> Drawing
    ensures { draw result.shape result.colour ≡ line_call part.entry.map part.entry.bytes.now }
{
    let mut fields = Fields::new(part);
    let ends = Segment {
        x1: fields.real(),
        y1: fields.real(),
        x2: fields.real(),
        y2: fields.real(),
    };
    Drawing {
        shape: Shape::Line(ends),
        colour: fields.next(RESET),
    }
}

fn filled_line_of(part: Part<'_>) -> Drawing
    ensures { draw result.shape result.colour ≡ filled_line_call part.entry.map part.entry.bytes.now }
{
    let mut fields = Fields::new(part);
    let ends = Segment {
        x1: fields.real(),
        y1: fields.real(),
        x2: fields.real(),
        y2: fields.real(),
    };
    Drawing {
        shape: Shape::FilledLine(ends, fields.real()),
        colour: fields.next(RESET),
    }
}

fn rectangle_of(part: Part<'_>) -> Drawing
    ensures { draw result.shape result.colour ≡ rectangle_call part.entry.map part.entry.bytes.now }
{
    let mut fields = Fields::new(part);
    Drawing {
        shape: Shape::Rectangle(fields.real(), fields.real(), fields.real(), fields.real()),
        colour: fields.next(RESET),
    }
}

fn circle_of(part: Part<'_>) -> Drawing
    ensures { draw result.shape result.colour ≡ circle_call part.entry.map part.entry.bytes.now }
{
    let mut fields = Fields::new(part);
    Drawing {
        shape: Shape::Circle(fields.real(), fields.real(), fields.real()),
        colour: fields.next(RESET),
    }
}

fn draw_call(
    drawing: Drawing,
    canvas: &mut Canvas,
    cells: &mut [u32],
    labels: &[u32],
) -> Result<(), Refusal>
    ensures refusal { number_in result ≡ refusal_on (given canvas.old cells.old labels.now) (draw drawing.shape drawing.colour) }
    ensures state { given canvas.new cells.new labels.now ≡ state_after (given canvas.old cells.old labels.now) (draw drawing.shape drawing.colour) }
{
    draw(
        &mut *canvas,
        &mut *cells,
        labels,
        drawing.shape,
        drawing.colour,
    )?;
    Ok(())
}

// A points record: the pairs in the bytes, drawn as `points` does. By a call, so that the values of its loop over the
// pairs stay in registers.
#[inline(never)]
fn points_call(
    part: Part<'_>,
    canvas: &mut Canvas,
    cells: &mut [u32],
    labels: &[u32],
) -> Result<(), Refusal>
    requires { list_fits part.bytes.now (pair_count part.map part.bytes.now) ≡ true }
    ensures refusal { number_in result ≡ refusal_on (given canvas.old cells.old labels.now) (points_call part.entry.map part.entry.bytes.now) }
    ensures state { given canvas.new cells.new labels.now ≡ state_after (given canvas.old cells.old labels.now) (points_call part.entry.map part.entry.bytes.now) }
{
    let list = PairList::new(part.bytes, part.pair_count()).unwrap();
    let mut fields = Fields {
        at: part.list_end(),
        weight: 2,
        ..Fields::new(part)
    };
    let colour: u32 = fields.next(RESET);
    points(&mut *canvas, &mut *cells, labels, list, colour)?;
    Ok(())
}

fn marker_call(
    part: Part<'_>,
    canvas: &mut Canvas,
    cells: &mut [u32],
    labels: &[u32],
) -> Result<(), Refusal>
    ensures refusal { number_in result ≡ refusal_on (given canvas.old cells.old labels.now) (marker_call part.entry.map part.entry.bytes.now) }
    ensures state { given canvas.new cells.new labels.now ≡ state_after (given canvas.old cells.old labels.now) (marker_call part.entry.map part.entry.bytes.now) }
{
    let mut fields = Fields::new(part);
    let number: u8 = fields.next(1);
    let character: u32 = fields.next(32);
    marker(&mut *canvas, &mut *cells, labels, number, character)
}

fn dot_call(
    part: Part<'_>,
    canvas: &mut Canvas,
    cells: &mut [u32],
    labels: &[u32],
) -> Result<(), Refusal>
    ensures refusal { number_in result ≡ refusal_on (given canvas.old cells.old labels.now) (dot_call part.entry.map part.entry.bytes.now) }
    ensures state { given canvas.new cells.new labels.now ≡ state_after (given canvas.old cells.old labels.now) (dot_call part.entry.map part.entry.bytes.now) }
{
    let mut fields = Fields::new(part);
    let column: u32 = fields.next(0);
    let row: u32 = fields.next(0);
    let colour: u32 = fields.next(RESET);
    dot(&mut *canvas, &mut *cells, labels, column, row, colour)?;
    Ok(())
}

// The text of a label, if it stands.
fn text_of<'a>(part: Part<'a>) -> &'a [u8]
    requires { size_by part.map (label_widths part.map part.bytes.now) ≤ length part.bytes.now }
    ensures { result.now ≡ label_text part.entry.map part.entry.bytes.now }
{
    if !has(part.map, 8) {
        return &part.bytes[..0];
    }
    let at = text_place(part.map);
    let start = at + 1;
    &part.bytes[start..start + text_length(part.bytes, at)]
}

fn label_call(
    part: Part<'_>,
    canvas: &mut Canvas,
    cells: &[u32],
    labels: &mut [u32],
) -> Result<(), Refusal>
    requires { size_by part.map (label_widths part.map part.bytes.now) ≤ length part.bytes.now }
    ensures refusal { number_in result ≡ refusal_on (given canvas.old cells.now labels.old) (label_call part.entry.map part.entry.bytes.now) }
    ensures state { given canvas.new cells.now labels.new ≡ state_after (given canvas.old cells.now labels.old) (label_call part.entry.map part.entry.bytes.now) }
{
    let mut fields = Fields::new(part);
    let x = fields.real();
    let y = fields.real();
    let colour: Option<u32> = fields.optional();
    let text = text_of(part);
    print(&mut *canvas, cells, &mut *labels, x, y, text, colour)
}

// The call of a record of good form.
#[tactic(auto, unfolding(crate::specs::Records::call_of, form::specs::Forms::widths_of))]
pub(crate) fn record_call(
    kind: Kind,
    part: Part<'_>,
    canvas: &mut Canvas,
    cells: &mut [u32],
    labels: &mut [u32],
) -> Result<(), Refusal>
    requires fits { size_by part.map (widths_of (kind_number kind) part.map part.bytes.now) ≤ length part.bytes.now }
    requires short { length part.bytes.now ≤ max_file }
    ensures refusal { number_in result ≡ refusal_on (given canvas.old cells.old labels.old) (call_of (kind_number kind) part.entry.map part.entry.bytes.now) }
    ensures state { given canvas.new cells.new labels.new ≡ state_after (given canvas.old cells.old labels.old) (call_of (kind_number kind) part.entry.map part.entry.bytes.now) }
{
    match kind {
        Kind::Line => draw_call(line_of(part), canvas, cells, labels),
        Kind::FilledLine => draw_call(filled_line_of(part), canvas, cells, labels),
        Kind::Rectangle => draw_call(rectangle_of(part), canvas, cells, labels),
        Kind::Circle => draw_call(circle_of(part), canvas, cells, labels),
        Kind::Points => points_call(part, canvas, cells, labels),
        Kind::Layer => layer(canvas, cells, labels),
        Kind::Marker => marker_call(part, canvas, cells, labels),
        Kind::Label => label_call(part, canvas, cells, labels),
        Kind::Dot => dot_call(part, canvas, cells, labels),
    }
}
