// Records of lines, filled lines and circles that have all their fields, as most do: the fields then have
// fixed places, and neither these nor the record's form need working out. Any other record is read field by
// field in calls.rt; steps.rt refuses one of these that the file cuts short, or in a file that is too long.
// Canvas, cells and labels stand side by side, as in crate canvas.
ghost use Rattle.std.specs.Prelude.{◌≡◌, IfSome};
ghost use Rattle.floats.specs.Arithmetic.{bits};
ghost use Rattle.ledger.specs.Calls.{draw, bad_segment, bad_shape};
ghost use Rattle.ledger.specs.Model.{refusal_on, state_after};
ghost use Rattle.ledger.specs.Outcomes.{given};
ghost use Rattle.refusals.specs.Refusals.{number_in};
ghost use Rattle.form.specs.Fields.{number_at};
ghost use Rattle.records.specs.Complete.{complete_number};
ghost use Rattle.records.specs.Records.{line_call, filled_line_call, circle_call, call_of, complete_map, complete_size, CompleteAt};

use canvas::calls::{count_draw, draw_refusal, painter_for};
use form::fields::{FieldValue, from_bits, is_far};
use ledger::state::Canvas;
use refusals::refusal::Refusal;
use shapes::painters::{Shape, paint_shape};
use walk::clip::Segment;

// The kinds of such records.
#[derive(Clone, Copy, PartialEq, Eq, Debug)]
pub(crate) enum Complete {
    Line,
    FilledLine,
    Circle,
}

// A shape with its colour, and whether one of its numbers is outside the domain.
// bad is a flag: an Option of the shape would be none where it stands; draw_refusal speaks of the shape in both cases.
#[derive(Clone, Copy)]
struct Judged {
    shape: Shape,
    bad: bool,
    colour: u32,
    ghost judged: { bad ≡ bad_shape shape },
}

// The bits of a line's two ends.
// Of its own: of one generic struct with Segment and Ends each definition would have to name its number's type.
#[derive(Clone, Copy)]
struct EndBits {
    x1: u64,
    y1: u64,
    x2: u64,
    y2: u64,
}

fn end_bits(part: &[u8]) -> EndBits
    ensures { result ≡ record { x1 = number_at part.now 0 8; y1 = number_at part.now 8 8; x2 = number_at part.now 16 8; y2 = number_at part.now 24 8 } }
{
    EndBits {
        x1: u64::read(part, 0),
        y1: u64::read(part, 8),
        x2: u64::read(part, 16),
        y2: u64::read(part, 24),
    }
}

// Whether a number of a line is outside the domain.
fn is_far_line(e: EndBits) -> bool
    ensures { result ≡ bad_segment (record { x1 = bits e.x1; y1 = bits e.y1; x2 = bits e.x2; y2 = bits e.y2 }) }
{
    (is_far(e.x1) | is_far(e.y1)) | (is_far(e.x2) | is_far(e.y2))
}

fn ends_of(e: EndBits) -> Segment
    ensures { result ≡ record { x1 = bits e.x1; y1 = bits e.y1; x2 = bits e.x2; y2 = bits e.y2 } }
{
    Segment {
        x1: from_bits(e.x1),
        y1: from_bits(e.y1),
        x2: from_bits(e.x2),
        y2: from_bits(e.y2),
    }
}

// A line, a filled line and a circle in the bytes.
fn complete_line(part: &[u8]) -> Judged
    ensures { draw result.shape result.colour ≡ line_call 31 part.now }
{
    let e = end_bits(part);
    Judged {
        shape: Shape::Line(ends_of(e)),
        bad: is_far_line(e),
        colour: u32::read(part, 32),
    }
}

fn complete_filled_line(part: &[u8]) -> Judged
    ensures { draw result.shape result.colour ≡ filled_line_call 63 part.now }
{
    let e = end_bits(part);
    let fill = u64::read(part, 32);
    Judged {
        shape: Shape::FilledLine(ends_of(e), from_bits(fill)),
        bad: is_far_line(e) | is_far(fill),
        colour: u32::read(part, 40),
    }
}

fn complete_circle(part: &[u8]) -> Judged
    ensures { draw result.shape result.colour ≡ circle_call 15 part.now }
{
    let x = u64::read(part, 0);
    let y = u64::read(part, 8);
    let radius = u64::read(part, 16);
    Judged {
        shape: Shape::Circle(from_bits(x), from_bits(y), from_bits(radius)),
        bad: (is_far(x) | is_far(y)) | is_far(radius),
        colour: u32::read(part, 24),
    }
}

#[tactic(auto, unfolding(crate::specs::Records::call_of))]
fn judge(kind: Complete, part: &[u8]) -> Judged
    ensures { draw result.shape result.colour ≡ call_of (complete_number kind) (complete_map (complete_number kind)) part.now }
{
    match kind {
        Complete::Line => complete_line(part),
        Complete::FilledLine => complete_filled_line(part),
        Complete::Circle => complete_circle(part),
    }
}

// The bytes of all fields, by kind.
pub(crate) fn complete_size(kind: Complete) -> usize
    ensures { result ≡ complete_size (complete_number kind) }
{
    match kind {
        Complete::Line => 36,
        Complete::FilledLine => 44,
        Complete::Circle => 28,
    }
}

// The kind of a record at a place that has all its fields.
pub(crate) fn complete_kind(file: &[u8], at: usize) -> Option<Complete>
    ensures { IfSome result (λ kind. CompleteAt file.now at (complete_number kind)) }
{
    if file.len() > 65536 || at > 65536 || file.len() < at + 30 {
        return None;
    }
    // 30 bytes hold a circle; what the others need is tested for each, so that its reads need no test
    let rest = file.len() - at;
    // By the numbers: Kind::try_from would be a second match for each record.
    match (file[at], file[at + 1]) {
        (1, 31) if rest >= 38 => Some(Complete::Line),
        (2, 63) if rest >= 46 => Some(Complete::FilledLine),
        (4, 15) => Some(Complete::Circle),
        _ => None,
    }
}

// What `draw` does, of a shape that was judged.
// Apart from the call draw, which judges the floats: here their bits were judged.
#[tactic(auto, using(ledger::proofs::CallFacts::calls))]
fn draw_judged(
    d: Judged,
    canvas: &mut Canvas,
    cells: &mut [u32],
    labels: &[u32],
) -> Result<(), Refusal>
    ensures refusal { number_in result ≡ refusal_on (given canvas.old cells.old labels.now) (draw d.shape d.colour) }
    ensures state { given canvas.new cells.new labels.now ≡ state_after (given canvas.old cells.old labels.now) (draw d.shape d.colour) }
{
    draw_refusal(*canvas, cells.len(), labels.len(), d.bad, d.colour)?;
    let p = painter_for(*canvas, d.colour);
    let n = paint_shape(&mut *cells, p, d.shape);
    count_draw(&mut *canvas, n);
    Ok(())
}

// The call of a record that has all its fields.
pub(crate) fn complete_call(
    kind: Complete,
    part: &[u8],
    canvas: &mut Canvas,
    cells: &mut [u32],
    labels: &[u32],
) -> Result<(), Refusal>
    ensures refusal { number_in result ≡ refusal_on (given canvas.old cells.old labels.now) (call_of (complete_number kind) (complete_map (complete_number kind)) part.now) }
    ensures state { given canvas.new cells.new labels.now ≡ state_after (given canvas.old cells.old labels.now) (call_of (complete_number kind) (complete_map (complete_number kind)) part.now) }
{
    draw_judged(judge(kind, part), &mut *canvas, &mut *cells, labels)
}
