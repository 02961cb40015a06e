// The steps that make a call, over the lent parts of the arrays. A number of a step becomes a length by `as`,
// since usize has no From of u32.
ghost use Rattle.std.specs.Prelude.{◌≡◌, ◌≤◌, take};
ghost use Rattle.ledger.specs.Calls.{points};
ghost use Rattle.ledger.specs.Model.{state_after};
ghost use Rattle.ledger.specs.Outcomes.{given, answer_on};
ghost use Rattle.canvas.specs.Results.{painted};

use crate::answer::Answer;
use crate::run::Run;
use crate::step::Step;
use canvas::calls::{dot, draw, get_point, layer, marker, print, render, reopen};
use form::fields::FieldValue;
use ledger::screen::Area;
use ledger::state::Canvas;
use pairs::points::points;
use refusals::refusal::Refusal;
use shapes::painters::Shape;
use walk::clip::Pair;

// What `points` does, of the first `count` pairs.
fn points_of(
    canvas: &mut Canvas,
    cells: &mut [u32],
    labels: &[u32],
    pairs: &[Pair; 2048],
    count: usize,
    colour: u32,
) -> Result<u64, Refusal>
    requires { count ≤ 2048 }
    ensures answer { painted result ≡ answer_on (given canvas.old cells.old labels.now) (points (take count pairs.now) colour) }
    ensures canvas { canvas.new ≡ (state_after (given canvas.old cells.old labels.now) (points (take count pairs.now) colour)).canvas }
    ensures cells { cells.new ≡ (state_after (given canvas.old cells.old labels.now) (points (take count pairs.now) colour)).cells }
{
    points(canvas, cells, labels, &pairs[..count], colour)
}

// The parts are lent in each method: one that gives all three would lend the whole Run.
impl Run {
    // 02: k = columns + 65,536 × rows; w0 to w3 the bounds; a marker, m character, n background.
    pub(crate) fn open(&mut self, step: &Step) -> Result<Answer, Refusal> {
        let lengths = self.lengths;
        let cells: &mut [u32] = &mut self.cells;
        reopen(
            &mut self.canvas,
            step.opening(),
            &mut cells[..lengths.cells],
            &self.labels[..lengths.labels],
        )?;
        Ok(Answer::Done)
    }

    // 05 to 08, in the colour n.
    pub(crate) fn draw(&mut self, step: &Step, shape: Shape) -> Result<Answer, Refusal> {
        let lengths = self.lengths;
        let cells: &mut [u32] = &mut self.cells;
        let painted = draw(
            &mut self.canvas,
            &mut cells[..lengths.cells],
            &self.labels[..lengths.labels],
            shape,
            step.n(),
        )?;
        Ok(Answer::Painted(painted))
    }

    // 09: the first k pairs of the scratch, in the colour n.
    pub(crate) fn points(&mut self, step: &Step) -> Result<Answer, Refusal> {
        let lengths = self.lengths;
        // Fixed memory, no heap: the pairs are handed on as a slice.
        let mut pairs = [Pair { x: 0.0, y: 0.0 }; 2048];
        let count = (step.k() as usize).min(lengths.scratch / 16);
        for i in 0..count {
            let bytes = &self.scratch[16 * i..16 * i + 16];
            pairs[i] = Pair {
                x: f64::read(bytes, 0),
                y: f64::read(bytes, 8),
            };
        }
        let cells: &mut [u32] = &mut self.cells;
        let painted = points_of(
            &mut self.canvas,
            &mut cells[..lengths.cells],
            &self.labels[..lengths.labels],
            &pairs,
            count,
            step.n(),
        )?;
        Ok(Answer::Painted(painted))
    }

    // 0A: w0 column, w1 row.
    pub(crate) fn dot(&mut self, step: &Step) -> Result<Answer, Refusal> {
        let lengths = self.lengths;
        let cells: &mut [u32] = &mut self.cells;
        let painted = dot(
            &mut self.canvas,
            &mut cells[..lengths.cells],
            &self.labels[..lengths.labels],
            step.word(0),
            step.word(1),
            step.n(),
        )?;
        Ok(Answer::Painted(painted))
    }

    // 0B.
    pub(crate) fn layer(&mut self) -> Result<Answer, Refusal> {
        let lengths = self.lengths;
        let cells: &mut [u32] = &mut self.cells;
        layer(
            &mut self.canvas,
            &mut cells[..lengths.cells],
            &self.labels[..lengths.labels],
        )?;
        Ok(Answer::Done)
    }

    // 0C: a marker, m character.
    pub(crate) fn marker(&mut self, step: &Step) -> Result<Answer, Refusal> {
        let lengths = self.lengths;
        let cells: &mut [u32] = &mut self.cells;
        marker(
            &mut self.canvas,
            &mut cells[..lengths.cells],
            &self.labels[..lengths.labels],
            step.a(),
            step.m(),
        )?;
        Ok(Answer::Done)
    }

    // 0D: w0 x, w1 y; the text is the first k bytes of the scratch; n its colour where bit 1 of b stands.
    pub(crate) fn print(&mut self, step: &Step) -> Result<Answer, Refusal> {
        let lengths = self.lengths;
        let labels: &mut [u32] = &mut self.labels;
        let n = lengths.scratch.min(step.k() as usize);
        let colour = step.has_colour().then_some(step.n());
        print(
            &mut self.canvas,
            &self.cells[..lengths.cells],
            &mut labels[..lengths.labels],
            step.word(0),
            step.word(1),
            &self.scratch[..n],
            colour,
        )?;
        Ok(Answer::Done)
    }

    // 0E: w0, w1 the screen's columns and rows, w2, w3 the area's corner.
    pub(crate) fn render(&mut self, step: &Step) -> Result<Answer, Refusal> {
        let area = Area {
            columns: step.word(0),
            rows: step.word(1),
            x: step.word(2),
            y: step.word(3),
        };
        let lengths = self.lengths;
        let cells: &mut [u32] = &mut self.cells;
        let screen: &mut [u32] = &mut self.screen;
        let rendered = render(
            &mut self.canvas,
            &mut cells[..lengths.cells],
            &self.labels[..lengths.labels],
            area,
            &mut screen[..lengths.screen],
        )?;
        Ok(Answer::Rendered(rendered))
    }

    // 0F: w0 x, w1 y.
    pub(crate) fn point(&self, step: &Step) -> Result<Answer, Refusal> {
        let dot = get_point(self.canvas, step.word(0), step.word(1))?;
        Ok(Answer::Dot(dot))
    }
}
