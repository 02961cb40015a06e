// The canvas, the arrays, and the steps. The extents, the rights list and the list of columns come with
// the calls that take them.
ghost use Rattle.std.specs.Prelude.{◌≤◌};

use crate::answer::Answer;
use crate::step::Step;
use ledger::state::Canvas;
use refusals::refusal::Refusal;
use shapes::painters::Shape;

// How many words of each array a call is lent, and how many bytes of the scratch are held.
#[derive(Clone, Copy)]
pub(crate) struct Lengths {
    pub(crate) cells: usize,
    pub(crate) labels: usize,
    pub(crate) screen: usize,
    pub(crate) scratch: usize,
    ghost cells_fit: { cells ≤ 100000 },
    ghost labels_fit: { labels ≤ 2816 },
    ghost screen_fits: { screen ≤ 180000 },
    ghost scratch_fits: { scratch ≤ 32768 },
}

// 20,000 cells of five words, 64 labels of 44, a screen of 60,000 cells of three, and the scratch.
// Fixed memory, no heap: step 01 says how much of each array a call is lent.
#[derive(Drop)]
pub struct Run {
    pub(crate) canvas: Canvas,
    pub(crate) cells: [u32; 100000],
    pub(crate) labels: [u32; 2816],
    pub(crate) screen: [u32; 180000],
    pub(crate) scratch: [u8; 32768],
    pub(crate) lengths: Lengths,
}

impl Run {
    // One step, and its line; where that cannot be written, the list goes on all the same.
    pub fn take(&mut self, rt: &impl Print, step: &Step) {
        let op = step.op();
        if (op == 0x41) & (step.a() == 1) {
            self.print_cells(rt, step.k());
            return;
        }
        let _ = match self.answer(step) {
            Ok(answer) => println!(rt; "{op:02X} {answer}"),
            Err(refusal) => println!(rt; "{op:02X} refused {}", u8::from(refusal)),
        };
    }

    fn answer(&mut self, step: &Step) -> Result<Answer, Refusal> {
        // By the number: as an enum each step would stand in its TryFrom too, and a line begins with the number, known or not.
        match step.op() {
            0x01 => Ok(self.lend(step)),
            0x02 => self.open(step),
            0x05 => self.draw(step, Shape::Line(step.segment())),
            0x06 => self.draw(step, Shape::FilledLine(step.segment(), step.word(4))),
            0x07 => self.draw(step, step.rectangle()),
            0x08 => self.draw(step, step.circle()),
            0x09 => self.points(step),
            0x0A => self.dot(step),
            0x0B => self.layer(),
            0x0C => self.marker(step),
            0x0D => self.print(step),
            0x0E => self.render(step),
            0x0F => self.point(step),
            0x20 => Ok(self.empty()),
            0x21 => Ok(self.add(step)),
            0x30 => Ok(self.set(step)),
            0x40 => Ok(Answer::Canvas(self.canvas)),
            0x41 => Ok(self.digest(step)),
            0x42 => Ok(self.stores()),
            _ => Ok(Answer::Unknown),
        }
    }
}
