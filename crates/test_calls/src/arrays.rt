// The steps on the arrays and the canvas' fields: lengths, the scratch, the fields, the digests, the cells.
// Counts go by `as`, here and in calls.rt, since std has no From of u32 for usize.
ghost use Rattle.std.specs.Prelude.{◌<◌, ◌≤◌};

use crate::answer::Answer;
use crate::run::{Lengths, Run};
use crate::step::Step;

impl Run {
    // 01: w0 cells, w1 labels, w3 cells of the screen lent from now on; where a is 1, every word of the
    // stores is made k.
    pub(crate) fn lend(&mut self, step: &Step) -> Answer {
        if step.a() == 1 {
            self.cells.fill(step.k());
            self.labels.fill(step.k());
        }
        self.lengths = Lengths {
            cells: (step.word::<u32>(0) as usize).min(20000) * 5,
            labels: (step.word::<u32>(1) as usize).min(64) * 44,
            screen: (step.word::<u32>(3) as usize).min(60000) * 3,
            scratch: self.lengths.scratch,
        };
        Answer::Lent
    }

    // 20: the scratch is empty.
    pub(crate) fn empty(&mut self) -> Answer {
        self.hold(0)
    }

    // 21: a bytes, at most 56, from place 8 on added to the scratch; bytes past its end are dropped.
    pub(crate) fn add(&mut self, step: &Step) -> Answer {
        let start = self.lengths.scratch;
        let tail = step.tail();
        let count = usize::from(step.a())
            .min(tail.len())
            .min(self.scratch.len() - start);
        self.scratch[start..start + count].copy_from_slice(&tail[..count]);
        self.hold(start + count)
    }

    // 30: the field a of the canvas set to w0.
    pub(crate) fn set(&mut self, step: &Step) -> Answer {
        let c = &mut self.canvas;
        match step.a() {
            0 => c.columns = step.word(0),
            1 => c.rows = step.word(0),
            2 => c.bounds.left = step.word(0),
            3 => c.bounds.right = step.word(0),
            4 => c.bounds.bottom = step.word(0),
            5 => c.bounds.top = step.word(0),
            6 => c.marker = step.word(0),
            7 => c.character = step.word(0),
            8 => c.background = step.word(0),
            9 => c.dirty = step.low_bit(),
            10 => c.rendered = step.low_bit(),
            11 => c.labels = step.word(0),
            12 => c.draws = step.word(0),
            13 => c.painted = step.word(0),
            _ => return Answer::Unknown,
        }
        Answer::Set
    }

    // 41 where a is 0: the digest of the screen's first k cells.
    pub(crate) fn digest(&self, step: &Step) -> Answer {
        let n = (step.k() as usize).min(60000) * 3;
        Answer::Digest(digest_on(0, &self.screen[..n]))
    }

    // 42: one digest over the words of both stores.
    pub(crate) fn stores(&self) -> Answer {
        Answer::Stores(digest_on(digest_on(0, &self.cells), &self.labels))
    }

    // 41 where a is 1: a line for each of the screen's first k cells.
    pub(crate) fn print_cells(&self, rt: &impl Print, k: u32) {
        let cells = self.screen.chunks_exact(3).take(k as usize);
        for (j, cell) in cells.enumerate() {
            if let [symbol, foreground, background] = *cell {
                let _ = println!(rt; "41 cell {j} {symbol:04X} {foreground} {background}");
            }
        }
    }

    fn hold(&mut self, scratch: usize) -> Answer
        requires { scratch ≤ 32768 }
    {
        let Lengths {
            cells,
            labels,
            screen,
            ..
        } = self.lengths;
        self.lengths = Lengths {
            cells,
            labels,
            screen,
            scratch,
        };
        Answer::Scratch(scratch)
    }
}

// A digest carried over more words; each counts by its place.
// Twice in the repository: as one it would be a public function with a definition that no demand names.
fn digest_on(before: u64, words: &[u32]) -> u64
    requires { before < 4294967291 }
    ensures { result < 4294967291 }
{
    let mut digest = before;
    for word in words {
        digest = (digest * 31 + u64::from(*word)) % 4294967291;
    }
    digest
}
