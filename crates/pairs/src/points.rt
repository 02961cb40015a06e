// Points over a list of coordinate pairs, however it is lent: looked through, painted, and drawn.
// Canvas, cells and labels stand side by side, as in crate canvas.
ghost use Rattle.std.specs.Prelude.{◌≡◌, List, get_or, length};
ghost use Rattle.shapes.specs.Shapes.{pair_dots};
ghost use Rattle.walk.specs.declared.clip.Pair.{Pair};
ghost use Rattle.lines.specs.Painted.{Painted};
ghost use Rattle.ledger.specs.Calls.{bad_pairs, points};
ghost use Rattle.ledger.specs.Model.{state_after};
ghost use Rattle.ledger.specs.Outcomes.{given, answer_on};
ghost use Rattle.canvas.specs.Results.{painted};
ghost use Rattle.pairs.specs.Origin.{origin};

use canvas::calls::{count_draw, painter_for, points_refusal};
use ledger::state::Canvas;
use limits::state::is_bad_point;
use lines::painter::Painter;
use refusals::refusal::Refusal;
use shapes::painters::paint_point;
use walk::clip::Pair;

// What is read past the last pair of a list.
pub const ORIGIN: Pair = Pair { x: 0.0, y: 0.0 };

// A lent list of pairs, read by place.
pub trait Pairs: Copy {
    ghost listed: { Self → List Pair };

    fn count(self) -> usize
        ensures { result ≡ length (listed self) };

    fn pair(self, i: usize) -> Pair
        ensures { result ≡ get_or (listed self) i origin };
}

// Such a list, with the way in which its points are painted.
pub trait Paint: Pairs {
    // The points of the pairs, painted one after the other; the number of their dots.
    fn paint(self, cells: &mut [u32], p: Painter) -> u64
        ensures { Painted p cells.old (pair_dots p.view (Self.listed self)) result cells.new }
    {
        paint_pairs(cells, p, self)
    }
}

impl<'a> Pairs for &'a [Pair] {
    ghost listed = { λ pairs. pairs.now };

    fn count(self) -> usize {
        self.len()
    }

    fn pair(self, i: usize) -> Pair {
        if i < self.len() { self[i] } else { ORIGIN }
    }
}

impl<'a> Paint for &'a [Pair] {}

// A pair with a number outside the domain.
#[tactic(auto, using(crate::proofs::PairScans::scans))]
pub fn is_bad_pairs<P: Pairs>(pairs: P) -> bool
    ensures { result ≡ bad_pairs (P.listed pairs) }
{
    for seen in 0..pairs.count() {
        let pair = pairs.pair(seen);
        if is_bad_point(pair.x, pair.y) {
            return true;
        }
    }
    false
}

// The points of the pairs: document 01, 'one thin function takes a pair out and calls the covered point
// routine'.
#[tactic(auto, using(crate::proofs::PairScans::painting), unfolding(shapes::specs::Shapes::pair_dots))]
pub fn paint_pairs<P: Pairs>(cells: &mut [u32], p: Painter, pairs: P) -> u64
    ensures { Painted p cells.old (pair_dots p.view (P.listed pairs)) result cells.new }
{
    let mut painted = 0;
    for i in 0..pairs.count() {
        let pair = pairs.pair(i);
        painted += paint_point(cells, p, pair.x, pair.y);
    }
    painted
}

// Points drawn in a colour. All pairs are looked through before the first is painted, since a call that
// is refused paints nothing.
#[tactic(auto, using(ledger::proofs::CallFacts::calls))]
pub fn points<P: Paint>(
    canvas: &mut Canvas,
    cells: &mut [u32],
    labels: &[u32],
    pairs: P,
    colour: u32,
) -> Result<u64, Refusal>
    ensures answer { painted result ≡ answer_on (given canvas.old cells.old labels.now) (points (P.listed pairs) colour) }
    ensures canvas { canvas.new ≡ (state_after (given canvas.old cells.old labels.now) (points (P.listed pairs) colour)).canvas }
    ensures cells { cells.new ≡ (state_after (given canvas.old cells.old labels.now) (points (P.listed pairs) colour)).cells }
{
    let bad = is_bad_pairs(pairs);
    points_refusal(
        *canvas,
        cells.len(),
        labels.len(),
        bad,
        pairs.count(),
        colour,
    )?;
    let p = painter_for(*canvas, colour);
    let n = pairs.paint(cells, p);
    count_draw(canvas, n);
    Ok(n)
}
