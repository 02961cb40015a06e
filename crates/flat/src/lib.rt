// Coordinate pairs that are lent as a flat list of floats, x and y by turns; a last float by itself is
// not looked at. `points` of crate pairs draws them.
#![tactic(auto)]

ghost use Rattle.flat.specs.Flat.{pairs_of};

use pairs::points::{ORIGIN, Paint, Pairs};
use walk::clip::Pair;

#[derive(Clone, Copy)]
pub struct Flat<'a> {
    pub coords: &'a [f64],
}

#[tactic(auto, using(crate::proofs::Pairs::length_pairs, crate::proofs::Pairs::pair_at, crate::proofs::Pairs::past_pairs))]
impl<'a> Pairs for Flat<'a> {
    ghost listed = { λ flat. pairs_of flat.coords.now };

    fn count(self) -> usize {
        self.coords.len() / 2
    }

    fn pair(self, i: usize) -> Pair {
        if i >= self.coords.len() / 2 {
            return ORIGIN;
        }
        let x = self.coords[2 * i];
        let y = self.coords[2 * i + 1];
        Pair { x, y }
    }
}

impl<'a> Paint for Flat<'a> {}
