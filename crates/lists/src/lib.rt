// Lists of coordinate pairs in the bytes of a points record. `points` of crate pairs draws them.
#![tactic(auto)]

ghost use Rattle.std.specs.Prelude.{◌≡◌, ◌+◌, ◌-◌, ◌*◌, ◌≤◌, true, [], is_some, IfSome, MatchOption, length, take};
ghost use Rattle.view.specs.declared.point.View.{View};
ghost use Rattle.shapes.specs.Shapes.{pair_dots};
ghost use Rattle.ledger.specs.Calls.{bad_pairs};
ghost use Rattle.lists.specs.Lists.{pair_at, pairs_at, list_fits, bad_list, list_dots};

use form::fields::FieldValue;
use lines::painter::Painter;
use pairs::points::{ORIGIN, Paint, Pairs, paint_pairs};
use walk::clip::Pair;

// The pair at a place, of a part that has it whole: in its sixteen bytes alone neither number needs a test.
#[tactic(auto, using(crate::proofs::PairParts::in_pair))]
fn pair_at(part: &[u8], at: usize) -> Pair
    requires { at + 16 ≤ length part.now }
    ensures { result ≡ pair_at part.now at }
{
    let bytes = &part[at..at + 16];
    let x = f64::read(bytes, 0);
    let y = f64::read(bytes, 8);
    Pair { x, y }
}

// Whether a part has a list of so many pairs after its count, of those that a file has room for.
#[tactic(auto, unfolding(crate::specs::Lists::list_fits))]
fn has_list(part: &[u8], count: usize) -> bool
    ensures { result ≡ list_fits part.now count }
{
    count <= 4096 && count * 16 <= part.len().saturating_sub(2)
}

// The pairs after the count of a part that has them all.
#[derive(Clone, Copy)]
pub struct PairList<'a> {
    part: &'a [u8],
    count: usize,
    ghost fits: { list_fits part.now count ≡ true },
}

#[tactic(auto, using(crate::proofs::PairLists::by_place))]
impl<'a> Pairs for PairList<'a> {
    ghost listed = { λ list. pairs_at list.part.now 2 list.count };

    fn count(self) -> usize {
        self.count
    }

    fn pair(self, i: usize) -> Pair {
        if i < self.count {
            pair_at(self.part, 2 + 16 * i)
        } else {
            ORIGIN
        }
    }
}

#[tactic(auto, using(crate::proofs::PairBlocks::blocks, crate::proofs::PairParts::fits), unfolding(shapes::specs::Shapes::pair_dots))]
impl<'a> Paint for PairList<'a> {
    // Sixteen at a time, as document 01 has it: 'Points walks a lent slice of pair structs'. An array for the
    // longest list would be cleared for each record, however short.
    fn paint(self, cells: &mut [u32], p: Painter) -> u64 {
        let mut painted = 0;
        for block in 0..self.count.div_ceil(16) {
            let first = 16 * block;
            let count = (self.count - first).min(16);
            let pairs = read_pairs(self.part, first, count);
            painted += paint_pairs(cells, p, &pairs[..count]);
        }
        painted
    }
}

// Sixteen pairs or fewer, from one of the list on.
fn read_pairs(part: &[u8], from: usize, count: usize) -> [Pair; 16]
    requires { (count ≤ 16) × (16 * (from + count) ≤ length part.now - 2) }
    ensures { take count result ≡ pairs_at part.now (2 + 16 * from) count }
{
    let mut pairs = [ORIGIN; 16];
    let start = 2 + 16 * from;
    for i in 0..count {
        pairs[i] = pair_at(part, start + 16 * i);
    }
    pairs
}

impl<'a> PairList<'a> {
    // None where the part does not have so many pairs: such a list counts as bad, and has no dot.
    #[tactic(auto, unfolding(crate::specs::Lists::bad_list, crate::specs::Lists::list_dots))]
    pub fn new(part: &'a [u8], count: usize) -> Option<PairList<'a>>
        ensures fits { is_some result ≡ list_fits part.now count }
        ensures pairs { IfSome result (λ list. ⟦<PairList<'a> as Pairs>⟧.listed list ≡ pairs_at part.now 2 count) }
        ensures bad { MatchOption result (bad_list part.now count ≡ true) (λ list. bad_list part.now count ≡ bad_pairs (⟦<PairList<'a> as Pairs>⟧.listed list)) }
        ensures dots { (v : View) → MatchOption result (list_dots v part.now count ≡ []) (λ list. list_dots v part.now count ≡ pair_dots v (⟦<PairList<'a> as Pairs>⟧.listed list)) }
    {
        if has_list(part, count) {
            Some(PairList { part, count })
        } else {
            None
        }
    }
}
