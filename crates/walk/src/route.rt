// What a Walk and a Course have in common: a way from dot to dot, and its dots as an iterator.
ghost use Rattle.std.specs.Prelude.{◌≡◌, ℕ};
ghost use Rattle.std.specs.Iterator.{YieldsFirst, item_count};
ghost use Rattle.walk.specs.declared.bresenham.Dot.{Dot};
ghost use Rattle.walk.specs.Along.{dots_along};

use crate::bresenham::Dot;

// How many dots it has, the dot that it is at, and the same way at its next dot.
pub trait Route: Copy {
    ghost count_of: { Self → ℕ };

    ghost dot_of: { Self → Dot };

    ghost next_of: { Self → Self };

    fn count(self) -> u32
        ensures { result ≡ count_of self };

    fn dot(self) -> Dot
        ensures { result ≡ dot_of self };

    fn step(self) -> Self
        ensures { result ≡ next_of self };

    // All its dots, one after the other.
    final fn dots(self) -> Dots<Self>
        ensures { result ≡ record { at = self; left = count_of self } }
    {
        Dots {
            at: self,
            left: self.count(),
        }
    }
}

// The dots from the one that a route is at, of which so many are left.
#[derive(Drop)]
pub struct Dots<R> {
    pub at: R,
    pub left: u32,
}

impl<R: Route> Iterator for Dots<R> {
    type Item = Dot;

    ghost next_gives = { YieldsFirst (λ s. dots_along R.dot_of R.next_of s.at s.left) };

    ghost remaining = { item_count (λ s. dots_along R.dot_of R.next_of s.at s.left) };

    fn next(&mut self) -> Option<Dot> {
        if self.left == 0 {
            return None;
        }
        let dot = self.at.dot();
        self.at = self.at.step();
        self.left -= 1;
        Some(dot)
    }
}
