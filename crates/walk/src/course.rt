// The dots of a line by fixed point: what a Walk gives, without its decision value, so that a step
// is two sums and a dot two shifts. The Walk stays as document 01 speaks of it, 'The signed decision
// value steps only above 0'; both are proved to give the dots of its closed formula.
ghost use Rattle.std.specs.Prelude.{◌≡◌};
ghost use Rattle.walk.specs.Course.{slope_of, place_of, move_of, course_of, course_dot, next_course};

use crate::bresenham::{Dot, Ends, from_start};
use crate::route::Route;

// One dot: 2^48.
pub const ONE: u64 = 281474976710656;

// Short of the middle of a dot by 2^30, for 'a tie staying nearer the start': 2^47 - 2^30.
const BEFORE_MIDDLE: u64 = 140736414613504;

// The same where the line runs downwards in number: 2^47 + 2^30.
const AFTER_MIDDLE: u64 = 140738562097152;

// A course: how many dots it has; its column and row times 2^48; and what a step adds to them,
// modulo 2^64.
#[derive(Clone, Copy)]
pub struct Course {
    pub count: u32,
    pub column: u64,
    pub row: u64,
    pub right: u64,
    pub down: u64,
}

// One of `long` steps that go `short` dots together.
#[tactic(auto, unfolding(crate::specs::Course::slope_of))]
fn slope(long: u16, short: u16) -> u64
    ensures { result ≡ slope_of long short }
{
    if short < long {
        u64::from(short) * ONE / u64::from(long) + 1
    } else {
        ONE
    }
}

// Where a course from a toward b starts.
#[tactic(auto, unfolding(crate::specs::Course::place_of))]
fn place(a: u16, b: u16) -> u64
    ensures { result ≡ place_of a b }
{
    let middle = if b < a { AFTER_MIDDLE } else { BEFORE_MIDDLE };
    u64::from(a) * ONE + middle
}

// What a step from a toward b adds. The sign of the step is chosen: no lesser or greater of two numbers.
#[tactic(auto, using(crate::proofs::FixedPoint::slopes), unfolding(crate::specs::Course::move_of))]
fn moves(long: u16, a: u16, b: u16) -> u64
    ensures { result ≡ move_of long a b }
{
    let by = slope(long, a.abs_diff(b));
    if b < a { by.wrapping_neg() } else { by }
}

impl Course {
    // The course between two ends, at its first dot.
    #[tactic(auto, unfolding(crate::specs::Course::course_of))]
    pub fn new(e: Ends) -> Course
        ensures { result ≡ course_of e }
    {
        let s = from_start(e);
        let long = s.x1.abs_diff(s.x2).max(s.y1.abs_diff(s.y2));
        Course {
            count: u32::from(long) + 1,
            column: place(s.x1, s.x2),
            row: place(s.y1, s.y2),
            right: moves(long, s.x1, s.x2),
            down: moves(long, s.y1, s.y2),
        }
    }
}

impl Route for Course {
    ghost count_of = { λ c. c.count };

    ghost dot_of = { course_dot };

    ghost next_of = { next_course };

    // How many dots the course has from its first.
    fn count(self) -> u32 {
        self.count
    }

    // The dot that the course is at. By `as`, since a quotient by ONE is below 2^16: a try_from would test each dot.
    fn dot(self) -> Dot {
        Dot {
            column: (self.column / ONE) as u32,
            row: (self.row / ONE) as u32,
        }
    }

    // The course at its next dot.
    fn step(self) -> Course {
        Course {
            column: self.column.wrapping_add(self.right),
            row: self.row.wrapping_add(self.down),
            ..self
        }
    }
}
