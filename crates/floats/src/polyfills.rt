// src/polyfills.rs of ratatui-widgets: the f64 methods of a build without std.
ghost use Rattle.std.specs.Prelude.{◌≡◌};
ghost use Rattle.floats.specs.Polyfills.{mul_add_of, round_of, floor_of, sin_of, cos_of};

use crate::casts::as_whole;
use crate::methods::{PI, abs, copysign};

pub const FRAC_1_PI: f64 = 0.3183098861837907;

// val * a + b, with two roundings, where std's rounds once.
pub fn mul_add(val: f64, a: f64, b: f64) -> f64
    ensures { result ≡ mul_add_of val a b }
{
    val * a + b
}

// The nearest whole number, a half away from 0; 0.49999999999999994 gives 1, and 0 by std's.
#[tactic(auto, unfolding(crate::specs::Polyfills::round_of))]
pub fn round(val: f64) -> f64
    ensures { result ≡ round_of val }
{
    as_whole(val + copysign(0.5, val))
}

// The largest whole number that is at most val.
#[tactic(auto, unfolding(crate::specs::Polyfills::floor_of))]
pub fn floor(val: f64) -> f64
    ensures { result ≡ floor_of val }
{
    let res = as_whole(val);
    if val < res {
        return res - 1.0;
    }
    res
}

// The sine of val radians, to some 0.002.
#[tactic(auto, unfolding(crate::specs::Polyfills::sin_of))]
pub fn sin(val: f64) -> f64
    ensures { result ≡ sin_of val }
{
    cos(val - PI / 2.0)
}

// The cosine of val radians, to some 0.002.
#[tactic(auto, unfolding(crate::specs::Polyfills::cos_of))]
pub fn cos(val: f64) -> f64
    ensures { result ≡ cos_of val }
{
    let turns = val * (FRAC_1_PI / 2.0);
    let reduced = turns - (0.25 + floor(turns + 0.25));
    let parabola = reduced * (16.0 * (abs(reduced) - 0.5));
    parabola + 0.225 * parabola * (abs(parabola) - 1.0)
}
