// Rust's `as` between f64 and the integers that the canvas uses (document 01, 'Float numbers').
// One for each type, as std has them: no trait of the library casts a float.
ghost use Rattle.std.specs.Prelude.{◌≡◌};
ghost use Rattle.floats.specs.Truncation.{as_signed, as_unsigned, whole_of};

// `x as i64`: -1.9 gives -1, a NaN 0, and 1e300 the largest i64.
#[tactic(auto, using(crate::proofs::Truncation::signed_casts))]
pub fn as_i64(x: f64) -> i64
    ensures { result ≡ as_signed 63 x }
{
    std::num::saturating_f64_to_i64(x)
}

// `x as u64`: -1.9 and a NaN give 0.
#[tactic(auto, using(crate::proofs::Truncation::unsigned_is))]
pub fn as_u64(x: f64) -> u64
    ensures { result ≡ as_unsigned 64 x }
{
    std::num::saturating_f64_to_u64(x)
}

// `x as u16`: 65535.9 and all above give 65535.
#[tactic(auto, using(crate::proofs::Truncation::unsigned_is))]
pub fn as_u16(x: f64) -> u16
    ensures { result ≡ as_unsigned 16 x }
{
    std::num::saturating_f64_to_u16(x)
}

// `x as i64 as f64`. The way back of 0, which most numbers that a circle asks for give, is written out.
pub fn as_whole(x: f64) -> f64
    ensures { result ≡ whole_of x }
{
    let n = as_i64(x);
    if n == 0 {
        return 0.0;
    }
    std::num::nearest_i64_to_f64(n)
}
