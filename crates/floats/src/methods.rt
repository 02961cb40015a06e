// Methods of f64 in Rust's core that the sources call.
ghost use Rattle.std.specs.Prelude.{◌≡◌};
ghost use Rattle.floats.specs.Methods.{is_negative, abs_of, copysign_of, clamp_of, to_radians_of};

pub const PI: f64 = 3.141592653589793;

// Whether the sign of x is set; -0.0 has it set, and a NaN counts as without.
#[tactic(auto, using(crate::proofs::Sign::sign_is, crate::proofs::Sign::no_sign))]
pub fn is_negative(x: f64) -> bool
    ensures { result ≡ is_negative x }
{
    !x.is_nan() && x.is_sign_negative()
}

// `x.abs()` clears the sign, that of -0.0 too.
#[tactic(auto, using(crate::proofs::Sign::cleared_is))]
pub fn abs(x: f64) -> f64
    ensures { result ≡ abs_of x }
{
    x.abs()
}

// `x.copysign(sign)`: the size of x with the other's sign, which may be a NaN here, and not for std's.
pub fn copysign(x: f64, sign: f64) -> f64
    ensures { result ≡ copysign_of x sign }
{
    let size = abs(x);
    if is_negative(sign) {
        return -size;
    }
    size
}

// `x.clamp(min, max)`, as FilledLine uses it. Where min is above max the Rust panics, and here max
// is the answer; the canvas asks only with bounds in order. std's clamp requires that order.
pub fn clamp(x: f64, min: f64, max: f64) -> f64
    ensures { result ≡ clamp_of x min max }
{
    let above = if x < min { min } else { x };
    if above > max { max } else { above }
}

// `x.to_radians()`: one multiplication, by PI / 180, with the PI that the document gives.
pub fn to_radians(x: f64) -> f64
    ensures { result ≡ to_radians_of x }
{
    x * (PI / 180.0)
}
