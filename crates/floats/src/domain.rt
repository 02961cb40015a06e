// The domain of document 01: every coordinate, bound, length and radius is finite and at most 2^40
// in magnitude.
ghost use Rattle.std.specs.Prelude.{◌≡◌};
ghost use Rattle.floats.specs.Domain.{in_domain};

// Whether x is in the domain: 2^40 is, the next float is not, nor an infinity or a NaN.
pub fn in_domain(x: f64) -> bool
    ensures { result ≡ in_domain x }
{
    (x >= -1099511627776.0) & (x <= 1099511627776.0)
}
