// Min and max: the other number where one is NaN; of zeros with opposite signs, -0 and +0.
ghost use Rattle.std.specs.Prelude.{◌≡◌};
ghost use Rattle.float.specs.Extrema.{minimum_number, maximum_number};

// Both numbers, the lesser first.
fn ordered(a: f64, b: f64) -> (f64, f64)
    ensures { result ≡ (minimum_number a b, maximum_number a b) }
{
    if a.is_nan() {
        return (b, b);
    }
    if b.is_nan() {
        return (a, a);
    }
    if a < b {
        return (a, b);
    }
    if b < a {
        return (b, a);
    }
    // equal numbers differ at most in the sign of a zero
    if a.is_sign_negative() {
        return (a, b);
    }
    (b, a) // -0 and +0 where they differ
}

pub fn min(a: f64, b: f64) -> f64
    ensures { result ≡ minimum_number a b }
{
    ordered(a, b).0
}

pub fn max(a: f64, b: f64) -> f64
    ensures { result ≡ maximum_number a b }
{
    ordered(a, b).1
}
