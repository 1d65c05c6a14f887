// A pair of knots, and the reading between them. Each function takes any input.
#![tactic(auto)]

ghost use Rattle.std.specs.Prelude.{◌≡◌};
ghost use Rattle.reading_pair.specs.Pairs.{pair_of, interpolated};

// Two knots: microvolts and tenths of a degree of the lower, then of the upper.
#[derive(Clone, Copy)]
pub struct Pair {
    pub x0: f64,
    pub t0: f64,
    pub x1: f64,
    pub t1: f64,
}

// The pair of two knots given as whole numbers.
pub fn pair_of(x0: i32, t0: i16, x1: i32, t1: i16) -> Pair
    ensures { result ≡ pair_of x0 t0 x1 t1 }
{
    Pair {
        x0: x0 as f64,
        t0: t0 as f64,
        x1: x1 as f64,
        t1: t1 as f64,
    }
}

// The temperature at x by a pair: the product first, then the quotient.
pub fn interpolate(p: Pair, x: f64) -> f64
    ensures { result ≡ interpolated p x }
{
    p.t0 + (p.t1 - p.t0) * (x - p.x0) / (p.x1 - p.x0)
}
