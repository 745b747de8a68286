// A frame rate in lowest terms.
ghost use Rattle.std.specs.Prelude.{◌≡◌, ◌<◌};
ghost use Rattle.fv_plane.specs.Info.{gcd, lowest};

// The greatest common divisor.
#[tactic(auto, using(crate::proofs::GcdLemmas::gcd_found))]
fn gcd(a: u128, b: u128) -> u128
    requires some { 0 < a }
    requires more { 0 < b }
    ensures value { result ≡ gcd a b }
    ensures some { 0 < result }
{
    let (mut x, mut y) = (a, b);
    while y != 0 {
        let rest = x % y;
        x = y;
        y = rest;
    }
    x
}

/// A rate, `num` to `den`, in lowest terms.
pub fn lowest(num: u128, den: u128) -> (u128, u128)
    requires num { 0 < num }
    requires den { 0 < den }
    ensures { record { num = result.0; den = result.1 } ≡ lowest (record { num = num; den = den }) }
{
    let divisor = gcd(num, den);
    (num / divisor, den / divisor)
}
