#![tactic(auto)]
// Whole numbers as IEEE doubles, with nothing lost; and the report of doubles, which is made of them.
ghost use Rattle.std.specs.Prelude.{◌≡◌, ◌^◌, ◌<◌, pos, nat_abs};
ghost use Rattle.doubles.specs.Double.{double, report_of};

// The mean, the pending error and the largest delivered difference.
#[derive(Clone, Copy)]
pub struct Report {
    pub mean: f64,
    pub pending: f64,
    pub largest: f64,
}

// A scaled number, divided by 2^20. The cast loses nothing below 2^53, and division by a power of two only moves the exponent.
fn unscaled(z: i64) -> f64
    requires { nat_abs z < 2 ^ 53 }
    ensures { result ≡ double z (2 ^ 20) }
{
    (z as f64) / 1048576.0
}

// A whole number.
fn whole(n: u64) -> f64
    requires { n < 2 ^ 53 }
    ensures { result ≡ double (pos n) 1 }
{
    n as f64
}

// The report of a scaled mean, a pending error and a scaled difference.
pub fn report_of(mean: i64, pending: u64, largest: i64) -> Report
    requires { (nat_abs mean < 2 ^ 53) × (pending < 2 ^ 53) × (nat_abs largest < 2 ^ 53) }
    ensures { result ≡ report_of mean pending largest }
{
    Report {
        mean: unscaled(mean),
        pending: whole(pending),
        largest: unscaled(largest),
    }
}
