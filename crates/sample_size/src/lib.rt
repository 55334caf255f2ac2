// The required sample size N = 1 + t95² × V × n / (10,000 × (n − 1) × G²), and the stop test (document 01, "Sample size"). The definitions are in the crate
// statistics.
#![tactic(auto)]

mod coefficient;

ghost use Rattle.std.specs.Prelude.{◌≡◌, ◌-◌, ◌*◌, ◌≤◌};
ghost use Rattle.statistics.specs.SampleSize.{t95, sample_size, size_reached};
ghost use Rattle.sample_size.specs.Ranges.{SizeInRange};

use crate::coefficient::t95;
use spread::Sums;

// The numerator of N − 1: t95² × V × n.
#[tactic(auto, using(crate::proofs::Sizes::square_fits, crate::proofs::Sizes::numerator_fits))]
fn numerator(n: u64, variation: u64) -> u64
    requires { (2 ≤ n) × (n ≤ 40) × (variation ≤ n * n * 100000000) }
    ensures { (result ≡ t95 n * t95 n * variation * n) × (result ≤ 2548230400000000000) }
{
    let t = t95(n);
    t * t * variation * n
}

// A ten-thousandth of the denominator of N − 1, where g is the magnitude of G. It is never 0.
fn denominator(n: u64, g: u64) -> u64
    requires { (2 ≤ n) × (n ≤ 40) × (1 ≤ g) × (g ≤ 800000) }
    ensures { (result ≡ (n - 1) * (g * g)) × (1 ≤ result) × (result ≤ 24960000000000) }
{
    (n - 1) * (g * g)
}

// N in tenths, rounded up, if there is one, for engines with these sums, the newest under `standard`.
#[tactic(auto, using(crate::proofs::Sizes::sizes))]
pub fn sample_size_of(sums: Sums, standard: u64) -> Option<u64>
    requires { SizeInRange sums.n sums.total standard sums.variation }
    ensures { result ≡ sample_size sums.n sums.total standard sums.variation }
{
    let n = sums.n;
    let target = n * standard;
    if n < 2 {
        return None;
    }
    if sums.total == target {
        return None;
    }
    let tenth = 1000 * denominator(n, sums.total.abs_diff(target));
    let above = numerator(n, sums.variation);
    Some(10 + above.div_ceil(tenth))
}

// N exists, n > N and G ≤ 0. N − 1 is below n − 1 exactly if its integer part is, so no product with n is needed.
#[tactic(auto, using(crate::proofs::Sizes::stops))]
pub fn size_reached(sums: Sums, standard: u64) -> bool
    requires { SizeInRange sums.n sums.total standard sums.variation }
    ensures { result ≡ size_reached sums.n sums.total standard sums.variation }
{
    let n = sums.n;
    let target = n * standard;
    if n < 2 {
        return false;
    }
    if target <= sums.total {
        return false;
    }
    let below = 10000 * denominator(n, target - sums.total);
    numerator(n, sums.variation) / below < n - 1
}
