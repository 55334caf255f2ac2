// From readings to a result (document 01, "From reading to result"): each step rounds to the nearest, halves to the even neighbour. The definitions are in the
// crate rounding.
#![tactic(auto)]

ghost use Rattle.std.specs.Prelude.{◌≡◌, map, ◌^◌, ◌≤◌, ◌<◌, length, sum};
ghost use Rattle.rounding.specs.Result.{nearest_even, rounded, factored, result_of, count_in_range, reading_in_range, factor_in_range, result_in_range};

use rounding::Factor;

// a / b to the nearest, halves to the even neighbour.
#[tactic(auto, using(rounding::proofs::Nearest::down, rounding::proofs::Nearest::up, rounding::proofs::Nearest::half))]
pub fn nearest_even(a: u64, b: u64) -> u64
    requires { 1 ≤ b }
    ensures { result ≡ nearest_even a b }
{
    let q = a / b;
    let below = a % b;
    let above = b - below;
    if below < above {
        return q;
    }
    if above < below {
        return q + 1;
    }
    q + q % 2
}

// A reading in result units.
#[tactic(auto, using(crate::proofs::Room::nearest_le))]
fn rounded(reading: u32) -> u64
    ensures value { result ≡ rounded reading }
    ensures below { result ≤ 4294968 }
{
    nearest_even(u64::from(reading), 1000)
}

// The sum of the readings, each rounded to result units.
fn rounded_sum(readings: &[u32]) -> u64
    requires { length readings.now ≤ 3 }
    ensures total { result ≡ sum (map rounded readings.now) }
    ensures below { result < 2 ^ 24 }
{
    readings.iter().map(|reading| rounded(*reading)).sum()
}

// A mean with the factor applied, in result units.
fn with_factor(factor: Factor, mean: u64) -> u64
    requires { mean ≤ 2 ^ 24 }
    ensures { result ≡ factored factor mean }
{
    let value = u64::from(factor.value);
    let thousandths = match factor.kind {
        0 => 1000 * mean + value,
        _ => mean * value,
    };
    nearest_even(thousandths, 1000)
}

// The result of an engine's readings for one pollutant.
#[tactic(auto, using(crate::proofs::Room::mean_le))]
pub fn result_of(factor: Factor, readings: &[u32]) -> u64
    requires { (1 ≤ length readings.now) × (length readings.now ≤ 3) }
    ensures { result ≡ result_of factor readings.now }
{
    let total = rounded_sum(readings);
    let mean = nearest_even(total, readings.len() as u64);
    with_factor(factor, mean)
}

// An engine has 1 to 3 readings for each pollutant.
pub fn count_in_range(count: usize) -> bool
    ensures { result ≡ count_in_range count }
{
    (1..=3).contains(&count)
}

pub fn reading_in_range(reading: u32) -> bool
    ensures { result ≡ reading_in_range reading }
{
    reading <= 20000000
}

pub fn factor_in_range(factor: Factor) -> bool
    ensures { result ≡ factor_in_range factor }
{
    match factor.kind {
        0 => factor.value <= 60000,
        1 => (1000..=60000).contains(&factor.value),
        _ => false,
    }
}

pub fn result_in_range(res: u64) -> bool
    ensures { result ≡ result_in_range res }
{
    res <= 20000
}
