// The rules of a setup in code: its ranges and those of an amendment, the test periods, one percent of the volume. The definitions are in the crate year.
#![tactic(auto)]

ghost use Rattle.std.specs.Prelude.{◌≡◌};
ghost use Rattle.year.specs.Setup.{standard_in_range, standards_in_range, production_in_range, factors_in_range, setup_in_range};
ghost use Rattle.year.specs.Periods.{periods, needs};
ghost use Rattle.year.specs.Verdict.{one_percent};

use results::{factor_in_range, nearest_even};
use year::{Pair, Setup};

// Multiples of ten, 10 to 20,000.
pub fn standard_in_range(standard: u32) -> bool
    ensures { result ≡ standard_in_range standard }
{
    (10..=20000).contains(&standard) && standard % 10 == 0
}

pub fn standards_in_range(standards: Pair<u32>) -> bool
    ensures { result ≡ standards_in_range standards }
{
    standards.both(standard_in_range)
}

// Projected volume 1 to 99,999,999, production days 1 to 366.
pub fn production_in_range(setup: Setup) -> bool
    ensures { result ≡ production_in_range setup }
{
    (1..=99999999).contains(&setup.volume) && (1..=366).contains(&setup.days)
}

pub fn factors_in_range(setup: Setup) -> bool
    ensures { result ≡ factors_in_range setup }
{
    setup.factors.both(factor_in_range)
}

pub fn setup_in_range(setup: Setup) -> bool
    ensures { result ≡ setup_in_range setup }
{
    production_in_range(setup) && standards_in_range(setup.standards) && factors_in_range(setup)
}

// The number of test periods.
#[tactic(auto, unfolding(year::specs::Periods::periods))]
pub fn periods(volume: u32, days: u32) -> u32
    ensures { result ≡ periods volume days }
{
    if volume < 1600 {
        return 1;
    }
    match days {
        ..=120 => 1,
        121..=210 => 2,
        211..=300 => 3,
        _ => 4,
    }
}

// How many engines a period needs.
#[tactic(auto, unfolding(year::specs::Periods::needs))]
pub fn needs(period: u32) -> u32
    ensures { result ≡ needs period }
{
    if period == 1 { 2 } else { 1 }
}

// One percent of the projected volume, rounded, halves to even.
pub fn one_percent(volume: u32) -> u64
    ensures { result ≡ one_percent volume }
{
    nearest_even(u64::from(volume), 100)
}
