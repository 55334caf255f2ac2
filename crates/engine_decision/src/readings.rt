// The table's tests of an engine's readings for each pollutant.
ghost use Rattle.std.specs.Prelude.{◌≡◌};
ghost use Rattle.std.specs.List.{list_all};
ghost use Rattle.rounding.specs.Result.{reading_in_range};
ghost use Rattle.reference.specs.Refusals.{counts_fit, readings_fit};
ghost use Rattle.engine_decision.specs.Given.{given};

use results::{count_in_range, reading_in_range};
use year::Pair;

// Equally many readings for each pollutant, 1 to 3.
pub fn counts_fit(readings: &Pair<&[u32]>) -> bool
    ensures { result ≡ counts_fit (given readings.now) }
{
    readings.hcnox.len() == readings.co.len() && count_in_range(readings.hcnox.len())
}

// Every reading of a list is in range.
fn all_in_range(readings: &[u32]) -> bool
    ensures { result ≡ list_all (λ reading. reading_in_range reading) readings.now }
{
    readings.iter().all(|reading| reading_in_range(*reading))
}

#[tactic(auto, using(crate::proofs::InRange::every_in_range))]
pub fn all_fit(readings: &Pair<&[u32]>) -> bool
    ensures { result ≡ readings_fit (given readings.now) }
{
    readings.both(all_in_range)
}
