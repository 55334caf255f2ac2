// The decision on an engine: the event with the results computed from its readings, or its refusal. Nothing is written.
#![tactic(auto)]

mod readings;

ghost use Rattle.std.specs.Prelude.{◌≡◌};
ghost use Rattle.conditions.specs.Rows.{first};
ghost use Rattle.reference.specs.Call.{entry_of};
ghost use Rattle.reference.specs.Refused.{refused};
ghost use Rattle.refusals.specs.Decisions.{decision_on};
ghost use Rattle.engine_decision.specs.Given.{given};
ghost use Rattle.engine_decision.specs.Rows.{asked_rows, worked_rows, engine_decision};

use crate::readings::{all_fit, counts_fit};
use admission::number_in_range;
use engines::lookup::is_tested;
use progress::Progress;
use reference::{EngineEntry, Refusal};
use refusals::entry_refusal;
use results::{result_in_range, result_of};
use year::{Event, MOST_ENGINES, Pair};

// Refusals 10, 11 and 12, which are tested before the results are computed.
fn check_asked(p: &Progress, engine: &EngineEntry<'_>) -> Result<(), Refusal>
    ensures { refused result ≡ first (asked_rows engine.now.number (given engine.now.readings) p.now) 0 }
{
    if !number_in_range(engine.number) || is_tested(&p.engines, engine.number) {
        return Err(Refusal::EngineNumber);
    }
    if !counts_fit(&engine.readings) {
        return Err(Refusal::ReadingCount);
    }
    if !all_fit(&engine.readings) {
        return Err(Refusal::ReadingRange);
    }
    Ok(())
}

// Refusals 13 and 14, from the results and the number of engines tested.
fn check_worked(results: Pair<u64>, count: usize) -> Result<(), Refusal>
    ensures { refused result ≡ first (worked_rows results.hcnox results.co count) 0 }
{
    if !results.both(result_in_range) {
        return Err(Refusal::ResultRange);
    }
    if MOST_ENGINES <= count {
        return Err(Refusal::EnginesFull);
    }
    Ok(())
}

// The decision on a year that is open.
pub fn engine(p: &Progress, engine: &EngineEntry<'_>) -> Result<Event, Refusal>
    ensures { result ≡ engine_decision engine.now.number (given engine.now.readings) p.now }
{
    check_asked(p, engine)?;
    let results = p
        .setup
        .factors
        .zip(engine.readings)
        .map(|(factor, readings)| result_of(factor, readings));
    check_worked(results, p.engines.len())?;
    Ok(Event::Engine {
        number: engine.number,
        readings: engine.readings.hcnox.len() as u32,
        results: results.map(|x| x as u32),
    })
}

// The decision on an engine on a journal of any length and content: the first refusal of the whole table, or the event that its entry would add.
pub fn decide(journal: &[u8], entry: &EngineEntry<'_>) -> Result<Event, Refusal>
    ensures { result ≡ decision_on (entry_of entry.now) journal.now }
{
    let year = entry_refusal(journal, false)?;
    engine(&year, entry)
}
