// Whether an event could be entered.
#![tactic(auto)]

ghost use Rattle.std.specs.Prelude.{◌≡◌};
ghost use Rattle.year.specs.Admissible.{number_in_range, results_in_range, fits, admissible};

use engines::lookup::{is_tested, newest_in};
use progress::Progress;
use results::{count_in_range, result_in_range};
use schedule::{periods, standards_in_range};
use verdicts::verdict::{closed, is_short};
use year::{Event, MOST_ENGINES, MOST_EVENTS, Pair};

pub fn number_in_range(number: u32) -> bool
    ensures { result ≡ number_in_range number }
{
    (1..=65535).contains(&number)
}

pub fn results_in_range(results: Pair<u32>) -> bool
    ensures { result ≡ results_in_range results }
{
    results.both(|x| result_in_range(u64::from(x)))
}

// An engine: its number is in range and new, it has 1 to 3 readings, its results are in range, and there is room for it.
fn engine_fits(p: &Progress, number: u32, readings: u32, results: Pair<u32>) -> bool
    ensures { result ≡ fits p.now (Event.Engine number readings results) }
{
    number_in_range(number)
        && !is_tested(&p.engines, number)
        && count_in_range(readings as usize)
        && results_in_range(results)
        && p.engines.len() < MOST_ENGINES
}

// The next period: there is one, and the current one is not short.
pub fn period_fits(p: &Progress) -> bool
    ensures { result ≡ fits p.now Event.NextPeriod }
{
    let last = periods(p.setup.volume, p.setup.days) <= p.period;
    !(last || is_short(p.current, p.period))
}

// A deletion ("strike"): the newest engine was entered in the current period.
pub fn deletion_fits(p: &Progress) -> bool
    ensures { result ≡ fits p.now Event.Deletion }
{
    newest_in(&p.engines, p.period)
}

// The conditions that depend on the event's kind.
fn event_fits(p: &Progress, e: Event) -> bool
    ensures { result ≡ fits p.now e }
{
    match e {
        Event::Engine {
            number,
            readings,
            results,
        } => engine_fits(p, number, readings, results),
        Event::Amendment(standards) => standards_in_range(standards),
        Event::NextPeriod => period_fits(p),
        Event::Declaration => true,
        Event::Deletion => deletion_fits(p),
    }
}

// The event could be entered now.
#[tactic(auto, unfolding(year::specs::Admissible::admissible))]
pub fn is_admissible(p: &Progress, e: Event) -> bool
    ensures { result ≡ admissible p.now e }
{
    !closed(p) && p.stored < MOST_EVENTS && event_fits(p, e)
}
