// The figures of a year recomputed from its engines, at any resolution.
ghost use Rattle.std.specs.Prelude.{◌≡◌, List, ◌∷◌, ◌≤◌, reverse};
ghost use Rattle.statistics.specs.declared.Test.{Test};
ghost use Rattle.statistics.specs.Ranges.{HistoryInRange};
ghost use Rattle.figures.specs.Running.{running, RunningInRange};
ghost use Rattle.year.specs.Setup.{Pollutant, Hcnox, Co};
ghost use Rattle.year.specs.Replay.{history};
ghost use Rattle.engines.specs.Engines.{tested, EnginesInRange};

use crate::Engines;
use figures::Running;
use statistics::Test;
use year::{Pair, Tested};

// Adds an engine, as each pollutant sees it, to both figures: whatever histories the old ones are of, the new ones are of those with this engine added.
pub fn add_tests(figures: &mut Pair<Running>, tests: Pair<Test>, resolution: u64)
    requires hcnox { RunningInRange resolution figures.old.hcnox tests.hcnox.result }
    requires co { RunningInRange resolution figures.old.co tests.co.result }
    ensures hcnox { (h : List Test) → figures.old.hcnox ≡ running resolution h → figures.new.hcnox ≡ running resolution (tests.hcnox ∷ h) }
    ensures co { (h : List Test) → figures.old.co ≡ running resolution h → figures.new.co ≡ running resolution (tests.co ∷ h) }
{
    figures.hcnox.add(tests.hcnox, resolution);
    figures.co.add(tests.co, resolution);
}

// The figures of both pollutants for engines in order of entry. One loop for both takes half the time of two.
fn figures_of(engines: &[Tested], resolution: u64) -> Pair<Running>
    requires histories { (q : Pollutant) → HistoryInRange 40 (history q (reverse engines.now)) }
    requires fine { resolution ≤ 8192 }
    ensures hcnox { result.hcnox ≡ running resolution (history Hcnox (reverse engines.now)) }
    ensures co { result.co ≡ running resolution (history Co (reverse engines.now)) }
{
    let mut figures = Pair::default();
    for x in engines {
        add_tests(&mut figures, x.tests(), resolution);
    }
    figures
}

// The figures of a year's engines.
pub fn rework(e: &Engines, resolution: u64) -> Pair<Running>
    requires { EnginesInRange e.now resolution }
    ensures hcnox { result.hcnox ≡ running resolution (history Hcnox (tested e.now)) }
    ensures co { result.co ≡ running resolution (history Co (tested e.now)) }
{
    figures_of(e.as_slice(), resolution)
}
