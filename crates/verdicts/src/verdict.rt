// The verdict.
ghost use Rattle.std.specs.Prelude.{◌≡◌, ℕ, ltb, map};
ghost use Rattle.conditions.specs.Rows.{first};
ghost use Rattle.year.specs.Periods.{needs};
ghost use Rattle.year.specs.Verdict.{verdict};
ghost use Rattle.year.specs.Admissible.{closed};
ghost use Rattle.verdicts.specs.Numbers.{number_of, numbered};
ghost use Rattle.progress.specs.State.{Figured, Judged};

use crate::kinds::Verdict;
use engines::lookup::passing;
use engines::summary::reached;
use figures::Running;
use progress::Progress;
use schedule::{needs, one_percent};
use year::Pair;

// The first row that applies wins; if none does, testing goes on.
fn first_verdict(rows: &[(bool, Verdict)]) -> Verdict
    ensures { number_of result ≡ first (map numbered rows.now) 1 }
{
    rows.iter()
        .find(|row| row.0)
        .map_or(Verdict::Testing, |row| row.1)
}

// The current period lacks its engines.
pub fn is_short(current: u32, period: u32) -> bool
    ensures { result ≡ ltb current (needs period) }
{
    current < needs(period)
}

// The verdict from the figures of both pollutants at one resolution.
pub fn verdict_by(p: &Progress, figures: Pair<Running>) -> Verdict
    requires { Judged p.now figures }
    ensures { (k : ℕ) → Figured k p.now.tested figures → number_of result ≡ verdict k p.now }
{
    let n = p.engines.len();
    let passing = passing(&p.engines) as u64;
    first_verdict(&[
        (p.declared, Verdict::Declared),
        (figures.either(|f| f.failed), Verdict::Failed),
        (figures.either(|f| f.undecided), Verdict::Undecided),
        (is_short(p.current, p.period), Verdict::Short),
        (figures.both(reached), Verdict::SizeReached),
        (30 <= n, Verdict::ThirtyTested),
        (
            one_percent(p.setup.volume) <= passing,
            Verdict::PercentTested,
        ),
    ])
}

// The calculator's verdict, at resolution 1,024.
pub fn verdict(p: &Progress) -> Verdict
    ensures { number_of result ≡ verdict 1024 p.now }
{
    verdict_by(p, p.figures)
}

// The verdict is 6 or 7.
pub fn closed(p: &Progress) -> bool
    ensures { result ≡ closed p.now }
{
    p.declared | p.figures.either(|f| f.failed)
}
