// Look-up of an engine number among the tested engines, and of the newest engine's period; and how many engines pass.
ghost use Rattle.std.specs.Prelude.{◌≡◌, eqb, count_by};
ghost use Rattle.std.specs.List.{list_any};
ghost use Rattle.year.specs.Replay.{is_tested, newest_in};
ghost use Rattle.year.specs.Verdict.{passes};
ghost use Rattle.engines.specs.Engines.{tested};

use crate::Engines;
use year::Tested;

// Whether one of these engines has a number.
fn any_has(engines: &[Tested], number: u32) -> bool
    ensures { result ≡ list_any (λ x. eqb x.number number) engines.now }
{
    engines.iter().any(|x| u32::from(x.number) == number)
}

pub fn is_tested(e: &Engines, number: u32) -> bool
    ensures { result ≡ is_tested number (tested e.now) }
{
    any_has(e.as_slice(), number)
}

// Whether the newest engine was tested in a period; false if there is no engine.
#[tactic(auto, using(crate::proofs::Newest::newest_last))]
pub fn newest_in(e: &Engines, period: u32) -> bool
    ensures { result ≡ newest_in period (tested e.now) }
{
    match e.as_slice() {
        [.., newest] => u32::from(newest.period) == period,
        [] => false,
    }
}

// How many of these engines pass.
fn passing_among(engines: &[Tested]) -> usize
    ensures { result ≡ count_by passes engines.now }
{
    engines.iter().filter(|x| x.passes()).count()
}

// How many engines pass: those that verdict 4 counts.
#[tactic(auto, using(crate::proofs::Newest::counted_any))]
pub fn passing(e: &Engines) -> usize
    ensures { result ≡ count_by passes (tested e.now) }
{
    passing_among(e.as_slice())
}
