// Adding an engine, and removing the newest.
ghost use Rattle.std.specs.Prelude.{◌≡◌, [], ◌∷◌, ◌≤◌, drop};
ghost use Rattle.engines.specs.Engines.{tested, EngineInRange};

use crate::Engines;
use year::{Pair, Tested};

// No engine.
pub fn no_engines() -> Engines
    ensures { tested result ≡ [] }
{
    Engines::new()
}

// A number in half the width.
fn narrow(x: u32) -> u16
    requires { x ≤ 65535 }
    ensures { result ≡ x }
{
    x as u16
}

// Adds an engine, with the standards in force and its period.
#[tactic(auto, using(crate::proofs::Newest::newest_first))]
pub fn add_engine(
    e: &mut Engines,
    number: u32,
    results: Pair<u32>,
    standards: Pair<u32>,
    period: u32,
)
    requires { EngineInRange e.old number results standards period }
    ensures { tested e.new ≡ record { number = number; results = results; standards = standards; period = period } ∷ tested e.old }
{
    let engine = Tested {
        number: narrow(number),
        results: results.map(narrow),
        standards: standards.map(narrow),
        period: period as u8,
    };
    e.push(engine);
}

// Removes the newest engine, if there is one.
#[tactic(auto, using(crate::proofs::Newest::rest_newest))]
pub fn remove_newest(e: &mut Engines)
    ensures { tested e.new ≡ drop 1 (tested e.old) }
{
    e.pop();
}
