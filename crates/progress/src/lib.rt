// The progress of a model year in code: one value that is carried from event to event. A contract sees the progress that the definitions speak of, which are in
// the crate year.
#![tactic(auto)]

pub mod events;

use engines::Engines;
use figures::Running;
use std::marker::Model;
use year::{Pair, Setup};

// The setup, the standards in force, the current period, the tested engines, the number of stored events, whether a declaration was made. Also, carried
// along so that an event need not look at all engines: the number of engines in the current period, and the figures of both pollutants at resolution 1,024.
#[derive(Drop)]
pub struct Progress {
    pub setup: Setup,
    pub standards: Pair<u32>,
    pub period: u32,
    pub engines: Engines,
    pub stored: u32,
    pub declared: bool,
    pub current: u32,
    pub figures: Pair<Running>,
}

impl Model for Progress {
    ghost use Rattle.year.specs.Replay.{Progress as Year};

    ghost Value = { Year };

    ghost use Rattle.progress.specs.State.{progress_of, Consistent};

    ghost view = { progress_of };

    ghost invariant = { Consistent };
}
