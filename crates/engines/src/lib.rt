// The tested engines of a year in code, in order of entry, and what is computed from them.
#![tactic(auto)]

pub mod lookup;
pub mod rework;
pub mod store;
pub mod summary;

use arrayvec::ArrayVec;
use year::{MOST_ENGINES, Tested};

// At most forty, in memory of a fixed size.
pub type Engines = ArrayVec<Tested, MOST_ENGINES>;
