// What the wall page ("report") shows: the head's figures, and those of each remaining engine (document 02, W-205). The definitions are in specs/.
#![tactic(auto)]

use cumsum::Interval;
use year::Pair;

// Projected volume P, production days D, and the number of periods of the year.
#[derive(Clone, Copy)]
pub struct Head {
    pub volume: u32,
    pub days: u32,
    pub periods: u32,
}

// An engine's number and results, C as it was at that engine, and the bytes of its marks.
#[derive(Clone, Copy, Default)]
pub struct Row {
    pub number: u16,
    pub results: Pair<u16>,
    pub cumsum: Pair<Interval>,
    pub marks: Pair<u8>,
}
