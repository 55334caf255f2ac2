// Sums and sample standard deviation of one pollutant in code (document 01, "Spread, brackets, marks", first paragraph). The definitions are in the crate
// statistics.
#![tactic(auto)]

pub mod squareroot;
pub mod start;
pub mod summing;
pub mod variance;

// n, S, Q and V of one pollutant's results.
#[derive(Clone, Copy)]
pub struct Sums {
    pub n: u64,
    pub total: u64,
    pub squares: u64,
    pub variation: u64,
}
