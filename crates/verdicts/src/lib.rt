// What the progress of a year amounts to: its verdict and its status. The definitions are in the crate year.
#![tactic(auto)]

pub mod kinds;
pub mod status;
pub mod verdict;
