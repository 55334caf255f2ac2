// What the functions for other languages answer and leave. The definitions are in specs/.
#![tactic(auto)]

// The figures of an answer: n, the verdict, and nine for each pollutant.
pub const FIGURE_COUNT: usize = 20;
