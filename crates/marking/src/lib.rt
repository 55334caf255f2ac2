// The intervals of CumSum and of the action limit, and the mark that they give (document 01, "Spread, brackets, marks"). The definitions are in the crate
// cumsum.
#![tactic(auto)]

pub mod limits;
pub mod marks;
