#![tactic(auto)]

// A deterioration factor of one pollutant. Kind 0 adds `value` thousandths of a result unit, kind 1 multiplies by `value` thousandths.
// Both are stored as given; `factor_in_range` says whether they are in range.
#[derive(Clone, Copy, Default)]
pub struct Factor {
    pub kind: u32,
    pub value: u32,
}
