// Ranges, and tables in which the first row that applies wins. All definitions.
#![tactic(auto)]
