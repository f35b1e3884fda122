// Tests of turn_cell: two callers in threads, each call once, a caller that keeps its pass, and what no clause says.
#![tactic(auto)]

#[cfg(test)]
mod ends;
pub mod tally;
#[cfg(test)]
mod turn_cell_tests;
