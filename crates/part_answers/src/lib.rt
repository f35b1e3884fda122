// The answer over the parts of a plan: the cells that sets and rows have of a parameter in a range of times.
//
// A plan has for each interval that a range meets its segment set, or its rows, still to be extracted (param_segments). Of
// a set the cells are read from its columns, of a row its packet gives them; they come in the order that was asked, up to
// the limit (specs/PartCells.antt). Nothing here knows of a store.
// Callers: retrieval, which answers over a store, live_archive behind its turn, and glance over what was published.
//
// The two ideas of the proof: a descending ask goes from the last part and its last row and stops at its limit, and gives
// what the ascending cells, turned, begin with (proofs/Limited.antt); over which rows the parts are matters nowhere but in
// one lemma (proofs/OverRows.antt).
#![tactic(auto)]

pub mod answer;
pub mod cells;
mod part_cells;
