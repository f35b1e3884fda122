//! Conditions with their types: when one is true of a row, and outside which packet names and times of the clock none is.
//!
//! Stands for: what a condition says (`specs/Formulas.antt`), when it is true of a row (`specs/Truth.antt`), and the
//! times and packet names outside which no row with a time of the clock meets it (`specs/ConditionBounds.antt`). Called by `ssql_types`, which
//! makes conditions of scripts, by routes and by selects.
//!
//! A condition is held piece by piece, and contracts see a formula: truth and bounds are what the formula means among
//! truths and among bounds (`Meaning`, `specs/Formulas.antt`). Both are found in one pass over the pieces, with what
//! is known inside each open parenthesis at hand. The one idea of the proof: one law says for all meanings that such a
//! pass finds what the formula means.
//!
//! To be changed together: a column here, in `ssql_types`' `columns`, and its value in `truth`.
#![tactic(auto)]

pub mod bounds;
pub mod condition;
pub mod laws;
pub mod predicate;
pub mod truth;
