//! Scripts with their types: which rule a script breaks first, and what it stands for.
//!
//! Stands for: what is wrong with each token of a script (`specs/Faults.antt`), and what a script stands for in which
//! nothing is wrong (`specs/Typed.antt`). Called by the commands that take scripts.
//!
//! `typed` goes over a script once. Each part of it takes the octets at which its tokens and those behind begin, and
//! gives back the octets of those behind, so that the first token with which something is wrong has its place at
//! hand. The one idea of its proof: the first fault of tokens a and then b is that of a, or else that of b with the
//! places behind a.
//!
//! Conditions are `ssql_conditions`' own: held piece by piece, and formulas for contracts.
//!
//! To be changed together: a rule's token in `specs/Faults.antt` and the function of the same part here; a column in
//! `columns`, in `specs/Columns.antt`, and in `ssql_conditions`.
#![tactic(auto)]

mod columns;
mod condition;
pub mod laws;
mod literals;
mod names;
pub mod not_typed;
pub mod place;
mod predicate;
pub mod query;
pub mod rules;
pub mod script;
pub mod sources;
pub mod statement;
