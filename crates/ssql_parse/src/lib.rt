//! StreamSQL scripts: what the grammar has, read and printed.
//!
//! Stands for: what each rule of the grammar spells in tokens (`specs/Grammar.antt`), and which text is a script, or where it
//! stops being one and by which rule (`specs/Parsing.antt`). Called by `ssql_types` and the commands. A rule is a function from what is
//! written to its tokens, and nothing else; a reader is exact for it (`specs/Exact.antt`): it reads what the rule spells, and
//! stops at the first token with which the rule can't go on, whatever comes behind. Exactness of a whole follows from that of
//! its parts, so a new form of the grammar takes its spelling, its reader of the same parts, and one term in `proofs/`.
//! Conditions are held piece by piece (`src/condition.rt`), so that nothing recurses on what a script nests.
#![tactic(auto)]

mod condition;
mod depth;
pub mod laws;
mod limits;
mod not_a_script;
mod parsing;
mod printing;
mod query;
mod reading;
mod script;
mod statement;

pub use condition::{Literal, Piece, Predicate, Test};
pub use limits::ScriptQuantity;
pub use not_a_script::NotAScript;
pub use parsing::{Script, parse};
pub use printing::print;
pub use query::{Columns, Query, QuerySource};
pub use ssql_tokens::{Column, ComparisonOperator};
pub use statement::Statement;
