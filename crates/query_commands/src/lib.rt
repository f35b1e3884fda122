//! The commands that ask an archive: `query --ask` and `query --sql`.
//!
//! Stands for: their plans (specs/Query.antt, specs/Sql.antt): an archive is opened, asked, and left as it was. Called by the top call. The asks are answered
//! by ask_answers, the statements by script_answers; what is printed before a refusal is said in specs/QueryReplying.antt and specs/SqlReplying.antt.
//!
//! The one idea of the proofs: answering only reads the store (`WasRead` of command_runs), so the disk that is given back reads as that of the opening.
//!
//! Begin with `query_plan`, and then `query`.
#![tactic(auto)]

pub mod query;
pub mod sql;
