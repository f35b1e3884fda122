//! What a script's text stands for in a place, and the answers of an archive to its statements.
//!
//! Stands for: `IsScriptAnswer`, a text as a script beside tables and packet names, or why it is refused (specs/Scripts.antt), and `statements_text`, what
//! `SELECT` and `SHOW` print over an archive (specs/Statements.antt). Called by `query --sql`, and for the former by `create` and `load --route`. ssql_parse
//! reads a text once the archive is open, ssql_types types it over the archive's names, and ssql_select answers a query out of the rows of the store, which is only read. A further
//! statement is a case of `statement_text` and of `answer_statement`.
//!
//! The one idea of the proofs: the partitions that a query reads hold what it selects, since they are those that may hold a row in the bounds of its
//! condition (proofs/HeldParts.antt).
//!
//! Begin with `statement_text`, and then `answer_statement`.
#![tactic(auto)]

pub mod laws;
pub mod scripts;
pub mod statements;
