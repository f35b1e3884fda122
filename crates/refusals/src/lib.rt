//! What a call answers where it doesn't do what it was asked, and the limits of quantities.
//!
//! Stands for: the refusals with their exit status (`specs/Refusal.antt`) and their texts, and the greatest number of each quantity that has a
//! limit (`specs/Limits.antt`). Called by all that can give most of the refusals, and by the program. Below the store a crate that gives two or
//! three of them answers by an enum of its own (asks, archive_history, disk_journal, mdb_items, ssql_parse, ssql_types).
//!
//! To be changed together: a refusal, its status and its text; a limit and its number in the crate that tests it, which a law
//! ties to the one here (`history_limits_agree` of archive_store, `database_limits_agree` of retrieval, `script_limits_agree`
//! of archive_cli).
#![tactic(auto)]

pub mod refusal;
pub mod text;

pub use refusal::{BadKind, Refusal, SheetName, Which};
pub use text::FaultText;
