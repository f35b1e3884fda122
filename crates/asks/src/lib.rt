//! What is asked of an archive, what is refused of it, and the answer.
//!
//! Stands for: requests of values and of rows, the asks of a sheet, and the cells that answer a request at a front; the numbers of what an
//! ask names (specs/Names.antt), and why an ask has no answer (specs/Refusals.antt), of which specs/Laws.antt says where each refusal comes.
//! Called by the readers of asks, and by all that answers them: what is refused of an ask is said here alone.
//!
//! To be changed together: a refusal of an ask, and what stands for it among those of the archive (archive_store, src/finding.rt).
#![tactic(auto)]

pub mod ask;
pub mod laws;
pub mod refusal;

pub use ask::{Answer, Ask, Asks, ReplayRequest, Request};
pub use refusal::{AskRefusal, range_refusal, table_number};
