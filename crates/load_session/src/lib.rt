//! The packets of a dump that came by one link, batch by batch, and what is late in an open store, filled.
//!
//! Stands for: which rows the packets of a dump are by a route (`rows_received`); packets that wait, taken for a batch of
//! 64, of which idle ones are left out (`HasTakenWaiting`); how far a dump was sent, which history that reached, and why
//! it ended there (`SessionResult`); what a dump had whose packets were all sent (`IsSummary`); and what power lost
//! meanwhile leaves (`IsDuring`). And for what a store has once each late interval was filled, and what it has where one
//! couldn't be (specs/Filling.antt). Called by load_jobs, whose links send the batches, and by the commands that fill,
//! `load` behind its jobs and `recover`; they take a failed write back. The order of fills and what refuses them stand in
//! `command_runs` too, as a part of plans (specs/FillingPlan.antt there): they change together.
//!
//! The ideas of the proofs: what is taken goes on from whatever was taken before (proofs/Batching.antt). Each fill is
//! that of the least late interval over the whole history, so no interval is filled twice (proofs/FilledTasks.antt).
//!
//! Begin with `HasTakenWaiting` and `take_waiting`, and with `AllLateFilled`, `IsFilledOn` and `fill_late`.
#![tactic(auto)]

mod batches;
mod filling;
pub mod laws;
mod session;

pub use batches::{BATCH, NextBatch, take_waiting};
pub use filling::fill_late;
pub use session::DumpSummary;
