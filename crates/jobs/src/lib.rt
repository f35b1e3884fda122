//! Jobs that are run beside each other, each on a thread of its own where one can be made.
//!
//! Stands for: what came of each job, in the jobs' order (`Ends`), where a job says of itself when it may be run and
//! what comes of it (`Job`). A job takes what it needs along and hands it back in what comes of it. To be used
//! by sessions of several callers.
//!
//! The last job is taken to a thread first, so where no thread can be made the caller runs them in their order. That
//! they run beside each other is claimed by no clause: tests show it.
#![tactic(auto)]

mod job;
mod running;

pub use job::Job;
pub use running::run_all;
