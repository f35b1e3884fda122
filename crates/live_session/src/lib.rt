//! A session of many jobs over one archive: links that send dumps, readers that answer asks, and fillers.
//!
//! Stands for: the outcome of a load's jobs (`IsJobsOutcome` in specs/Outcome.antt): the rows that came are the links'
//! (`LinkLoads`), each answer is over a history from the first to the last one, and what is reported is the
//! refusal of the first job that was refused. Beneath it, the outcome of each job by its pass (`IsOutcomeOf`), and of
//! the archive (`IsSessionOver` in specs/Session.antt): each item that came stands at a place of a job's pass, and what
//! each job saw begins what there is at the end. Called by load_command.
//!
//! The idea of the proofs: all passes are split off one, which has the whole share again once they are joined to it,
//! so that the archive may be closed. All memory is taken before the first job.
//!
//! Begin with `load` and `JobsOutcome`.
#![tactic(auto)]

mod interleaving;
mod job;
mod loading;
mod order;
mod ordering;
mod reported;
mod results;
mod running;
mod session;

pub use loading::{LoadJob, Loaded, load};
pub use reported::{DumpCounts, ReportedRefusal};
