//! The top call: what the words of a command line ask is done, and how it ended is said.
//!
//! `run` finds the job of the words and has it done by the crate of its command: `dump_commands`, `archive_commands`, `load_command`, `query_commands`, `make_command`. What a
//! command does, in which order, is its plan, in the specs/ of its crate; specs/Run.antt says which words lead to which plan, and with which refusal words
//! end that are none. A call took a way that the plan allows, did what is said where that ended, and answers what is due. A command's file has the call,
//! which makes the ending, and its work, which gives what was done or a refusal. A further command adds its plan and its work in a crate of commands, and a
//! line of `job_plan` and of `run_job`. Called by the program and by its tests.
//!
//! The one idea of the proofs: what a job's plan says of the job is what the plan of the words says of the words that are that job (proofs/RunPlan.antt).
//!
//! Begin with `run_plan`, and then `run`.
#![tactic(auto)]

pub mod run;

pub use command_runs::report::{Ended, Report};
