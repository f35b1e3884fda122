//! The command that takes dumps in: `load`.
//!
//! Stands for: its plan (specs/Load.antt), what is reported of a load (specs/Loading.antt), and the line that it prints
//! (specs/LoadLine.antt). Called by the top call.
//!
//! The way of a dump: live_session sends its packets to the archive by the route of a script, beside other dumps,
//! fillers, and readers that answer the asks of a sheet; load_session fills what is late still behind them, ask_answers
//! prints the answers that the readers kept, and the line is printed last. What it leaves of the disk stands in
//! `command_runs` (specs/Extension.antt there). src/load.rt reads and opens what the words name, src/opened.rt opens
//! the archive and looks whether all is ready, and src/running.rt runs the jobs, the one part that may wait. A step
//! more is a node of the plan, its place in one of these, and its case in proofs/LoadPlan.antt and proofs/JobRuns.antt.
//! What holds of the jobs whatever is printed behind them stands in proofs/SessionRuns.antt, and serves `make`, too, as
//! src/reports.rt does.
//!
//! The one idea of the proofs: the plan chooses what the jobs came to as a whole (`IsJobsOutcome`), so one way stands
//! for it, whatever turns they took.
//!
//! Begin with `load_plan`, and then `load_archive`.
#![tactic(auto)]

pub mod load;
mod opened;
pub mod reports;
mod running;
