//! What any command did: how it ended, what it printed, what became of the disk, and what it reports.
//!
//! Stands for: `Progress` and `DiskOutcome` (what was done so far), the parts that the plans of commands are made of, and
//! `Ran`, `RanOver`: a call took a way that its plan allows, and did what is said where that ended (specs/Command.antt),
//! and what the disk handed back shows of a refusal (specs/Causes.antt). A disk was only read, made, extended or filled
//! (specs/ReadOnly.antt, Creation.antt, Extension.antt, Durable.antt, FillingPlan.antt), or made and then all that
//! (`MadeThen`). Called by the crates of commands. What runs here is small: the report and the exit status
//! (src/report.rt), the end of a text (src/finishing.rt), the refusal of a dump's rest (src/dump_rest.rt), the one attempt
//! to take a failed write back, behind all that a command writes (src/healing.rt), and the way from a disk to its archive
//! and back, by which a command is the plan and the work of an `ArchiveWork`, which has the store (src/archive_work.rt).
//!
//! A further outcome of a disk is a constructor of `DiskOutcome` and its case in `HasDiskOutcome`; a further field of a report changes specs/Report.antt and
//! src/report.rt together.
//!
//! The one idea of the proofs: an archive that was opened, with its fills, is the one that the disk stands for. Where each question of a plan has one answer,
//! a way that the plan allows is the one that it has to go, so the answer is the one that is due (`is_due` in proofs/Commands.antt).
//!
//! Begin with `RanOver` in specs/Command.antt.
#![tactic(auto)]

pub mod archive_work;
pub mod dump_rest;
pub mod finishing;
pub mod healing;
pub mod report;
