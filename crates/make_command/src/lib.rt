//! The command that makes an archive of made packets, and shows what it holds: `make`.
//!
//! Stands for: its plan (specs/Make.antt), the archive and the dumps that it begins with (specs/Made.antt), and what it
//! prints (specs/Summary.antt). Called by the top call.
//!
//! The way of the packets: dump_maker gives two dumps and the sheets of their database, archive_store makes the
//! archive, live_session loads the dumps by two links beside two fillers, load_session fills what is late still,
//! archive_verify compares what is stored with what the rows give, and src/summary.rt prints what there is. Of the disk
//! it leaves what a load leaves, behind a making (`MadeThen` in command_runs).
//!
//! The one idea of the proofs: behind the making all goes as in a load of an archive that was opened on the disk that
//! the making left (proofs/Created.antt), so the laws of load_command's sessions hold of it; `ran_behind_making` of
//! command_runs puts both in a row.
//!
//! Begin with `make_plan`, and then `make`.
#![tactic(auto)]

mod made_source;
pub mod make;
mod prepared;
mod summary;
