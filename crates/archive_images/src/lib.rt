//! What an image of the disk stands for, and where it is damaged: definitions and their laws, and the head of an
//! archive.
//!
//! Stands for: an archive with its fills is what the entries of a log make, one after the other (`Applies`, `Replays`
//! of specs/Entries.antt). An image stands for it (`StandsFilled`), or is damaged at a gate (`IsArchiveDamagedAt`,
//! specs/Stands.antt), and never both (`laws`). What is left where power is lost is said over any archives and
//! entries, and over whatever stands below a log (specs/Images.antt), with what an unacknowledged write may have
//! added (specs/Unacknowledged.antt).
//!
//! What stands below a log (`IsBelow` of specs/Below.antt) is nothing where file 0 is the log, else what the seals of
//! file 0 name: a run for each table that had rows, a fill file, and the log that goes on from there
//! (specs/SealFiles.antt); the rows of all runs, in the order of their positions, are the sealed rows of the history.
//! No code opens or writes it yet. Called by archive_reading, and by archive_store, which hands these words on under
//! its name.
//!
//! The one idea of the proof: all that depends on the image is which files hold what, and each of them is read once
//! (a journal has one list of records, each with one spelling, a run one list of rows); the rest is over lists. To be
//! changed together: `Applies` and what reads records (archive_reading, src/entries.rt).
#![tactic(auto)]

mod head;
pub mod laws;

pub use head::Head;
