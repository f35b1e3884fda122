//! What a store keeps of its two journals, of its runs and of the images that a crash may leave: words and laws alone.
//!
//! Stands for: before the first seal there is one journal, the log in file 0; from then on file 0 is the manifest and the
//! log another file (`JournalsInvariant` of specs/Journals.antt). While the manifest is healed the log keeps what it
//! kept alone; where the append of a seal failed, each image stands for the archive with the seal and without it
//! (`SealingInvariant`). What the manifest says is kept for the next seal (`ManifestInvariant`), and how runs and log
//! make the history in specs/Runs.antt.
//!
//! Nothing here runs, and no crate of the program stands on it yet. To be changed together: `LogInvariant`
//! (archive_images).
#![tactic(auto)]

pub mod laws;
