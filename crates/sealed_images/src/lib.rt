//! Where an image of an archive is damaged, sealed or not, and what a seal makes: definitions and their laws.
//!
//! Stands for: an image of which no archive can be read is damaged at the first of the places at which it is read
//! (`IsImageDamagedAt` of specs/Damage.antt): file 0, then by seals each run and the fill file, then the log, and last,
//! at the gate of the last seal, the rows of all runs. `HereOrBehind` says one place: it is broken there, or it is read
//! and the damage stands behind it. What records of a journal may follow what is said for each kind of file
//! (`FollowsInZero`, `FollowsInFills`, `FollowsInLog`), and read one way for all (specs/Records.antt).
//!
//! What a seal makes of a log's entries stands in specs/Sealing.antt. No code opens or writes a sealed archive yet, and
//! no crate of the program stands on this one. To be changed together: `PartsMake` and `StandsSealed`
//! (archive_images), which say what an image that isn't damaged stands for.
#![tactic(auto)]

pub mod laws;
