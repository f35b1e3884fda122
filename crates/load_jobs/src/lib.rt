//! The links of a load, each with a pass of one live archive.
//!
//! Stands for: what came of a link, said of its own dump and of its own pass alone (`IsLinkRun`), so that it holds
//! whatever the others did. A link (`Link`) reads its dump in pieces, sends its packets in batches of 64, each in a
//! turn, and wakes a filler after each that was acknowledged, by a send that never waits. Of what it has read it takes
//! up to 32 batches ahead, and sends these in turns one behind the other. Where it stops reading it sends what is in
//! hand, so that the packets before a failed read, a bad packet or the limit are ingested. For sessions of several jobs.
//!
//! The idea of the proofs: what was read is the packets that were sent, those taken ahead, those in hand, and what waits
//! (`IsUnderway`), so that it is a dump of its own (`IsDumpSent`). The batch whose turn comes is as if it were in hand,
//! and those behind it as if they had not been taken (`as_if` of proofs/Underway.antt). What the turns put goes on batch
//! by batch by the laws of shared_history (proofs/SentSoFar.antt). What follows where one link alone put rows is in
//! proofs/OneLink.antt.
//!
//! Begin with `IsLinkRun` and `run_link`, and then `IsDumpSent` and `IsUnderway`.
#![tactic(auto)]

mod ending;
pub mod laws;
mod link;
mod reading;
mod sending;

pub use ending::LinkEnd;
pub use link::{Link, LinkDone, run_link};
pub use sending::Reception;
