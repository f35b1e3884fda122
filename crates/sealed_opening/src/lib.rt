//! Opening an archive by its seals: what file 0 says, and the files that its seals name.
//!
//! Stands for: an opening reads file 0 first (`read_manifest`): the entries of an archive, and seals behind them. Where
//! there are none, file 0 is the log, and that is all. Else the runs of each seal are read whole, page after page, and
//! what their rows come to is noted (`read_run`, `SealedSoFar`). Each refusal names the octet of the file at which
//! sealed_images says that the image is damaged. Nothing stands on this crate yet: archive_store reads no seals.
//!
//! The one idea of the proof: what a record leaves of what was read is a relation (`RecordRules::follows`), the loop
//! over records keeps that all so far follow one another, and a refusal is the first body that none may follow. The
//! same for pages: `AreRowsNoted` says what rows leave, and two noted one behind the other are noted together. To be
//! changed together: the rules of file 0 (`FollowsInZero` of sealed_images) and src/zero.rt.
#![tactic(auto)]

mod fills;
mod log_head;
mod manifest;
mod positions;
mod records;
mod runs;
mod seals;
mod so_far;
mod zero;

pub use manifest::{ReadManifest, read_manifest};
pub use records::{RecordRules, read_records};
pub use seals::read_seals;
pub use so_far::SealedSoFar;
