//! Reading an archive: what the records of a file make, one after the other.
//!
//! Stands for: `read_archive` reads the records of a file behind those that its opening has read. Each is an entry
//! that may follow those before it (`Applies` of archive_images); what they make is a `PartialArchive`: head,
//! history, marks and fills. At the first record that passes the file's end or breaks a rule it is refused, with the
//! place (`IsFileDamagedAt`). Called by archive_store.
//!
//! The one idea of the proof: the loop keeps which entries the records so far are and what they make of the base
//! (`Replays`), and each taken entry is one step more. To be changed together: `Applies` of archive_images, and
//! src/entries.rt.
#![tactic(auto)]

mod entries;
mod fault;
mod fills;
mod partial;
mod records;
mod rows;

pub use entries::take_in;
pub use fault::refusal_of;
pub use fills::read_set;
pub use partial::PartialArchive;
pub use records::{ReadArchive, read_archive};
