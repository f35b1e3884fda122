// A journal: records in one file of a disk, each whole or not there, whenever the power goes.
//
// A record is a gate octet, its body's length as a big-endian u32, and the body. It counts once its gate is 1. An append
// writes the body and the next closed gate behind the closed gate and syncs, and only then opens the gate by a write of
// its own and syncs: so a crash at any moment leaves the records from before, or these and the new one. docs/FORMATS.md
// draws the octets and walks through a crash after each call.
//
// Called by the archive's store. `Frame` is a record ready to be written, `Journal` the
// records that a file has, `Opening` a reading record by record for a caller whose own rules a body may break, and
// `JournalWriter` writes a journal whole into a file that nothing names yet, by one sync for all of its records.
//
// The one idea of the proof: `HasOnDisk` (specs/State.antt) ties a journal in memory to every image that a crash may leave, by
// the failures since the last heal: gate closed, or written and the record whole behind it. To touch together: the format
// (specs/Format.antt), `StateIs`, and the order of the calls in src/append.rt. That a file's octets mean one list of records
// is `laws::records_are_one`.
//
// A caller makes room for a record first, and takes a failed one back:
//
//     /// A journal of two records in file 0.
//     fn two_records<D: Disk>(alloc: Global, disk: &mut D) -> Result<Journal, JournalFault> {
//         let mut journal = Journal::create(alloc, disk, 0, &Frame::of(alloc, b"first")?)?;
//         journal.reserve()?;
//         if let Err(fault) = journal.append(disk, &Frame::of(alloc, b"second")?) {
//             journal.heal(disk)?;
//             return Err(fault);
//         }
//         Ok(journal)
//     }
#![tactic(auto)]

mod append;
mod fault;
mod frame;
mod journal;
pub mod laws;
mod opening;
mod piece_reader;
mod steps;
mod writer;

pub use fault::JournalFault;
pub use frame::Frame;
pub use journal::{Extent, Journal, PendingFault};
pub use opening::Opening;
pub use writer::JournalWriter;
