//! Which refusal a fault of the journal is.

ghost use Rattle.std.specs.Prelude.{◌≡◌};
ghost use Rattle.archive_reading.specs.PartialArchive.{read_refusal};

use disk_journal::JournalFault;
use refusals::Refusal;

/// The refusal for a fault of the journal that is read in a file.
pub fn refusal_of(file: u32, fault: JournalFault) -> Refusal
    ensures { result ≡ read_refusal file fault }
{
    match fault {
        JournalFault::Damaged { at } => Refusal::Damaged { file, at },
        JournalFault::OutOfMemory => Refusal::OutOfMemory,
        JournalFault::NoArchive => Refusal::NoArchive,
        JournalFault::Exists
        | JournalFault::NeedsReopen { .. }
        | JournalFault::Limit
        | JournalFault::DiskFault { .. } => Refusal::DiskFault,
    }
}
