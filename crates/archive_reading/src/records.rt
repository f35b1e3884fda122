//! Reading an archive, record by record.

ghost use Rattle.std.specs.Prelude.{◌≡◌, [], None, Some, IsTrue, OnErr, OnOk, IfOk, IfErr, Err};
ghost use Rattle.arch_disk.specs.Disk.{NoFault, OnlyReads};
ghost use Rattle.disk_journal.specs.Calls.{BeginsOpen, StandsAtGate, content_read, read_so_far};
ghost use Rattle.disk_journal.specs.Reading.{IsReadJournal, file_read};
ghost use Rattle.refusals.specs.declared.refusal.Refusal.TheVariants.{Damaged};
ghost use Rattle.archive_reading.specs.PartialArchive.{IsBase, IsArchiveRead, IsArchiveReadRefusal};

use crate::entries::take_in;
use crate::fault::refusal_of;
use crate::partial::PartialArchive;
use arch_disk::Disk;
use disk_journal::{Journal, Opening};
use refusals::Refusal;
use std::alloc::Global;

/// An archive that was read, and its journal.
#[derive(Drop)]
pub struct ReadArchive {
    pub journal: Journal,
    pub made: PartialArchive,
}

/// What was read.
fn finished(opening: Opening, made: Option<PartialArchive>) -> Result<ReadArchive, Refusal>
    ensures ok { IfOk result (λ f. (Some f.made ≡ made) × IsReadJournal opening f.journal) }
    ensures none { OnErr result ((made ≡ None) × (result ≡ Err (Damaged (file_read opening) 0))) }
{
    match made {
        Some(made) => Ok(ReadArchive {
            journal: opening.finish(),
            made,
        }),
        None => Err(Refusal::Damaged {
            file: opening.file(),
            at: 0,
        }),
    }
}

/// Reads the records of a file behind those that its opening has read, to the closed gate that ends them: entries that
/// go on from a base.
pub fn read_archive<D: Disk>(
    alloc: Global,
    disk: &mut D,
    opening: Opening,
    base: Option<PartialArchive>,
) -> Result<ReadArchive, Refusal>
    requires begun { IsTrue D.device.is_transparent → BeginsOpen (content_read D.device opening disk.old) }
    requires at_gate { StandsAtGate D.device opening disk.old }
    requires base { IsBase base }

    // Without a base they begin the file.
    requires first { IsTrue D.device.is_transparent → base ≡ None → read_so_far D.device opening disk.old ≡ [] }

    // Ok: the journal has all records of the file, and each is an entry that may follow those before it.
    ensures read { IfOk result (IsArchiveRead D.device disk.old opening base) }

    // Refused: at the first record that passes the file's end or breaks a rule, for a read that failed, or want of
    // memory.
    ensures refused { IfErr result (IsArchiveReadRefusal D.device disk.old disk.new opening base) }
    ensures looked { OnlyReads D.device disk.old disk.new }
    ensures no_fault { OnOk result (NoFault D.device disk.old disk.new) }
{
    let file = opening.file();
    let mut opening = opening;
    let mut made = base;
    'entries: loop {
        let at = opening.place();
        let body = match opening.next(alloc, disk) {
            Ok(Some(body)) => body,
            Ok(None) => return finished(opening, made),
            Err(fault) => return Err(refusal_of(file, fault)),
        };
        match take_in(alloc, &mut made, &body) {
            Ok(true) => {}
            Ok(false) => return Err(Refusal::Damaged { file, at }),
            Err(_) => return Err(Refusal::OutOfMemory),
        }
    }
}
