//! File 0: the entries of an archive, and the seals behind them.

ghost use Rattle.std.specs.Prelude.{◌≡◌, [], IsTrue, IfOk, IfErr, OnOk};
ghost use Rattle.arch_disk.specs.Disk.{NoFault, OnlyReads};
ghost use Rattle.disk_journal.specs.Calls.{BeginsOpen, StandsAtGate, content_read, read_so_far};
ghost use Rattle.disk_journal.specs.Reading.{file_read};
ghost use Rattle.sealed_opening.specs.Manifest.{IsDamagedZero, IsManifestKept, IsManifestRead};
ghost use Rattle.sealed_opening.specs.ReadRefusals.{IsReadRefusal};

use crate::records::read_records;
use crate::zero::ZeroRecords;
use arch_disk::Disk;
use archive_reading::PartialArchive;
use disk_journal::{Journal, Opening};
use refusals::Refusal;
use seal_codec::Seal;
use std::alloc::Global;

/// File 0 that was read.
#[derive(Drop)]
pub struct ReadManifest {
    /// All of its records.
    pub journal: Journal,
    /// What its own entries make.
    pub made: PartialArchive,
    /// The seals behind them: none where file 0 is the log.
    pub seals: Vec<Seal>,
}

/// Reads the records of file 0 to the closed gate that ends them: the entries of an archive, and seals behind them.
pub fn read_manifest<D: Disk>(
    alloc: Global,
    disk: &mut D,
    opening: Opening,
) -> Result<ReadManifest, Refusal>
    requires begun { IsTrue D.device.is_transparent → BeginsOpen (content_read D.device opening disk.old) }
    requires at_gate { StandsAtGate D.device opening disk.old }

    // No record was read yet, and the file is file 0.
    requires first { IsTrue D.device.is_transparent → read_so_far D.device opening disk.old ≡ [] }
    requires zero { file_read opening ≡ 0 }

    // Ok: the records of file 0 are entries that make the archive, and behind them the seals.
    ensures read { IfOk result (λ manifest. IsTrue D.device.is_transparent →
        IsManifestRead (D.device.reads disk.old 0) manifest) }
    ensures kept { IfOk result IsManifestKept }

    // Refused: file 0 is damaged at that gate, a read failed, or memory is wanting.
    ensures refused { IfErr result (IsReadRefusal (IsDamagedZero (D.device.reads disk.old)) D.device disk.old disk.new) }
    ensures looked { OnlyReads D.device disk.old disk.new }
    ensures no_fault { OnOk result (NoFault D.device disk.old disk.new) }
{
    let none = ZeroRecords {
        made: None,
        seals: Vec::new(alloc),
    };
    let (journal, said) = read_records(alloc, disk, opening, none)?;
    let ZeroRecords { made, seals } = said;
    match made {
        Some(made) => Ok(ReadManifest {
            journal,
            made,
            seals,
        }),
        None => Err(Refusal::Damaged { file: 0, at: 0 }),
    }
}
