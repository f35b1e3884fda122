//! The head with which a fill file and a log begin.

ghost use Rattle.std.specs.Prelude.{◌≡◌, ◌↔◌, IsTrue, IfErr, IfOk, OnOk};
ghost use Rattle.arch_disk.specs.Disk.{NoFault, OnlyReads};
ghost use Rattle.archive_images.specs.SealFiles.{log_head_record};
ghost use Rattle.sealed_opening.specs.LogHead.{HasNoHead, IsBehindHead, start_refusal};
ghost use Rattle.sealed_opening.specs.ReadRefusals.{IsReadRefusal};

use arch_disk::Disk;
use arch_types::octets::Octets;
use archive_reading::refusal_of;
use disk_journal::{JournalFault, Opening};
use field_codec::{Entry, NotAnEntry, read_shared};
use refusals::Refusal;
use std::alloc::{AllocError, Global};

/// Whether the octets spell the head of a log over so many rows. The one error is want of memory.
fn is_log_head(alloc: Global, body: &Octets, rows: u64) -> Result<bool, AllocError>
    ensures { IfOk result (λ is. IsTrue is ↔ (body.now ≡ log_head_record rows)) }
{
    let entry = match read_shared(alloc, body) {
        Ok(entry) => entry,
        Err(NotAnEntry::Malformed) => return Ok(false),
        Err(NotAnEntry::OutOfMemory) => return Err(AllocError),
    };
    let Entry::LogHead { rows: said } = entry else {
        return Ok(false);
    };
    Ok(said == rows)
}

/// The refusal for a journal that isn't begun: one that isn't there has no head.
fn refusal_of_start(file: u32, fault: JournalFault) -> Refusal
    ensures { result ≡ start_refusal file fault }
{
    match fault {
        JournalFault::NoArchive => Refusal::Damaged { file, at: 0 },
        _ => refusal_of(file, fault),
    }
}

/// Begins to read a journal behind its head, which is over so many rows. The file is known to be durable.
pub(crate) fn begin_behind_head<D: Disk>(
    alloc: Global,
    disk: &mut D,
    file: u32,
    rows: u64,
) -> Result<Opening, Refusal>
    // Ok: the head is the one record that was read.
    ensures begun { IfOk result (IsBehindHead D.device disk.old disk.new file rows) }

    // Refused: at octet 0 where the file doesn't begin with that head; a read failed; or memory is wanting.
    ensures refused { IfErr result (IsReadRefusal (HasNoHead (D.device.reads disk.old) file rows) D.device disk.old disk.new) }
    ensures looked { OnlyReads D.device disk.old disk.new }
    ensures no_fault { OnOk result (NoFault D.device disk.old disk.new) }
{
    let mut opening = match Opening::begin_synced(alloc, disk, file) {
        Ok(opening) => opening,
        Err(fault) => return Err(refusal_of_start(file, fault)),
    };
    let body = match opening.next(alloc, disk) {
        Ok(Some(body)) => body,
        Ok(None) => return Err(Refusal::Damaged { file, at: 0 }),
        Err(fault) => return Err(refusal_of(file, fault)),
    };
    let is_head = is_log_head(alloc, &body, rows)?;
    if is_head {
        Ok(opening)
    } else {
        Err(Refusal::Damaged { file, at: 0 })
    }
}
