// A journal that is written whole, into a file that nothing names yet.
ghost use Rattle.std.specs.Prelude.{◌≡◌, IsTrue, IfErr, IfOk};
ghost use Rattle.arch_disk.specs.Disk.{LeavesOthers};
ghost use Rattle.disk_journal.specs.Faults.{TellsFaults};

use crate::append::MAX_RECORDS;
use crate::journal::{Extent, Journal, PendingFault};
use crate::steps::{empty, flush, put, put_more};
use crate::{Frame, JournalFault};
use arch_disk::Disk;
use std::alloc::Global;

/// A journal that is being written into a file that nothing names yet: what a crash or a fault leaves of it counts for
/// nothing, so its records need one sync in all. Whoever is refused has no writer left, and gives the file up.
#[derive(Drop)]
pub struct JournalWriter {
    file: u32,
    extents: Vec<Extent>,
    /// The open gate behind the records.
    end: u64,
}

impl JournalWriter {
    ghost use Rattle.disk_journal.specs.State.{IsOnDisk};
    ghost use Rattle.disk_journal.specs.Writing.{IsAddRefusal, IsJournalWritten, IsRecordWritten, IsWriteRefusal, IsWriting, IsWritingBegun, file_written};

    /// Empties a file, and begins a journal in it. Three device calls: a cut, a sync, and the write of a gate.
    pub fn begin<D: Disk>(
        alloc: Global,
        disk: &mut D,
        file: u32,
    ) -> Result<JournalWriter, JournalFault>
        // Ok: no record is written yet.
        ensures begun { IfOk result (IsWritingBegun D.device file disk.old disk.new) }
        ensures writing { IfOk result (λ writer. IsWriting D.device writer disk.new) }

        // Refused: one of the three calls failed.
        ensures refused { IfErr result (IsWriteRefusal D.device disk.old disk.new) }

        // Whatever it answers, and at any moment of it, all other files are as they were.
        ensures others { LeavesOthers D.device file disk.old disk.new }

        // A failed call of the disk is never passed over.
        ensures told { TellsFaults D.device disk.old disk.new result }
    {
        empty(disk, file)?;
        flush(disk, file)?;
        put_more(disk, file, 0, &[1])?;
        Ok(JournalWriter {
            file,
            extents: Vec::new(alloc),
            end: 0,
        })
    }

    /// Writes a record behind the others, by one device call. It is durable once the journal is finished.
    pub fn add<D: Disk>(self, disk: &mut D, frame: Frame) -> Result<JournalWriter, JournalFault>
        requires writing { IsWriting D.device self disk.old }

        // Ok: the record is the last one.
        ensures added { IfOk result (λ writer. IsRecordWritten D.device self writer disk.old disk.new frame) }
        ensures writing { IfOk result (λ writer. IsWriting D.device writer disk.new) }

        // Refused: no call is made, or the write failed.
        ensures refused { IfErr result (IsAddRefusal D.device self disk.old disk.new) }

        // Whatever it answers, and at any moment of it, all other files are as they were.
        ensures others { LeavesOthers D.device (file_written self) disk.old disk.new }

        // A failed call of the disk is never passed over.
        ensures told { TellsFaults D.device disk.old disk.new result }
    {
        let JournalWriter { file, extents, end } = self;
        let place = extents.len();
        if place >= MAX_RECORDS {
            return Err(JournalFault::Limit);
        }
        let mut extents = extents;
        let at = end.saturating_add(5);
        let size = frame.len();
        extents.push(Extent { at, len: size })?;
        let octets = frame.before_another();
        let behind = end.saturating_add(1);
        put_more(disk, file, behind, &octets)?;
        let next = end.saturating_add(octets.len() as u64);
        Ok(JournalWriter {
            file,
            extents,
            end: next,
        })
    }

    /// Closes the gate behind the records, and makes all durable. Two device calls: a write and a sync.
    pub fn finish<D: Disk>(self, disk: &mut D) -> Result<Journal, JournalFault>
        requires writing { IsWriting D.device self disk.old }

        // Ok: the file holds a journal of just the records that were written, durably.
        ensures finished { IfOk result (IsJournalWritten D.device self disk.old disk.new) }
        ensures sound { IsTrue D.device.is_transparent → IfOk result (λ journal. IsOnDisk D.device journal disk.new) }

        // Refused: the write or the sync failed.
        ensures refused { IfErr result (IsWriteRefusal D.device disk.old disk.new) }

        // Whatever it answers, and at any moment of it, all other files are as they were.
        ensures others { LeavesOthers D.device (file_written self) disk.old disk.new }

        // A failed call of the disk is never passed over.
        ensures told { TellsFaults D.device disk.old disk.new result }
    {
        let JournalWriter { file, extents, end } = self;
        put(disk, file, end, &[0])?;
        Ok(Journal {
            file,
            extents,
            end,
            pending_fault: PendingFault::Absent,
        })
    }
}
