// One record more, and what is done when that fails.
ghost use Rattle.std.specs.Prelude.{◌≡◌, [], ◌∷◌, None, IsTrue, OnOk, IfOk, IfErr};
ghost use Rattle.arch_disk.specs.Disk.{LeavesOthers};
ghost use Rattle.disk_journal.specs.Calls.{CountsNeverFall, CrashLeavesRecords, IsAppended, IsAppendRefusal, IsHealed, IsHealRefusal, unhealed_records_of};
ghost use Rattle.disk_journal.specs.Faults.{TellsFaults};
ghost use Rattle.disk_journal.specs.State.{IsOnDisk, HasRoom, file_of, unhealed_fault};

use crate::journal::{Extent, Journal, PendingFault};
use crate::steps::{flush, put};
use crate::{Frame, JournalFault};
use arch_disk::Disk;

pub(crate) const MAX_RECORDS: usize = 4_294_967_295;

impl Journal {
    /// Adds a record, and answers its place. Four device calls: body and next closed gate, sync, gate, sync.
    pub fn append<D: Disk>(&mut self, disk: &mut D, frame: &Frame) -> Result<u64, JournalFault>
        requires room { HasRoom self.old }
        requires sound { IsTrue D.device.is_transparent → IsOnDisk D.device self.old disk.old }

        // Ok: the record is the last one, and durable.
        ensures appended { IfOk result (IsAppended D.device self.old self.new disk.old disk.new frame.now) }

        // Refused, all is as it was; but where a write failed the new record may follow those from before until a heal.
        ensures refused { IfErr result (IsAppendRefusal D.device self.old self.new disk.old disk.new frame.now) }

        // Power lost at any moment of the call leaves the records from before it, or these and the new one,
        ensures crash { unhealed_fault self.old ≡ None →
            CrashLeavesRecords D.device self.old disk.old disk.new (frame.now ∷ []) }

        // and all other files as they were.
        ensures others { LeavesOthers D.device (file_of self.old) disk.old disk.new }
        ensures sound { IsTrue D.device.is_transparent → IsOnDisk D.device self.new disk.new }
        ensures counts { CountsNeverFall D.device disk.old disk.new }

        // A failed call of the disk is never passed over.
        ensures told { TellsFaults D.device disk.old disk.new result }
        ensures file { file_of self.new ≡ file_of self.old }
    {
        match self.pending_fault {
            PendingFault::Absent => {}
            PendingFault::GateClosed(faults) => return Err(JournalFault::NeedsReopen { faults }),
            PendingFault::GateWritten(faults) => return Err(JournalFault::NeedsReopen { faults }),
        }
        let place = self.extents.len();
        if place >= MAX_RECORDS {
            return Err(JournalFault::Limit);
        }
        let octets = frame.octets();
        let size = frame.len();
        let behind = self.end.saturating_add(1);
        if let Err(fault) = put(disk, self.file, behind, octets) {
            self.pending_fault = PendingFault::GateClosed(disk.faults());
            return Err(fault);
        }
        if let Err(fault) = put(disk, self.file, self.end, &[1]) {
            self.pending_fault = PendingFault::GateWritten(disk.faults());
            return Err(fault);
        }
        self.extents.push_reserved(Extent {
            at: self.end.saturating_add(5),
            len: size,
        });
        self.end = self.end.saturating_add(octets.len() as u64);
        Ok(place as u64)
    }

    /// Makes the records stand as before the append that failed. Where nothing failed it makes no device call, where the
    /// gate was never written a sync, else a write of the closed gate and a sync.
    pub fn heal<D: Disk>(&mut self, disk: &mut D) -> Result<(), JournalFault>
        requires sound { IsTrue D.device.is_transparent → IsOnDisk D.device self.old disk.old }

        // Ok: no failure is pending, and the records stand alone.
        ensures healed { OnOk result (IsHealed D.device self.old self.new disk.old disk.new) }

        // Refused, for a write that failed alone, the journal is as before, and so is what may follow its records.
        ensures refused { IfErr result (IsHealRefusal D.device self.old self.new disk.old disk.new) }

        // Power lost at any moment of the call leaves the records, or these and the one whose append failed,
        ensures crash { CrashLeavesRecords D.device self.old disk.old disk.new
            (unhealed_records_of D.device self.old disk.old) }

        // and all other files as they were.
        ensures others { LeavesOthers D.device (file_of self.old) disk.old disk.new }
        ensures sound { IsTrue D.device.is_transparent → IsOnDisk D.device self.new disk.new }
        ensures counts { CountsNeverFall D.device disk.old disk.new }

        // A failed call of the disk is never passed over.
        ensures told { TellsFaults D.device disk.old disk.new result }
        ensures file { file_of self.new ≡ file_of self.old }
    {
        match self.pending_fault {
            PendingFault::Absent => Ok(()),
            PendingFault::GateClosed(_) => match flush(disk, self.file) {
                Ok(()) => {
                    self.pending_fault = PendingFault::Absent;
                    Ok(())
                }
                Err(fault) => Err(fault),
            },
            PendingFault::GateWritten(_) => match put(disk, self.file, self.end, &[0]) {
                Ok(()) => {
                    self.pending_fault = PendingFault::Absent;
                    Ok(())
                }
                Err(fault) => Err(fault),
            },
        }
    }
}
