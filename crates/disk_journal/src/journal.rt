// The records of one file.
ghost use Rattle.std.specs.Prelude.{◌≡◌, ◌≢◌, ◌+◌, ◌<◌, ◌≤◌, ◌⊎◌, ◌++◌, [], ◌∷◌, List, ℕ, None, IsTrue, false, true, length, get_or, OnOk, OnErr, IfOk, IfErr, IfSome, slice_get};
ghost use Rattle.arch_disk.specs.Image.{Image};
ghost use Rattle.arch_disk.specs.Disk.{HasCause, IsDurable, IsUntouched, LeavesOnly, LeavesOthers, NoWriteFailed, OnlyReads, raised};
ghost use Rattle.disk_journal.specs.Format.{HasRecords, IsDamagedAt, HoldsNone, IsBeforeOrAfter};
ghost use Rattle.disk_journal.specs.Calls.{BeginsOpen, IsPrepareRefusal};
ghost use Rattle.disk_journal.specs.Faults.{TellsFaults};
ghost use Rattle.disk_journal.specs.declared.fault.JournalFault.TheVariants.{DiskFault};

use crate::steps::{flush, len_of, octet_at, octets_at, put};
use crate::{Frame, JournalFault, Opening};
use arch_disk::Disk;
use std::alloc::{AllocError, Global};

/// Where the body of a record stands: its first octet in the file, and its length.
#[derive(Clone, Copy, Debug, PartialEq, Eq)]
pub struct Extent {
    pub at: u64,
    pub len: u32,
}

/// A failure of a write or a sync that is not healed, with the disk's count of faults as it stood at it.
#[derive(Clone, Copy, Debug, PartialEq, Eq)]
pub enum PendingFault {
    Absent,
    /// The gate behind the records was not written.
    GateClosed(u64),
    /// The gate may have been written; the record behind it stands whole.
    GateWritten(u64),
}

/// The records of a file of a disk, and where the next one goes.
#[derive(Drop)]
pub struct Journal {
    pub(crate) file: u32,
    pub(crate) extents: Vec<Extent>,
    /// The closed gate behind the records.
    pub(crate) end: u64,
    pub(crate) pending_fault: PendingFault,
}

// The length of a file that begins with an open gate, and has an octet behind it.
pub(crate) fn begins_open<D: Disk>(disk: &mut D, file: u32) -> Result<Option<u64>, JournalFault>
    ensures none { IsTrue D.device.is_transparent → IfOk result (λ len. len ≡ None →
        HoldsNone (D.device.reads disk.old file)) }
    ensures some { IsTrue D.device.is_transparent →
        IfOk result (λ len. IfSome len (λ n. (n ≡ length (D.device.reads disk.old file)) × (2 ≤ n) ×
        (get_or (D.device.reads disk.old file) 0 0 ≡ 1))) }
    ensures two { IfOk result (λ len. IfSome len (λ n. 2 ≤ n)) }
    ensures looked { OnlyReads D.device disk.old disk.new }
    ensures cause { HasCause D.device disk.old disk.new result }
    ensures only { IfErr result (λ e. e ≡ DiskFault false) }
{
    let len = len_of(disk, file)?;
    if len < 2 {
        return Ok(None);
    }
    if octet_at(disk, file, 0)? == 1 {
        Ok(Some(len))
    } else {
        Ok(None)
    }
}

// Makes a file that holds no archive begin with a closed gate.
fn prepare<D: Disk>(disk: &mut D, file: u32) -> Result<(), JournalFault>
    ensures ready { IsTrue D.device.is_transparent → OnOk result (HasRecords (D.device.reads disk.new file) [] ×
        IsDurable D.device file (D.device.reads disk.new file) disk.new) }
    ensures none { IsTrue D.device.is_transparent → OnOk result (HoldsNone (D.device.reads disk.old file)) }
    ensures exists { IsTrue D.device.is_transparent → result ≡ Err JournalFault.Exists →
        BeginsOpen (D.device.reads disk.old file) × (D.device.reads disk.new ≡ D.device.reads disk.old) }
    ensures moments { IsTrue D.device.is_transparent → HoldsNone (D.device.reads disk.old file) →
        LeavesOnly D.device disk.old disk.new (λ c. D.device.images disk.old c ⊎ HoldsNone (c file)) }
    ensures others { LeavesOthers D.device file disk.old disk.new }
    ensures refused { IfErr result (IsPrepareRefusal D.device disk.old disk.new) }
    ensures kept { IsTrue D.device.is_transparent → BeginsOpen (D.device.reads disk.old file) →
        IsUntouched D.device disk.old disk.new }
    ensures later { D.device.fault_count disk.old ≤ D.device.fault_count disk.new }
    ensures no_failed_write { OnOk result (NoWriteFailed D.device disk.old disk.new) }
    ensures told { TellsFaults D.device disk.old disk.new result }
{
    flush(disk, file)?;
    let len = len_of(disk, file)?;
    if len < 2 {
        put(disk, file, 0, &[0])?;
        return Ok(());
    }
    if octet_at(disk, file, 0)? == 1 {
        return Err(JournalFault::Exists);
    }
    Ok(())
}

impl Journal {
    ghost use Rattle.disk_journal.specs.State.{HasOnDisk, IsOnDisk, HasRoom, count_of, file_of, unhealed_fault, IsSame};
    ghost use Rattle.disk_journal.specs.Calls.{CountsNeverFall, CrashLeavesFirst, IsDecidedByFile, IsJournalCreated, IsJournalCreateRefusal, IsJournalOpened, IsJournalOpenRefusal, IsRecordRefusal, records_of};

    /// Makes a journal with one record in a file that holds none. It begins with a sync. Where the record can't be
    /// written it closes the gate again, as far as the disk lets it (D-57).
    pub fn create<D: Disk>(
        alloc: Global,
        disk: &mut D,
        file: u32,
        first: &Frame,
    ) -> Result<Journal, JournalFault>
        // Ok: the file held no journal, and holds one of this one record, durably.
        ensures created { IfOk result (IsJournalCreated D.device file disk.old disk.new first.now) }

        // Exists comes exactly where the file begins with an open gate. After one fault alone the gate is closed again.
        ensures refused { IfErr result (IsJournalCreateRefusal D.device file disk.old disk.new) }

        // A file that holds a journal is left as it is, whatever the call answers.
        ensures kept { IsTrue D.device.is_transparent → BeginsOpen (D.device.reads disk.old file) →
            IsUntouched D.device disk.old disk.new }

        // Power lost at any moment of the call leaves no journal or one record, or what it could have left before,
        ensures crash { CrashLeavesFirst D.device file disk.old disk.new first.now }

        // and all other files as they were.
        ensures others { LeavesOthers D.device file disk.old disk.new }
        ensures sound { IsTrue D.device.is_transparent → IfOk result (λ journal. IsOnDisk D.device journal disk.new) }
        ensures counts { CountsNeverFall D.device disk.old disk.new }

        // A failed call of the disk is never passed over.
        ensures told { TellsFaults D.device disk.old disk.new result }
    {
        let _size = first.len();
        let mut journal = Journal {
            file,
            extents: Vec::new(alloc),
            end: 0,
            pending_fault: PendingFault::Absent,
        };
        journal.reserve()?;
        prepare(disk, file)?;
        journal.append_first(disk, first)?;
        Ok(journal)
    }

    // Adds the first record. An open gate that the system reads and the device lacks would have a later program build on
    // it, so a failed one is closed again.
    fn append_first<D: Disk>(&mut self, disk: &mut D, first: &Frame) -> Result<(), JournalFault>
        requires room { HasRoom self.old }
        requires no_pending_fault { (unhealed_fault self.old ≡ None) × (count_of self.old ≡ 0) }
        requires kept { IsTrue D.device.is_transparent → HasOnDisk D.device self.old [] [] disk.old }
        ensures ok { IsTrue D.device.is_transparent →
            OnOk result (HasOnDisk D.device self.new (first.now ∷ []) [] disk.new) }
        ensures no_pending_fault { OnOk result ((unhealed_fault self.new ≡ None) × (count_of self.new ≡ 1)) }
        ensures file { file_of self.new ≡ file_of self.old }
        ensures any_moment { IsTrue D.device.is_transparent → LeavesOnly D.device disk.old disk.new (λ c.
            IsBeforeOrAfter [] first.now (c (file_of self.old))) }
        ensures closed { IsTrue D.device.is_transparent →
            OnErr result (D.device.fault_count disk.new < raised (raised (D.device.fault_count disk.old))
            → (c : Image) → D.device.images disk.new c → HoldsNone (c (file_of self.old))) }
        ensures others { LeavesOthers D.device (file_of self.old) disk.old disk.new }
        ensures cause { HasCause D.device disk.old disk.new result }
        ensures only { IfErr result (λ e. e ≡ DiskFault true) }
        ensures no_failed_write { OnOk result (NoWriteFailed D.device disk.old disk.new) }
        ensures counted { OnErr result ((raised (D.device.failed_writes disk.old) ≤ D.device.failed_writes disk.new)
            × (D.device.failed_writes disk.new ≤ raised (raised (D.device.failed_writes disk.old)))) }
    {
        match self.append(disk, first) {
            Ok(_) => Ok(()),
            Err(fault) => {
                // That it fails too shows in the disk's count of faults.
                let _ = self.heal(disk);
                Err(fault)
            }
        }
    }

    /// Opens the journal in a file. It begins with a sync, and reads the file in pieces of 256 KiB; a body that passes the
    /// end of a piece is passed over.
    pub fn open<D: Disk>(alloc: Global, disk: &mut D, file: u32) -> Result<Journal, JournalFault>
        // Ok: the journal has just the records of the file.
        ensures opened { IfOk result (IsJournalOpened D.device file disk.old disk.new) }

        // Refused: the file doesn't begin with an open gate, or an open record, with the gate octet after it, passes the
        // file's end, at the gate that is named; or the disk failed, or memory is wanting.
        ensures refused { IfErr result (IsJournalOpenRefusal D.device file disk.old disk.new) }

        // What the file holds decides which of these it is, but for a fault of the disk and want of memory.
        ensures decided { IsTrue D.device.is_transparent → IsDecidedByFile (D.device.reads disk.old file) result }
        ensures untouched { IsUntouched D.device disk.old disk.new }
        ensures sound { IsTrue D.device.is_transparent → IfOk result (λ journal. IsOnDisk D.device journal disk.new) }
        ensures counts { CountsNeverFall D.device disk.old disk.new }

        // A failed call of the disk is never passed over.
        ensures told { TellsFaults D.device disk.old disk.new result }
    {
        let opening = Opening::begin(alloc, disk, file)?;
        opening.finish_all(disk)
    }

    /// The number of records.
    pub fn count(&self) -> u64
        ensures { result ≡ count_of self.now }
    {
        self.extents.len() as u64
    }

    /// Makes room for one record more.
    pub fn reserve(&mut self) -> Result<(), AllocError>
        ensures ok { OnOk result (HasRoom self.new) }
        ensures same { IsSame self.old self.new }
    {
        self.extents.reserve(1)
    }

    /// The body of the record at place `i`, counted from 0.
    pub fn record<D: Disk>(
        &self,
        alloc: Global,
        disk: &mut D,
        i: u64,
    ) -> Result<Vec<u8>, JournalFault>
        requires place { i < count_of self.now }
        requires sound { IsTrue D.device.is_transparent → IsOnDisk D.device self.now disk.old }
        ensures body { IsTrue D.device.is_transparent →
            IfOk result (λ body. slice_get (records_of D.device self.now disk.old) i ≡ Some body.items) }
        ensures refused { IfErr result (IsRecordRefusal D.device disk.old disk.new) }
        ensures looked { OnlyReads D.device disk.old disk.new }

        // A failed call of the disk is never passed over.
        ensures told { TellsFaults D.device disk.old disk.new result }
    {
        let extent = self.extents[i as usize];
        octets_at(alloc, disk, self.file, extent.at, extent.len)
    }
}
