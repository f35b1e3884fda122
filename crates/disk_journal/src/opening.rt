// A journal that is being read, record after record, in one pass.
ghost use Rattle.std.specs.Prelude.{◌≡◌, ◌≢◌, ◌+◌, ◌<◌, ◌^◌, ◌≤◌, ◌⊎◌, ◌++◌, [], ◌∷◌, List, ℕ, IsTrue, false, length, get_or, take, drop, OnOk, IfOk, IfErr, IfSome, None};
ghost use Rattle.arch_disk.specs.Disk.{IsUntouched, OnlyReads, raised};
ghost use Rattle.disk_journal.specs.Faults.{TellsFaults};
ghost use Rattle.disk_journal.specs.State.{IsReadFault};
ghost use Rattle.disk_journal.specs.declared.fault.JournalFault.TheVariants.{DiskFault};

use crate::JournalFault;
use crate::journal::{Extent, Journal, PendingFault, begins_open};
use crate::piece_reader::PieceReader;
use crate::steps::flush;
use arch_disk::Disk;
use arch_types::octets::Octets;
use std::alloc::{AllocError, Global};

/// A reading of a file, up to a gate.
#[derive(Drop)]
pub struct Opening {
    reader: PieceReader,
    extents: Vec<Extent>,
    /// The gate that is read next; the one at 0 was found open at the beginning.
    at: u64,
}

impl Opening {
    ghost use Rattle.disk_journal.specs.Reading.{IsAt, IsWholeAt, IsCutShortAt, gate_of, file_read, IsReadJournal};
    ghost use Rattle.disk_journal.specs.Calls.{CountsNeverFall, IsBeginRefusal, IsNextAnswer, IsNextRefusal, IsOpeningAtStart, IsOpeningBegun, IsReadWhole, IsReadWholeRefusal, IsStartRefusal, StandsAtGate, content_read};

    /// Begins at the first record, with a sync.
    pub fn begin<D: Disk>(alloc: Global, disk: &mut D, file: u32) -> Result<Opening, JournalFault>
        // Ok: no record is read yet, the file's first gate is open, and what the file reads as is durable.
        ensures begun { IfOk result (IsOpeningBegun D.device file disk.old disk.new) }

        ensures at_gate { IfOk result (λ opening. StandsAtGate D.device opening disk.new) }

        // Refused: the file doesn't begin with an open gate, or the disk failed.
        ensures refused { IfErr result (IsBeginRefusal D.device file disk.old disk.new) }

        // A failed call of the disk is never passed over.
        ensures told { TellsFaults D.device disk.old disk.new result }
        ensures untouched { IsUntouched D.device disk.old disk.new }
        ensures counts { CountsNeverFall D.device disk.old disk.new }
    {
        flush(disk, file)?;
        Self::begin_synced(alloc, disk, file)
    }

    /// Begins at the first record, without a sync, of a file that is known to be durable.
    pub fn begin_synced<D: Disk>(
        alloc: Global,
        disk: &mut D,
        file: u32,
    ) -> Result<Opening, JournalFault>
        // Ok: no record is read yet, and the file's first gate is open.
        ensures begun { IfOk result (IsOpeningAtStart D.device file disk.old) }

        ensures at_gate { IfOk result (λ opening. StandsAtGate D.device opening disk.new) }

        // Refused: the file doesn't begin with an open gate, or a look at it failed.
        ensures refused { IfErr result (IsStartRefusal D.device file disk.old disk.new) }

        // A failed call of the disk is never passed over.
        ensures told { TellsFaults D.device disk.old disk.new result }
        ensures looked { OnlyReads D.device disk.old disk.new }
    {
        match begins_open(disk, file)? {
            None => Err(JournalFault::NoArchive),
            Some(len) => Ok(Opening {
                reader: PieceReader::new(alloc, file, len),
                extents: Vec::new(alloc),
                at: 0,
            }),
        }
    }

    // Where the body of the next record stands; None at a closed gate.
    fn read_header<D: Disk>(&mut self, disk: &mut D) -> Result<Option<Extent>, JournalFault>
        requires { IsTrue D.device.is_transparent → (bodies : List (List ℕ)) ×
            IsAt self.old (D.device.reads disk.old (file_read self.old)) bodies }
        ensures some { IsTrue D.device.is_transparent →
            IfOk result (λ next. IfSome next (λ extent.
            IsWholeAt (D.device.reads disk.old (file_read self.old)) (gate_of self.old) extent)) }
        ensures none { IsTrue D.device.is_transparent → IfOk result (λ next. next ≡ None →
            get_or (D.device.reads disk.old (file_read self.old)) (gate_of self.old) 0 ≢ 1) }
        ensures within { IfOk result (λ next. IfSome next (λ extent. (extent.at ≡ gate_of self.old + 5) ×
            (extent.at + extent.len < 2 ^ 64))) }
        ensures damaged { IsTrue D.device.is_transparent → (bodies : List (List ℕ)) →
            IsAt self.old (D.device.reads disk.old (file_read self.old)) bodies
            → (at : ℕ) → result ≡ Err (JournalFault.Damaged at) →
            (at ≡ gate_of self.old) × IsCutShortAt (D.device.reads disk.old (file_read self.old)) bodies }
        ensures stays { IsTrue D.device.is_transparent → (bodies : List (List ℕ)) →
            IsAt self.old (D.device.reads disk.old (file_read self.old)) bodies
            → OnOk result (IsAt self.new (D.device.reads disk.old (file_read self.old)) bodies) }
        ensures place { (gate_of self.new ≡ gate_of self.old) × (file_read self.new ≡ file_read self.old) }
        ensures looked { OnlyReads D.device disk.old disk.new }
        ensures only { IfErr result IsReadFault }
        ensures cause { result ≡ Err (DiskFault false) →
            raised (D.device.fault_count disk.old) ≤ D.device.fault_count disk.new }
        ensures told { TellsFaults D.device disk.old disk.new result }
    {
        if self.at > 0 && self.reader.octet(disk, self.at)? != 1 {
            return Ok(None);
        }
        let left = self.reader.len.saturating_sub(self.at);
        if left < 6 {
            return Err(JournalFault::Damaged { at: self.at });
        }
        let len = self.reader.number(disk, self.at + 1)?;
        if u64::from(len) > left - 6 {
            return Err(JournalFault::Damaged { at: self.at });
        }
        Ok(Some(Extent {
            at: self.at + 5,
            len,
        }))
    }

    // Takes in the record that was looked at.
    fn advance(&mut self, extent: Extent) -> Result<(), AllocError>
        requires { extent.at + extent.len < 2 ^ 64 }
        ensures at { (content : List ℕ) (bodies : List (List ℕ)) → IsAt self.old content bodies →
            IsWholeAt content self.old.at extent
            → OnOk result (IsAt self.new content (bodies ++ take extent.len (drop extent.at content) ∷ [])) }
        ensures moves { OnOk result (self.new.at ≡ extent.at + extent.len) }
        ensures file { file_read self.new ≡ file_read self.old }
    {
        self.extents.push(extent)?;
        self.at = extent.at + extent.len as u64;
        Ok(())
    }

    /// The body of the next record, mostly a slice of the piece that was read; None at the closed gate that ends them.
    pub fn next<D: Disk>(
        &mut self,
        alloc: Global,
        disk: &mut D,
    ) -> Result<Option<Octets>, JournalFault>
        requires at_gate { StandsAtGate D.device self.old disk.old }

        // Some: it stands at the gate behind one record more. None: the file has just the records that were read.
        ensures next { IfOk result (IsNextAnswer D.device self.old self.new disk.old) }

        ensures at_gate { OnOk result (StandsAtGate D.device self.new disk.new) }

        // Refused: the next record, with the gate octet after it, passes the file's end; a read failed; or memory is wanting.
        ensures refused { IfErr result (IsNextRefusal D.device self.old disk.old disk.new) }

        // A failed call of the disk is never passed over.
        ensures told { TellsFaults D.device disk.old disk.new result }
        ensures looked { OnlyReads D.device disk.old disk.new }
        ensures file { file_read self.new ≡ file_read self.old }
    {
        match self.read_header(disk)? {
            None => Ok(None),
            Some(extent) => {
                let body = self.reader.octets(alloc, disk, extent.at, extent.len)?;
                self.advance(extent)?;
                Ok(Some(body))
            }
        }
    }

    // Reads on to the closed gate that ends the records, over the bodies. Behind a body that passes the end of a piece it
    // takes a whole one for the next header: 256 KiB a record at most, and for all together about the file's length.
    pub(crate) fn finish_all<D: Disk>(mut self, disk: &mut D) -> Result<Journal, JournalFault>
        requires none_read { IsTrue D.device.is_transparent → IsAt self (content_read D.device self disk.old) [] }
        ensures read { IfOk result (IsReadWhole D.device self disk.old) }
        ensures refused { IfErr result (IsReadWholeRefusal D.device self disk.old disk.new) }
        ensures told { TellsFaults D.device disk.old disk.new result }
        ensures looked { OnlyReads D.device disk.old disk.new }
    {
        'records: while let Some(extent) = self.read_header(disk)? {
            self.advance(extent)?;
        }
        Ok(self.finish())
    }

    /// The gate of the next record, in octets from the file's start.
    pub fn place(&self) -> u64
        ensures { result ≡ gate_of self.now }
    {
        self.at
    }

    /// The file that is read.
    pub fn file(&self) -> u32
        ensures { result ≡ file_read self.now }
    {
        self.reader.file
    }

    /// The journal of the records that were read; the next one goes to the gate that is read next.
    pub fn finish(self) -> Journal
        ensures { IsReadJournal self result }
    {
        let Opening {
            reader,
            extents,
            at,
        } = self;
        Journal {
            file: reader.file,
            extents,
            end: at,
            pending_fault: PendingFault::Absent,
        }
    }
}
