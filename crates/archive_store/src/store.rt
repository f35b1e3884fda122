//! The store.

ghost use Rattle.std.specs.Prelude.{◌≡◌, [], IsTrue, length, IfOk, IfErr, None};
ghost use Rattle.arch_disk.specs.Disk.{IsUntouched, LeavesOnly};
ghost use Rattle.field_codec.specs.declared.entry.Entry.TheVariants as entries;
ghost use Rattle.field_codec.specs.Entries.{IsArchiveEntry};
ghost use Rattle.field_codec.specs.Spelling.{entry_octets};
ghost use Rattle.history_items.specs.Databases.{database_in};
ghost use Rattle.history_items.specs.Items.{databases_in, rows_in};
ghost use Rattle.archive_reading.specs.PartialArchive.{IsHistoryOf, refusal_of_create};
ghost use Rattle.std.specs.Arc.{arc_value};

use arch_disk::Disk;
use archive_history::history::History;
use archive_images::Head;
use archive_reading::{PartialArchive, ReadArchive, read_archive, refusal_of};
use disk_journal::{Frame, Journal, JournalFault, Opening};
use field_codec::write_head;
use fill_tracker::FillTracker;
use history_items::fills::Fill;
use intervals::Exponent;
use mdb_model::Mdb;
use refusals::Refusal;
use std::alloc::{AllocError, Global};
use std::marker::Model;
use std::snapshot::Snapshot;
use std::sync::Arc;
use store_fills::LastFills;

/// An archive on a disk, and its history in memory.
#[derive(Drop)]
pub struct Store<D: Disk> {
    pub(crate) disk: D,
    pub(crate) opened: Snapshot<D>,
    pub(crate) journal: Journal,
    pub(crate) head: Head,
    /// The database in force, which plans share.
    pub(crate) mdb: Arc<Mdb, Global>,
    pub(crate) history: History,
    /// What happened to fills, with the late marks of the history.
    pub(crate) tracker: FillTracker,
    /// The last fill of each interval.
    pub(crate) sets: LastFills,
    /// The disk's count of faults at the first failed write that isn't healed.
    pub(crate) pending_fault: Option<u64>,
}

impl<D: Disk> Model for Store<D> {
    ghost use Rattle.std.specs.Prelude.{◌≡◌, length};
    ghost use Rattle.std.specs.Arc.{arc_value};
    ghost use Rattle.fill_tracker.specs.FillTracker.{AreMarksOf};
    ghost use Rattle.history_items.specs.Databases.{database_in};
    ghost use Rattle.history_items.specs.Items.{databases_in, rows_in};
    ghost use Rattle.archive_store.specs.StoreView.{StoreView};
    ghost use Rattle.archive_reading.specs.PartialArchive.{HoldsFills};
    ghost use Rattle.archive_store.specs.Inside.{view_of, StoreInvariant};

    ghost Value = { StoreView D };

    ghost view = { λ s. view_of s.disk s.opened.value s.journal s.head s.history.exponent s.history.items
        s.tracker.fills s.sets.filled };

    ghost invariant = { λ s.
        StoreInvariant D.device s.disk s.opened.value s.journal s.head s.history.exponent s.history.items
        s.tracker.fills s.sets.filled s.pending_fault
        × (s.history.tables ≡ length s.head.tables) × (arc_value s.mdb ≡ database_in s.head.mdb s.history.items)
        × AreMarksOf s.history.exponent s.history.items s.tracker.fills s.tracker.marks
        × HoldsFills s.head s.history.exponent s.history.items s.tracker.fills s.sets.filled };
}

/// A record with this head.
fn head_frame(alloc: Global, head: &Head) -> Result<Frame, AllocError>
    requires { IsArchiveEntry (entries.Head head.now.tables head.now.mdb) }
    ensures { IfOk result (λ frame. frame ≡ entry_octets (entries.Head head.now.tables head.now.mdb)) }
{
    let octets = write_head(alloc, head.tables.as_slice(), &head.mdb)?;
    Frame::of(alloc, &octets)
}

/// The refusal for a fault of a journal that is made.
fn refusal_of_create(fault: JournalFault) -> Refusal
    ensures { result ≡ refusal_of_create fault }
{
    match fault {
        JournalFault::Exists => Refusal::Exists,
        JournalFault::OutOfMemory => Refusal::OutOfMemory,
        JournalFault::NoArchive
        | JournalFault::Damaged { .. }
        | JournalFault::NeedsReopen { .. }
        | JournalFault::Limit
        | JournalFault::DiskFault { .. } => Refusal::DiskFault,
    }
}

/// What a new archive needs besides its journal.
#[derive(Drop)]
struct NewArchive {
    frame: Frame,
    head: Head,
    mdb: Arc<Mdb, Global>,
    history: History,
}

/// Takes all memory that a new archive needs before its first device call, but for the journal's.
fn prepare_new(alloc: Global, head: Head) -> Result<NewArchive, AllocError>
    requires { IsArchiveEntry (entries.Head head.tables head.mdb) }
    ensures { IfOk result (λ f. (f.frame ≡ entry_octets (entries.Head head.tables head.mdb)) × (f.head ≡ head) ×
        (arc_value f.mdb ≡ head.mdb)
        × IsHistoryOf head f.history × (f.history.items ≡ [])) }
{
    let frame = head_frame(alloc, &head)?;
    let mdb = shared(alloc, &head.mdb)?;
    let history = History::new(alloc, head.tables.as_slice().len(), Exponent::of_format_1())?;
    Ok(NewArchive {
        frame,
        head,
        mdb,
        history,
    })
}

impl<D: Disk> Store<D> {
    ghost use Rattle.archive_store.specs.StoreView.{CrashInvariant, FaultInvariant};
    ghost use Rattle.disk_journal.specs.Calls.{BeginsOpen, CountsNeverFall};
    ghost use Rattle.archive_store.specs.Calls.{CrashLeavesHead, IsDecidedByImage, IsStoreCreated, IsStoreCreateRefusal, IsStoreOpened, IsStoreOpenRefusal, disk_of, opened_disk_of};

    /// Makes an archive without rows on a disk that holds none. Where the last write or sync fails it closes the gate
    /// again, as far as the disk lets it.
    pub fn create(alloc: Global, disk: D, head: Head) -> Result<Store<D>, (D, Refusal)>
        requires head { IsArchiveEntry (entries.Head head.tables head.mdb) }

        // Ok: the disk held no archive, and holds one of this head without rows.
        ensures created { IfOk result (IsStoreCreated D.device disk head) }

        // Exists comes exactly where file 0 begins with an open gate, and the disk then reads as before. After one
        // fault alone a crash leaves no archive, or what it could have left before. Memory is taken before any call.
        ensures refused { IfErr result (λ e. IsStoreCreateRefusal D.device disk e.0 e.1) }

        // A disk that holds an archive is left as it is, whatever the call answers.
        ensures kept { IsTrue D.device.is_transparent → BeginsOpen (D.device.reads disk 0) →
            IsUntouched D.device disk (disk_of result) }

        // Power lost at any moment of the call leaves no archive or the head, or what it could have left before.
        ensures crash { CrashLeavesHead D.device disk (disk_of result) head }
        ensures counts { CountsNeverFall D.device disk (disk_of result) }
    {
        let mut disk = disk;
        let Ok(new_archive) = prepare_new(alloc, head) else {
            return Err((disk, Refusal::OutOfMemory));
        };
        let NewArchive {
            frame,
            head,
            mdb,
            history,
        } = new_archive;
        match Journal::create(alloc, &mut disk, 0, &frame) {
            Ok(journal) => {
                let opened = Snapshot::of(&disk);
                let tracker = FillTracker::new(alloc);
                let sets = LastFills::new(alloc);
                Ok(Store {
                    disk,
                    opened,
                    journal,
                    head,
                    mdb,
                    history,
                    tracker,
                    sets,
                    pending_fault: None,
                })
            }
            Err(fault) => Err((disk, refusal_of_create(fault))),
        }
    }

    /// Opens the archive of a disk.
    pub fn open(alloc: Global, disk: D) -> Result<Store<D>, (D, Refusal)>
        // Ok: the store is what the disk stands for, without a fault.
        ensures opened { IfOk result (IsStoreOpened D.device disk) }

        // Refused: no archive is there, it is damaged at a gate, the disk failed, or memory is wanting. A write failed
        // only where the sync at the beginning did. A failed look at the disk is never passed over.
        ensures refused { IfErr result (λ e. IsStoreOpenRefusal D.device disk e.0 e.1) }

        // What the disk reads as decides which of these it is, but for a fault of the disk and want of memory.
        ensures decided { IsTrue D.device.is_transparent → IsDecidedByImage (D.device.reads disk) result }
        ensures reads { D.device.reads (disk_of result) ≡ D.device.reads disk }

        // Up to the opening's syncs, and where it is refused, a crash leaves what it could have left before.
        ensures crash { LeavesOnly D.device disk (opened_disk_of result) (D.device.images disk) }
        ensures counts { CountsNeverFall D.device disk (opened_disk_of result) }
    {
        let mut disk = disk;
        let opening = match Opening::begin(alloc, &mut disk, 0) {
            Ok(opening) => opening,
            Err(fault) => return Err((disk, refusal_of(0, fault))),
        };
        let opened = Snapshot::of(&disk);
        let ReadArchive { journal, made } = match read_archive(alloc, &mut disk, opening, None) {
            Ok(found) => found,
            Err(refusal) => return Err((disk, refusal)),
        };
        let PartialArchive {
            head,
            history,
            tracker,
            sets,
        } = made;
        let Ok(mdb) = shared(alloc, &head.mdb) else {
            return Err((disk, Refusal::OutOfMemory));
        };
        Ok(Store {
            disk,
            opened,
            journal,
            head,
            mdb,
            history,
            tracker,
            sets,
            pending_fault: None,
        })
    }

    /// Gives the disk up.
    pub fn into_disk(self) -> D
        ensures disk { result ≡ self.disk }
        ensures images { IsTrue D.device.is_transparent → CrashInvariant D.device self }
        ensures faults { FaultInvariant D.device self }
    {
        let Store {
            disk,
            opened: _,
            journal: _,
            head: _,
            mdb: _,
            history: _,
            tracker: _,
            sets: _,
            pending_fault: _,
        } = self;
        disk
    }

    /// The length of the history.
    pub fn front(&self) -> u64
        ensures { result ≡ length self.now.history }
    {
        self.history.len() as u64
    }

    /// What happened to fills, and the faults of the disk, in their order.
    pub fn fills(&self) -> &[Fill]
        ensures { result.now ≡ self.now.fills }
    {
        self.tracker.as_slice()
    }

    /// How many rows the history has.
    pub fn row_count(&self) -> u64
        ensures { result ≡ length (rows_in self.now.history) }
    {
        self.history.len() as u64
    }

    /// The disk, to be looked at.
    pub fn disk(&self) -> &D
        ensures { result.now ≡ self.now.disk }
    {
        &self.disk
    }

    /// The tables, and the mission database that the archive began with.
    pub fn head(&self) -> &Head
        ensures head { result.now ≡ self.now.head }
        ensures sound { IsArchiveEntry (entries.Head self.now.head.tables self.now.head.mdb) }

        // Nothing adds a database to a history yet.
        ensures alone { databases_in self.now.history ≡ [] }
    {
        &self.head
    }

    /// The mission database in force. Takes no memory.
    pub fn mdb(&self) -> &Mdb
        ensures { result.now ≡ database_in self.now.head.mdb self.now.history }
    {
        &self.mdb
    }

    /// The mission database in force, shared. The one error is want of memory.
    pub fn shared_mdb(&self) -> Result<Arc<Mdb, Global>, AllocError>
        ensures { IfOk result (λ shared. arc_value shared ≡ database_in self.now.head.mdb self.now.history) }
    {
        Ok(Arc::try_clone(&self.mdb)?)
    }

    /// The exponent of the archive's intervals. Takes no memory.
    pub fn exponent(&self) -> Exponent
        ensures { result ≡ self.now.exponent }
    {
        self.history.exponent()
    }
}

/// A copy that can be shared.
fn shared(alloc: Global, mdb: &Mdb) -> Result<Arc<Mdb, Global>, AllocError>
    ensures { IfOk result (λ shared. arc_value shared ≡ mdb.now) }
{
    Ok(Arc::new(alloc, mdb.copy()?)?)
}
