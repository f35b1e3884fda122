//! Entries that are appended: rows and fills in one way.

ghost use Rattle.std.specs.Prelude.{◌≡◌, ◌≤◌, ◌<◌, ◌^◌, ◌-◌, ℕ, [], ◌∷◌, None, IsTrue, OnOk, IfOk, IfErr};
ghost use Rattle.arch_disk.specs.Disk.{LeavesOthers, NoFault};
ghost use Rattle.disk_journal.specs.Calls.{CountsNeverFall, CrashLeavesRecords, IsAppended};
ghost use Rattle.disk_journal.specs.State.{HasRoom, IsOnDisk, count_of, file_of, unhealed_fault};
ghost use Rattle.fill_tracker.specs.FillTracker.{KeepsMarks};
ghost use Rattle.history_items.specs.declared.fills.Addition.TheVariants as additions;
ghost use Rattle.archive_store.specs.Appending.{NotesFailure};

use arch_disk::Disk;
use arch_types::row::Rows;
use disk_journal::{Frame, Journal};
use fill_tracker::FillTracker;
use history_items::fills::Addition;
use intervals::Interval;

/// An entry that a store appends. A further kind is an `impl` more.
pub(crate) trait NewEntry {
    ghost use Rattle.history_items.specs.declared.fills.Addition.{Addition as AnAddition};

    /// What the fault of a write that failed holds of it.
    ghost addition: { Self → AnAddition };

    /// What it would have added.
    fn into_addition(self) -> Addition
        ensures { result ≡ addition self };
}

impl NewEntry for Rows {
    ghost addition = { λ rows. additions.Rows rows };

    fn into_addition(self) -> Addition {
        Addition::Rows(self)
    }
}

/// A fill that is appended, by its interval and its base.
#[derive(Drop)]
pub(crate) struct NewFill {
    pub interval: Interval,
    pub base: u64,
}

impl NewEntry for NewFill {
    ghost addition = { λ fill. additions.Fill fill.interval fill.base };

    fn into_addition(self) -> Addition {
        Addition::Fill {
            interval: self.interval,
            base: self.base,
        }
    }
}

/// Appends the record of an entry, and gives the entry back. Where a write fails that is noted, with what the entry
/// would have added, and the disk's count of faults is the error.
pub(crate) fn append_entry<D: Disk, E: NewEntry>(
    disk: &mut D,
    journal: &mut Journal,
    tracker: &mut FillTracker,
    frame: &Frame,
    entry: E,
) -> Result<E, u64>
    requires room { HasRoom journal.old }
    requires place { 1 ≤ tracker.old.room }
    requires sound { IsTrue D.device.is_transparent → IsOnDisk D.device journal.old disk.old }
    requires healed { unhealed_fault journal.old ≡ None }
    requires below { count_of journal.old < 2 ^ 32 - 1 }

    // Ok: the record is the last one, and nothing else changed.
    ensures appended { IfOk result (λ _. (place : ℕ) ×
        IsAppended D.device journal.old journal.new disk.old disk.new frame.now place) }
    ensures back { IfOk result (λ back. back ≡ entry) }
    ensures told { OnOk result (NoFault D.device disk.old disk.new) }
    ensures same { OnOk result (tracker.new ≡ tracker.old) }

    // Refused: a write failed, and a fault that holds the entry says so.
    ensures failed { IfErr result (NotesFailure D.device journal.old journal.new disk.old disk.new frame.now
        tracker.old.fills tracker.new.fills (E.addition entry)) }
    ensures marks { KeepsMarks tracker.old tracker.new }

    // As an append of a journal.
    ensures crash { CrashLeavesRecords D.device journal.old disk.old disk.new (frame.now ∷ []) }
    ensures others { LeavesOthers D.device (file_of journal.old) disk.old disk.new }
    ensures counts { CountsNeverFall D.device disk.old disk.new }
    ensures file { file_of journal.new ≡ file_of journal.old }
{
    match journal.append(disk, frame) {
        Ok(_) => Ok(entry),
        Err(fault) => {
            let count = disk.faults();
            tracker.note_fault(count, fault.wrote(), entry.into_addition());
            Err(count)
        }
    }
}
