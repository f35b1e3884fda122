//! The records of a file, one after the other, by whichever rules they have.

ghost use Rattle.std.specs.Prelude.{ℕ, List, IsTrue, IfOk, IfErr, IfSome, IfNone, OnOk};
ghost use Rattle.arch_disk.specs.Disk.{NoFault, OnlyReads};
ghost use Rattle.disk_journal.specs.Calls.{BeginsOpen, StandsAtGate, content_read};
ghost use Rattle.sealed_opening.specs.ReadRefusals.{IsReadRefusal};
ghost use Rattle.sealed_opening.specs.Records.{AreRecordsRead, IsStop};

use arch_disk::Disk;
use arch_types::octets::Octets;
use archive_reading::refusal_of;
use disk_journal::{Journal, Opening};
use refusals::Refusal;
use std::alloc::{AllocError, Global};

/// What the records of a file may say, by what was read of it so far.
pub trait RecordRules {
    /// What holds of all that is read.
    ghost is_kept: { Self → Type 0 };

    /// Whether a body may stand behind what was read.
    ghost may_follow: { Self → List ℕ → Type 0 };

    /// What was read, once a body was taken.
    ghost follows: { Self → List ℕ → Self → Type 0 };

    /// What was read with a record more, where its body may follow; else none. The one error is want of memory.
    fn take(self, alloc: Global, body: &Octets) -> Result<Option<Self>, AllocError>
        requires { is_kept self }
        ensures taken { IfOk result (λ next. IfSome next (follows self body.now)) }
        ensures kept { IfOk result (λ next. IfSome next is_kept) }
        ensures none { IfOk result (λ next. IfNone next (may_follow self body.now → ⊥)) };
}

/// Reads the records of a file behind those that its opening has read, to the closed gate that ends them.
pub fn read_records<D: Disk, R: RecordRules + Drop>(
    alloc: Global,
    disk: &mut D,
    opening: Opening,
    rules: R,
) -> Result<(Journal, R), Refusal>
    requires begun { IsTrue D.device.is_transparent → BeginsOpen (content_read D.device opening disk.old) }
    requires at_gate { StandsAtGate D.device opening disk.old }
    requires kept { R.is_kept rules }

    // Ok: the journal has the places of all records, and each may follow those before it.
    ensures read { IfOk result (λ read. AreRecordsRead R.follows D.device disk.old opening rules read.1 read.0) }
    ensures kept { IfOk result (λ read. R.is_kept read.1) }

    // Refused: at the first record that passes the file's end or may not follow, for a read that failed, or want of memory.
    ensures refused { IfErr result
        (IsReadRefusal
        (IsStop R.may_follow R.follows D.device disk.old opening rules) D.device disk.old disk.new) }
    ensures looked { OnlyReads D.device disk.old disk.new }
    ensures no_fault { OnOk result (NoFault D.device disk.old disk.new) }
{
    let file = opening.file();
    let mut opening = opening;
    let mut so_far = rules;
    'records: loop {
        let at = opening.place();
        let body = match opening.next(alloc, disk) {
            Ok(Some(body)) => body,
            Ok(None) => return Ok((opening.finish(), so_far)),
            Err(fault) => return Err(refusal_of(file, fault)),
        };
        match so_far.take(alloc, &body) {
            Ok(Some(now)) => so_far = now,
            Ok(None) => return Err(Refusal::Damaged { file, at }),
            Err(_) => return Err(Refusal::OutOfMemory),
        }
    }
}
