//! The files of seals, in the order in which they are read: of each seal its runs, then its fill file.

ghost use Rattle.std.specs.Prelude.{◌≡◌, [], ◌∷◌, IfErr, IfOk, OnOk};
ghost use Rattle.arch_disk.specs.Disk.{NoFault, OnlyReads};
ghost use Rattle.sealed_opening.specs.ReadRefusals.{IsReadRefusal};
ghost use Rattle.sealed_opening.specs.Seals.{AreRunsNoted, AreSealsRead, IsInRuns, IsInSeals};

use crate::fills::read_fill_file;
use crate::runs::read_run;
use crate::so_far::SealedSoFar;
use arch_disk::Disk;
use archive_images::Head;
use refusals::Refusal;
use seal_codec::{Seal, SealedRun};
use std::alloc::Global;

/// Reads the runs that a seal names, one after the other, and notes their rows.
fn read_runs<D: Disk>(
    alloc: Global,
    disk: &mut D,
    head: &Head,
    runs: &[SealedRun],
    so_far: &mut SealedSoFar,
) -> Result<(), Refusal>
    ensures read { OnOk result (AreRunsNoted D.device disk.old head.now runs.now so_far.old so_far.new) }

    // Refused: in the first run that is damaged, at its octet; a read failed; or memory is wanting.
    ensures refused { IfErr result (IsReadRefusal (IsInRuns (D.device.reads disk.old) runs.now) D.device disk.old disk.new) }
    ensures looked { OnlyReads D.device disk.old disk.new }
    ensures no_fault { OnOk result (NoFault D.device disk.old disk.new) }
{
    'runs: for named in runs {
        read_run(alloc, disk, head, *named, so_far)?;
    }
    Ok(())
}

/// Reads the files of a seal: its runs, and then its fill file.
fn read_seal<D: Disk>(
    alloc: Global,
    disk: &mut D,
    head: &Head,
    seal: &Seal,
    so_far: SealedSoFar,
) -> Result<SealedSoFar, Refusal>
    ensures read { IfOk result (AreSealsRead D.device disk.old head.now (seal.now ∷ []) so_far) }

    // Refused: in the first run that is damaged, or else in the fill file; a read failed; or memory is wanting.
    ensures refused { IfErr result
        (IsReadRefusal (IsInSeals (D.device.reads disk.old) head.now (seal.now ∷ []) so_far) D.device disk.old disk.new) }
    ensures looked { OnlyReads D.device disk.old disk.new }
    ensures no_fault { OnOk result (NoFault D.device disk.old disk.new) }
{
    let mut so_far = so_far;
    read_runs(alloc, disk, head, seal.runs.as_slice(), &mut so_far)?;
    let now = read_fill_file(alloc, disk, head, seal, so_far)?;
    Ok(now)
}

/// Reads the files of seals, the first seal's first. They are known to be durable.
pub fn read_seals<D: Disk>(
    alloc: Global,
    disk: &mut D,
    head: &Head,
    seals: &[Seal],
    so_far: SealedSoFar,
) -> Result<SealedSoFar, Refusal>
    // Ok: each seal's runs and fills were read, and noted behind those of the seals before.
    ensures read { IfOk result (AreSealsRead D.device disk.old head.now seals.now so_far) }

    // Refused: in the first file that is damaged; a read failed; or memory is wanting.
    ensures refused { IfErr result
        (IsReadRefusal (IsInSeals (D.device.reads disk.old) head.now seals.now so_far) D.device disk.old disk.new) }
    ensures looked { OnlyReads D.device disk.old disk.new }
    ensures no_fault { OnOk result (NoFault D.device disk.old disk.new) }
{
    let mut so_far = so_far;
    'seals: for seal in seals {
        so_far = read_seal(alloc, disk, head, seal, so_far)?;
    }
    Ok(so_far)
}
