//! Single calls of a disk. A fault says whether the call wrote.

ghost use Rattle.std.specs.Prelude.{◌≡◌, [], ◌++◌, ◌≤◌, ◌+◌, IsTrue, length, take, drop, OnOk, IfOk, IfErr};
ghost use Rattle.arch_disk.specs.Image.{AgreesBut};
ghost use Rattle.arch_disk.specs.Disk.{AddsNoImage, IsDurable, IsOldBut, LeavesOnly, NoFault, NoWriteFailed, OnlyReads};
ghost use Rattle.run_files.specs.Faults.{IsLookFault, IsWriteFault};

use crate::RunFault;
use arch_disk::Disk;
use arch_types::octets::Octets;
use std::alloc::Global;

/// The length of a file.
pub(crate) fn len_of<D: Disk>(disk: &mut D, file: u32) -> Result<u64, RunFault>
    ensures len { IfOk result (λ n. IsTrue D.device.is_transparent → n ≡ length (D.device.reads disk.old file)) }
    ensures refused { IfErr result (IsLookFault D.device disk.old disk.new) }
    ensures told { OnOk result (NoFault D.device disk.old disk.new) }
    ensures looked { OnlyReads D.device disk.old disk.new }
{
    match disk.len(file) {
        Ok(len) => Ok(len),
        Err(_) => Err(RunFault::DiskFault { wrote: false }),
    }
}

/// A run of octets of a file, as a block.
pub(crate) fn octets_at<D: Disk>(
    alloc: Global,
    disk: &mut D,
    file: u32,
    at: u64,
    size: u32,
) -> Result<Octets, RunFault>
    requires { IsTrue D.device.is_transparent → at + size ≤ length (D.device.reads disk.old file) }
    ensures octets { IfOk result (λ octets. IsTrue D.device.is_transparent →
        octets ≡ take size (drop at (D.device.reads disk.old file))) }
    ensures refused { IfErr result (IsLookFault D.device disk.old disk.new) }
    ensures told { OnOk result (NoFault D.device disk.old disk.new) }
    ensures looked { OnlyReads D.device disk.old disk.new }
{
    let mut octets = vec![in alloc; 0u8; size as usize]?;
    match disk.read_at(file, at, &mut octets) {
        Ok(()) => Ok(Octets::from_vec(alloc, octets)?),
        Err(_) => Err(RunFault::DiskFault { wrote: false }),
    }
}

/// A sync.
pub(crate) fn flush<D: Disk>(disk: &mut D, file: u32) -> Result<(), RunFault>
    ensures durable { OnOk result (IsDurable D.device file (D.device.reads disk.new file) disk.new) }
    ensures reads { D.device.reads disk.new ≡ D.device.reads disk.old }
    ensures moments { LeavesOnly D.device disk.old disk.new (D.device.images disk.old) }
    ensures images { AddsNoImage D.device disk.old disk.new }
    ensures refused { IfErr result (IsWriteFault D.device disk.old disk.new) }
    ensures told { OnOk result (NoFault D.device disk.old disk.new) }
    ensures no_failed_write { OnOk result (NoWriteFailed D.device disk.old disk.new) }
{
    match disk.sync(file) {
        Ok(()) => Ok(()),
        Err(_) => Err(RunFault::DiskFault { wrote: true }),
    }
}

/// Empties a file.
pub(crate) fn empty<D: Disk>(disk: &mut D, file: u32) -> Result<(), RunFault>
    ensures is_empty { OnOk result (IsTrue D.device.is_transparent → D.device.reads disk.new file ≡ []) }
    ensures elsewhere { LeavesOnly D.device disk.old disk.new (IsOldBut D.device file disk.old) }
    ensures reads { IsTrue D.device.is_transparent →
        AgreesBut file (D.device.reads disk.old) (D.device.reads disk.new) }
    ensures refused { IfErr result (IsWriteFault D.device disk.old disk.new) }
    ensures told { OnOk result (NoFault D.device disk.old disk.new) }
    ensures no_failed_write { OnOk result (NoWriteFailed D.device disk.old disk.new) }
{
    match disk.cut(file, 0) {
        Ok(()) => Ok(()),
        Err(_) => Err(RunFault::DiskFault { wrote: true }),
    }
}

/// Writes octets behind what a file has. They are durable after the next sync.
pub(crate) fn put_more<D: Disk>(
    disk: &mut D,
    file: u32,
    end: u64,
    octets: &[u8],
) -> Result<(), RunFault>
    requires { IsTrue D.device.is_transparent → end ≡ length (D.device.reads disk.old file) }
    ensures written { OnOk result (IsTrue D.device.is_transparent →
        D.device.reads disk.new file ≡ D.device.reads disk.old file ++ octets.now) }
    ensures elsewhere { LeavesOnly D.device disk.old disk.new (IsOldBut D.device file disk.old) }
    ensures reads { IsTrue D.device.is_transparent →
        AgreesBut file (D.device.reads disk.old) (D.device.reads disk.new) }
    ensures refused { IfErr result (IsWriteFault D.device disk.old disk.new) }
    ensures told { OnOk result (NoFault D.device disk.old disk.new) }
    ensures no_failed_write { OnOk result (NoWriteFailed D.device disk.old disk.new) }
{
    match disk.write_at(file, end, octets) {
        Ok(()) => Ok(()),
        Err(_) => Err(RunFault::DiskFault { wrote: true }),
    }
}
