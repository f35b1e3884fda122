// Runs of few calls of a disk: a write that is durable once it is answered Ok, and looks at a file. A fault says which of
// them failed: no other function here makes a call of a disk that can fail.
ghost use Rattle.std.specs.Prelude.{◌≡◌, ◌+◌, ◌<◌, ◌≤◌, ◌⊎◌, ◌++◌, [], IsTrue, false, true, length, take, drop, get_or, OnOk, IfOk, IfErr};
ghost use Rattle.std.specs.Int.{w32, from_be_bytes, to_be_bytes};
ghost use Rattle.arch_disk.specs.Image.{Image, AgreesBut, Torn, InFile, Becomes, overwritten};
ghost use Rattle.arch_disk.specs.Disk.{AddsNoImage, IsDurable, LeavesOnly, LeavesOthers, OnlyReads, HasCause, CountsFailure, raised};
ghost use Rattle.disk_journal.specs.Faults.{TellsFaults};
ghost use Rattle.disk_journal.specs.declared.fault.JournalFault.TheVariants.{DiskFault, OutOfMemory};

use crate::JournalFault;
use arch_disk::Disk;
use std::alloc::Global;

// A write and a sync.
pub fn put<D: Disk>(disk: &mut D, file: u32, at: u64, octets: &[u8]) -> Result<(), JournalFault>
    requires { IsTrue D.device.is_transparent → at ≤ length (D.device.reads disk.old file) }
    ensures written { OnOk result (IsTrue D.device.is_transparent →
        InFile (Becomes (overwritten at octets.now)) file (D.device.reads disk.old) (D.device.reads disk.new)) }
    ensures reads { IsTrue D.device.is_transparent →
        AgreesBut file (D.device.reads disk.old) (D.device.reads disk.new) }
    ensures durable { OnOk result (IsDurable D.device file (D.device.reads disk.new file) disk.new) }

    // A crash at any moment leaves the range torn.
    ensures moments { LeavesOnly D.device disk.old disk.new
        (λ c. (d : Image) × D.device.images disk.old d × InFile (Torn at (length octets.now)) file d c) }
    ensures cause { HasCause D.device disk.old disk.new result }
    ensures writes { CountsFailure D.device disk.old disk.new result }
    ensures only { IfErr result (λ e. e ≡ DiskFault true) }
{
    let Ok(()) = disk.write_at(file, at, octets) else {
        return Err(JournalFault::DiskFault { wrote: true });
    };
    match disk.sync(file) {
        Ok(()) => Ok(()),
        Err(_) => Err(JournalFault::DiskFault { wrote: true }),
    }
}

// Empties a file.
pub fn empty<D: Disk>(disk: &mut D, file: u32) -> Result<(), JournalFault>
    ensures is_empty { OnOk result (IsTrue D.device.is_transparent → D.device.reads disk.new file ≡ []) }
    ensures others { LeavesOthers D.device file disk.old disk.new }
    ensures cause { HasCause D.device disk.old disk.new result }
    ensures writes { CountsFailure D.device disk.old disk.new result }
    ensures only { IfErr result (λ e. e ≡ DiskFault true) }
{
    match disk.cut(file, 0) {
        Ok(()) => Ok(()),
        Err(_) => Err(JournalFault::DiskFault { wrote: true }),
    }
}

// A write behind what a file has, durable after the next sync.
pub fn put_more<D: Disk>(
    disk: &mut D,
    file: u32,
    end: u64,
    octets: &[u8],
) -> Result<(), JournalFault>
    requires { IsTrue D.device.is_transparent → end ≡ length (D.device.reads disk.old file) }
    ensures written { OnOk result (IsTrue D.device.is_transparent →
        D.device.reads disk.new file ≡ D.device.reads disk.old file ++ octets.now) }
    ensures others { LeavesOthers D.device file disk.old disk.new }
    ensures cause { HasCause D.device disk.old disk.new result }
    ensures writes { CountsFailure D.device disk.old disk.new result }
    ensures only { IfErr result (λ e. e ≡ DiskFault true) }
{
    match disk.write_at(file, end, octets) {
        Ok(()) => Ok(()),
        Err(_) => Err(JournalFault::DiskFault { wrote: true }),
    }
}

// A sync.
pub fn flush<D: Disk>(disk: &mut D, file: u32) -> Result<(), JournalFault>
    ensures durable { OnOk result (IsDurable D.device file (D.device.reads disk.new file) disk.new) }
    ensures reads { D.device.reads disk.new ≡ D.device.reads disk.old }
    ensures moments { LeavesOnly D.device disk.old disk.new (D.device.images disk.old) }
    ensures images { AddsNoImage D.device disk.old disk.new }
    ensures cause { HasCause D.device disk.old disk.new result }
    ensures writes { CountsFailure D.device disk.old disk.new result }
    ensures only { IfErr result (λ e. e ≡ DiskFault true) }
{
    match disk.sync(file) {
        Ok(()) => Ok(()),
        Err(_) => Err(JournalFault::DiskFault { wrote: true }),
    }
}

// Octets from a place on, as many as `into` has.
pub fn read_at<D: Disk>(
    disk: &mut D,
    file: u32,
    at: u64,
    into: &mut [u8],
) -> Result<(), JournalFault>
    requires { IsTrue D.device.is_transparent → at + length into.old ≤ length (D.device.reads disk.old file) }
    ensures octets { OnOk result (IsTrue D.device.is_transparent →
        into.new ≡ take (length into.old) (drop at (D.device.reads disk.old file))) }
    ensures len { length into.new ≡ length into.old }
    ensures looked { OnlyReads D.device disk.old disk.new }
    ensures cause { HasCause D.device disk.old disk.new result }
    ensures only { IfErr result (λ e. e ≡ DiskFault false) }
{
    match disk.read_at(file, at, into) {
        Ok(()) => Ok(()),
        Err(_) => Err(JournalFault::DiskFault { wrote: false }),
    }
}

// One octet.
pub fn octet_at<D: Disk>(disk: &mut D, file: u32, at: u64) -> Result<u8, JournalFault>
    requires { IsTrue D.device.is_transparent → at < length (D.device.reads disk.old file) }
    ensures octet { IfOk result (λ octet. IsTrue D.device.is_transparent →
        octet ≡ get_or (D.device.reads disk.old file) at 0) }
    ensures looked { OnlyReads D.device disk.old disk.new }
    ensures cause { HasCause D.device disk.old disk.new result }
    ensures only { IfErr result (λ e. e ≡ DiskFault false) }
{
    let mut octets = [0; 1];
    read_at(disk, file, at, &mut octets)?;
    Ok(octets[0])
}

// The number that four octets spell.
pub fn number_of(octets: &[u8]) -> u32
    requires { length octets.now ≡ 4 }
    ensures number { result ≡ from_be_bytes w32 octets.now }
    ensures octets { to_be_bytes w32 result ≡ octets.now }
{
    u32::from_be_bytes([octets[0], octets[1], octets[2], octets[3]])
}

// The length of a file.
pub fn len_of<D: Disk>(disk: &mut D, file: u32) -> Result<u64, JournalFault>
    ensures len { IfOk result (λ n. IsTrue D.device.is_transparent → n ≡ length (D.device.reads disk.old file)) }
    ensures looked { OnlyReads D.device disk.old disk.new }
    ensures cause { HasCause D.device disk.old disk.new result }
    ensures only { IfErr result (λ e. e ≡ DiskFault false) }
{
    match disk.len(file) {
        Ok(len) => Ok(len),
        Err(_) => Err(JournalFault::DiskFault { wrote: false }),
    }
}

// A run of octets.
pub fn octets_at<D: Disk>(
    alloc: Global,
    disk: &mut D,
    file: u32,
    at: u64,
    size: u32,
) -> Result<Vec<u8>, JournalFault>
    requires { IsTrue D.device.is_transparent → at + size ≤ length (D.device.reads disk.old file) }
    ensures octets { IfOk result (λ octets. IsTrue D.device.is_transparent →
        octets.items ≡ take size (drop at (D.device.reads disk.old file))) }
    ensures long { IfOk result (λ octets. length octets.items ≡ size) }
    ensures looked { OnlyReads D.device disk.old disk.new }
    ensures only { IfErr result (λ e. (e ≡ DiskFault false) ⊎ (e ≡ OutOfMemory)) }
    ensures cause { result ≡ Err (DiskFault false) →
        raised (D.device.fault_count disk.old) ≤ D.device.fault_count disk.new }
    ensures told { TellsFaults D.device disk.old disk.new result }
{
    let Ok(mut octets) = vec![in alloc; 0u8; size as usize] else {
        return Err(JournalFault::OutOfMemory);
    };
    read_at(disk, file, at, &mut octets)?;
    Ok(octets)
}
