// A disk in memory. It keeps every call that changed something, so that each image since a moment can be asked for.
ghost use Rattle.std.specs.Prelude.{◌≡◌, ◌⊎◌, [], ◌∷◌, ◌+◌, ◌-◌, ◌^◌, ◌≤◌, ◌==◌, length, take, drop, min, is_err, IsTrue, IsErr, IfOk, OnOk, OnErr};
ghost use Rattle.arch_disk.specs.declared.call_log.Call.TheVariants.{Wrote, FailedWrite, Cut, FailedCut, Synced};
ghost use Rattle.arch_disk.specs.Image.{Torn, Shortened, InFile, Becomes, overwritten};
ghost use Rattle.arch_disk.specs.Disk.{Follows, AddsNoImage, IsDurable, Elapses, HasCause, CountsFailure, NoWriteFailed};
ghost use Rattle.arch_disk.specs.Files.{image_in};
ghost use Rattle.arch_disk.specs.Crash.{crash_of};
ghost use Rattle.arch_disk.specs.CallLog.{reads_of, images_of, since_of, first_calls, HoldsOnly};
ghost use Rattle.arch_disk.specs.Memory.{memory_device, IsFresh, is_listed, next_number, next_fails, HasCounted, KeepsWrite};

use crate::call_log::{Call, CallLog, Write};
use crate::crash::{Crash, image_after};
use crate::files::Files;
use crate::{Disk, Failed, FaultCounts};
use std::alloc::{AllocError, Global};

#[derive(Drop)]
pub struct MemDisk {
    call_log: CallLog,
    /// The numbers of the calls that are to fail, counted from 1.
    failing: Vec<u64>,
    alloc: Global,
    made: u64,
    counts: FaultCounts,
}

impl MemDisk {
    /// Empty files, and no call that fails while memory lasts.
    pub fn new(alloc: Global) -> MemDisk
        ensures empty { result.call_log ≡ [] }
        ensures unlisted { result.failing.items ≡ [] }
        ensures fresh { IsFresh result }
    {
        MemDisk::failing(alloc, Vec::new(alloc))
    }

    /// Empty files. The calls of these numbers fail, counted from 1 over all calls but `faults`.
    pub fn failing(alloc: Global, calls: Vec<u64>) -> MemDisk
        ensures empty { result.call_log ≡ [] }
        ensures listed { result.failing ≡ calls }
        ensures fresh { IsFresh result }
    {
        MemDisk {
            call_log: CallLog::new(alloc),
            failing: calls,
            alloc,
            made: 0,
            counts: FaultCounts::NONE,
        }
    }

    /// What a file reads as. It is no call of the disk.
    pub fn content(&self, file: u32) -> &[u8]
        ensures { result.now ≡ reads_of self.now.call_log file }
    {
        self.call_log.content(file)
    }

    /// How many calls were made, `faults` not counted.
    pub fn made(&self) -> u64
        ensures { result ≡ self.now.made }
    {
        self.made
    }

    /// How many calls were kept: the moments of this disk are those after the first 0, 1 and so on of them.
    pub fn moments(&self) -> usize
        ensures { result ≡ length self.now.call_log }
    {
        self.call_log.len()
    }

    /// The disk that is found after a crash of this kind at a moment of this one.
    pub fn crashed(&self, moment: usize, crash: Crash) -> Result<MemDisk, AllocError>
        requires { moment ≤ length self.now.call_log }
        ensures image { IfOk result (λ disk. images_of (first_calls moment self.now.call_log) (reads_of disk.call_log)) }
        ensures since { IfOk result (λ disk. since_of self.now.call_log moment (reads_of disk.call_log)) }
        ensures kind { IfOk result (λ disk.
            HoldsOnly disk.call_log (crash_of crash (first_calls moment self.now.call_log))) }
        ensures unlisted { IfOk result (λ disk. disk.failing.items ≡ []) }
        ensures fresh { IfOk result IsFresh }
    {
        let files = image_after(self.alloc, self.call_log.first(moment), crash)?;
        let disk = MemDisk::holding(self.alloc, &files)?;
        Ok(disk)
    }

    /// Files that hold this, and all of it is synced.
    pub fn holding(alloc: Global, files: &Files) -> Result<MemDisk, AllocError>
        ensures image { IfOk result (λ disk. HoldsOnly disk.call_log (image_in files.now)) }
        ensures unlisted { IfOk result (λ disk. disk.failing.items ≡ []) }
        ensures fresh { IfOk result IsFresh }
    {
        let call_log = CallLog::holding(alloc, files)?;
        Ok(MemDisk {
            call_log,
            failing: Vec::new(alloc),
            alloc,
            made: 0,
            counts: FaultCounts::NONE,
        })
    }
}

// Counts a call, and says whether its number is listed.
fn next_is_listed(made: &mut u64, failing: &[u64]) -> bool
    ensures number { made.new ≡ next_number made.old }
    ensures listed { result ≡ is_listed failing.now (next_number made.old) }
{
    *made = made.saturating_add(1);
    failing.contains(made)
}

impl Disk for MemDisk {
    ghost device = { memory_device };

    fn len(&mut self, file: u32) -> Result<u64, Failed>
        ensures length { IfOk result (λ n. IsTrue memory_device.is_transparent →
            n ≡ length (memory_device.reads self.old file)) }
        ensures reads { memory_device.reads self.new ≡ memory_device.reads self.old }
        ensures crash { AddsNoImage memory_device self.old self.new }
        ensures time { Elapses memory_device self.old self.new }
        ensures cause { HasCause memory_device self.old self.new result }
        ensures writes { NoWriteFailed memory_device self.old self.new }

        ensures counted { HasCounted self.old self.new }
        ensures fails { is_err result ≡ next_fails self.old }
        ensures unchanged { self.new.call_log ≡ self.old.call_log }
    {
        if next_is_listed(&mut self.made, &self.failing) {
            return Err(self.counts.look_failed());
        }
        Ok(self.call_log.content(file).len() as u64)
    }

    fn read_at(&mut self, file: u32, at: u64, into: &mut [u8]) -> Result<(), Failed>
        requires { IsTrue memory_device.is_transparent →
            at + length into.old ≤ length (memory_device.reads self.old file) }
        ensures octets { OnOk result (IsTrue memory_device.is_transparent →
            into.new ≡ take (length into.old) (drop at (memory_device.reads self.old file))) }
        ensures len { length into.new ≡ length into.old }
        ensures reads { memory_device.reads self.new ≡ memory_device.reads self.old }
        ensures crash { AddsNoImage memory_device self.old self.new }
        ensures time { Elapses memory_device self.old self.new }
        ensures cause { HasCause memory_device self.old self.new result }
        ensures writes { NoWriteFailed memory_device self.old self.new }

        ensures counted { HasCounted self.old self.new }
        ensures fails { is_err result ≡ next_fails self.old }
        ensures unchanged { self.new.call_log ≡ self.old.call_log }
    {
        if next_is_listed(&mut self.made, &self.failing) {
            return Err(self.counts.look_failed());
        }
        let start = at as usize;
        into.copy_from_slice(&self.call_log.content(file)[start..start + into.len()]);
        Ok(())
    }

    // A write that fails leaves all octets, and is kept where its number was listed and memory lasts.
    fn write_at(&mut self, file: u32, at: u64, from: &[u8]) -> Result<(), Failed>
        requires { IsTrue memory_device.is_transparent → at ≤ length (memory_device.reads self.old file) }
        ensures written { OnOk result (IsTrue memory_device.is_transparent →
            InFile (Becomes (overwritten at from.now)) file (memory_device.reads self.old)
            (memory_device.reads self.new)) }
        ensures torn { OnErr result (IsTrue memory_device.is_transparent →
            InFile (Torn at (length from.now)) file (memory_device.reads self.old) (memory_device.reads self.new)) }
        ensures crash { Follows memory_device (InFile (Torn at (length from.now)) file) self.old self.new }
        ensures time { Elapses memory_device self.old self.new }
        ensures cause { HasCause memory_device self.old self.new result }
        ensures writes { CountsFailure memory_device self.old self.new result }

        ensures counted { HasCounted self.old self.new }
        ensures fails { IsTrue (next_fails self.old) → IsErr result }
        ensures kept { OnOk result (KeepsWrite Wrote file at from.now self.old.call_log self.new.call_log) }
        ensures failed { OnErr result ((IsTrue (next_fails self.old) ×
            KeepsWrite FailedWrite file at from.now self.old.call_log self.new.call_log)
            ⊎ (self.new.call_log ≡ self.old.call_log)) }
    {
        let listed = next_is_listed(&mut self.made, &self.failing);
        if let Ok(write) = Write::copy(self.alloc, file, at, from) {
            if listed {
                let _ = self.call_log.note(Call::FailedWrite(write));
            } else if self.call_log.write(write).is_ok() {
                return Ok(());
            }
        }
        Err(self.counts.write_failed())
    }

    // As for a write.
    fn cut(&mut self, file: u32, len: u64) -> Result<(), Failed>
        ensures done { OnOk result (IsTrue memory_device.is_transparent →
            InFile (Becomes (take len)) file (memory_device.reads self.old) (memory_device.reads self.new)) }
        ensures torn { OnErr result (IsTrue memory_device.is_transparent →
            InFile (Shortened len) file (memory_device.reads self.old) (memory_device.reads self.new)) }
        ensures crash { Follows memory_device (InFile (Shortened len) file) self.old self.new }
        ensures time { Elapses memory_device self.old self.new }
        ensures cause { HasCause memory_device self.old self.new result }
        ensures writes { CountsFailure memory_device self.old self.new result }

        ensures counted { HasCounted self.old self.new }
        ensures fails { IsTrue (next_fails self.old) → IsErr result }
        ensures kept { OnOk result (self.new.call_log ≡ Cut file len ∷ self.old.call_log) }
        ensures failed { OnErr result ((IsTrue (next_fails self.old) ×
            (self.new.call_log ≡ FailedCut file len ∷ self.old.call_log))
            ⊎ (self.new.call_log ≡ self.old.call_log)) }
    {
        if next_is_listed(&mut self.made, &self.failing) {
            let _ = self.call_log.note(Call::FailedCut { file, len });
        } else if self.call_log.cut(file, len).is_ok() {
            return Ok(());
        }
        Err(self.counts.write_failed())
    }

    fn sync(&mut self, file: u32) -> Result<(), Failed>
        ensures durable { OnOk result (IsDurable memory_device file (memory_device.reads self.old file) self.new) }
        ensures reads { memory_device.reads self.new ≡ memory_device.reads self.old }
        ensures crash { AddsNoImage memory_device self.old self.new }
        ensures time { Elapses memory_device self.old self.new }
        ensures cause { HasCause memory_device self.old self.new result }
        ensures writes { CountsFailure memory_device self.old self.new result }

        ensures counted { HasCounted self.old self.new }
        ensures fails { IsTrue (next_fails self.old) → IsErr result }
        ensures kept { OnOk result (self.new.call_log ≡ Synced file ∷ self.old.call_log) }
        ensures failed { OnErr result (self.new.call_log ≡ self.old.call_log) }
    {
        if !next_is_listed(&mut self.made, &self.failing)
            && self.call_log.note(Call::Synced { file }).is_ok()
        {
            return Ok(());
        }
        Err(self.counts.write_failed())
    }

    fn faults(&self) -> u64 {
        self.counts.faults
    }
}
