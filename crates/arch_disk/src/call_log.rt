// The calls of a disk in memory that changed something, and what its files read as after them.
ghost use Rattle.std.specs.Prelude.{◌≡◌, ◌+◌, ◌^◌, ◌≤◌, ◌∷◌, [], ℕ, List, length, reverse, OnOk, OnErr, IfOk};

use crate::files::Files;
use std::alloc::{AllocError, Global};
use std::marker::Model;

/// No write of a disk in memory ends past this octet.
const LONGEST: u64 = 1 << 62;

/// A write that was asked for: these octets, from octet `at` of a file on.
#[derive(Drop)]
pub struct Write {
    pub file: u32,
    pub at: u64,
    pub octets: Vec<u8>,
    ghost short: { at + length octets.items ≤ 2 ^ 62 },
}

impl Write {
    /// Err where memory is wanting, or the write would end past the longest length.
    pub fn copy(alloc: Global, file: u32, at: u64, from: &[u8]) -> Result<Write, AllocError>
        ensures { IfOk result (λ write. (write.file ≡ file) × (write.at ≡ at) × (write.octets.items ≡ from.now)) }
    {
        if at > LONGEST || from.len() as u64 > LONGEST - at {
            return Err(AllocError);
        }
        let octets = from.to_vec(alloc)?;
        Ok(Write { file, at, octets })
    }
}

/// A call that was made. A look at a file, and a sync that failed, change nothing and are not kept.
#[derive(Drop)]
pub enum Call {
    Wrote(Write),
    FailedWrite(Write),
    Cut { file: u32, len: u64 },
    FailedCut { file: u32, len: u64 },
    Synced { file: u32 },
}

/// Seen as the list of the calls, the newest first.
#[derive(Drop)]
pub(crate) struct CallLog {
    calls: Vec<Call>,
    files: Files,
}

impl Model for CallLog {
    ghost use Rattle.std.specs.Prelude.{◌≡◌, ℕ, List, reverse};
    ghost use Rattle.arch_disk.specs.declared.call_log.Call.{Call};
    ghost use Rattle.arch_disk.specs.Files.{image_in};
    ghost use Rattle.arch_disk.specs.CallLog.{reads_of};

    ghost Value = { List Call };

    ghost view = { λ h. reverse h.calls.items };

    ghost invariant = { λ h. (f : ℕ) → image_in h.files f ≡ reads_of (reverse h.calls.items) f };
}

impl CallLog {
    ghost use Rattle.arch_disk.specs.declared.call_log.Call.{Call as ACall};
    ghost use Rattle.arch_disk.specs.declared.call_log.Call.TheVariants.{Wrote, Cut, Synced};
    ghost use Rattle.arch_disk.specs.declared.call_log.Write.{Write as AWrite};
    ghost use Rattle.arch_disk.specs.Files.{image_in};
    ghost use Rattle.arch_disk.specs.CallLog.{reads_of, first_calls, HoldsOnly};

    pub fn new(alloc: Global) -> CallLog
        ensures { result ≡ [] }
    {
        CallLog {
            calls: Vec::new(alloc),
            files: Files::new(alloc),
        }
    }

    /// What a file reads as.
    pub fn content(&self, file: u32) -> &[u8]
        ensures { result.now ≡ reads_of self.now file }
    {
        self.files.content(file)
    }

    /// Does a write, and keeps it.
    pub fn write(&mut self, write: Write) -> Result<(), AllocError>
        ensures ok { OnOk result (self.new ≡ Wrote write ∷ self.old) }
        ensures err { OnErr result (self.new ≡ self.old) }
    {
        self.calls.reserve(1)?;
        self.files.write(write.file, write.at, &write.octets)?;
        self.calls.push_reserved(Call::Wrote(write));
        Ok(())
    }

    /// Does a cut, and keeps it.
    pub fn cut(&mut self, file: u32, len: u64) -> Result<(), AllocError>
        ensures ok { OnOk result (self.new ≡ Cut file len ∷ self.old) }
        ensures err { OnErr result (self.new ≡ self.old) }
    {
        self.calls.reserve(1)?;
        self.files.cut(file, len);
        self.calls.push_reserved(Call::Cut { file, len });
        Ok(())
    }

    /// Keeps a call after which the files read as before.
    pub fn note(&mut self, call: Call) -> Result<(), AllocError>
        requires { (past : List ACall) (f : ℕ) → reads_of (call ∷ past) f ≡ reads_of past f }
        ensures ok { OnOk result (self.new ≡ call ∷ self.old) }
        ensures err { OnErr result (self.new ≡ self.old) }
    {
        self.calls.push(call)?;
        Ok(())
    }

    /// The first calls, the oldest first.
    pub fn first(&self, moment: usize) -> &[Call]
        requires { moment ≤ length self.now }
        ensures { reverse result.now ≡ first_calls moment self.now }
    {
        &self.calls[..moment]
    }

    /// The number of the calls.
    pub fn len(&self) -> usize
        ensures { result ≡ length self.now }
    {
        self.calls.len()
    }

    // Makes these octets all that a file holds, synced.
    fn write_synced(&mut self, file: u32, octets: &[u8]) -> Result<(), AllocError>
        ensures { OnOk result ((write : AWrite) × (write.file ≡ file) × (write.at ≡ 0) ×
            (write.octets.items ≡ octets.now) × (self.new ≡ Synced file ∷ Wrote write ∷ self.old)) }
    {
        let write = Write::copy(*self.calls.allocator(), file, 0, octets)?;
        self.write(write)?;
        self.note(Call::Synced { file })?;
        Ok(())
    }

    /// A log of calls after which the files hold this, and all of it is synced.
    pub fn holding(alloc: Global, files: &Files) -> Result<CallLog, AllocError>
        ensures { IfOk result (λ call_log. HoldsOnly call_log (image_in files.now)) }
    {
        let mut call_log = CallLog::new(alloc);
        for i in 0..files.places() {
            let file = files.number(i);
            call_log.write_synced(file, files.content(file))?;
        }
        Ok(call_log)
    }
}
