//! A disk that holds the first write until a reader has come so far, and a gate that holds readers until then.

ghost use Rattle.std.specs.Prelude.{[], false};
ghost use Rattle.arch_disk.specs.Laws.{from_opaque};

use crate::gates::YIELDS;
use arch_disk::{Disk, Failed, FaultCounts, MemDisk};
use outer_traits::gate::Gate;
use std::sync::atomic::{AtomicU64, Ordering};
use std::thread;

/// What the disk and the gate know of each other. Each is 1 once it is so.
#[derive(Drop)]
pub(crate) struct Meeting {
    has_written: AtomicU64,
    /// The first reader has come to its first call, behind that.
    has_come: AtomicU64,
    has_read: AtomicU64,
    gave_up: AtomicU64,
}

impl Meeting {
    pub(crate) fn new() -> Meeting {
        Meeting {
            has_written: AtomicU64::new(0),
            has_come: AtomicU64::new(0),
            has_read: AtomicU64::new(0),
            gave_up: AtomicU64::new(0),
        }
    }

    /// Whether all were held, and each went on since the other had come so far.
    pub(crate) fn have_met(&self) -> bool {
        self.has_written.load(Ordering::SeqCst) == 1
            && self.has_come.load(Ordering::SeqCst) == 1
            && self.has_read.load(Ordering::SeqCst) == 1
            && self.gave_up.load(Ordering::SeqCst) == 0
    }

    fn hold_until(&self, word: &AtomicU64) {
        for _ in 0..YIELDS {
            if word.load(Ordering::SeqCst) == 1 {
                return;
            }
            thread::yield_now();
        }
        self.gave_up.store(1, Ordering::SeqCst);
    }

    fn write_begins(&self) {
        self.has_written.store(1, Ordering::SeqCst);
        self.hold_until(&self.has_read);
    }
}

/// A gate at which a first reader is held before its first call until a write has begun, and another, or the same,
/// until the first one has come. The third call of that one lets the write go on.
#[derive(Drop)]
pub(crate) struct ReadersGate<'a> {
    pub(crate) meeting: &'a Meeting,
    /// The numbers of both among the jobs.
    pub(crate) first: u32,
    pub(crate) reader: u32,
}

impl<'a> ReadersGate<'a> {
    fn first_comes(&self) {
        self.meeting.hold_until(&self.meeting.has_written);
        self.meeting.has_come.store(1, Ordering::SeqCst);
    }
}

impl<'a> Gate for ReadersGate<'a> {
    fn pass(&self, job: u32, turn: u64) {
        if job == self.first && turn == 1 {
            self.first_comes();
        }
        if job == self.reader && turn == 1 {
            self.meeting.hold_until(&self.meeting.has_come);
        }
        if job == self.reader && turn >= 3 {
            self.meeting.has_read.store(1, Ordering::SeqCst);
        }
    }
}

/// Passes each call on to a disk in memory, and tells no contents. Its writes are held.
#[derive(Drop)]
pub(crate) struct HeldDisk<'a> {
    inner: MemDisk,
    counts: FaultCounts,
    meeting: &'a Meeting,
}

impl<'a> HeldDisk<'a> {
    pub(crate) fn new(inner: MemDisk, meeting: &'a Meeting) -> HeldDisk<'a> {
        HeldDisk {
            inner,
            counts: FaultCounts::NONE,
            meeting,
        }
    }
}

impl<'a> Disk for HeldDisk<'a> {
    ghost device = { record {
      is_transparent = false;
      reads = λ _ _. [];
      images = λ _ _. ⊥;
      moment = λ _. 0;
      images_since = λ _ _ _. ⊥;
      fault_count = λ s. s.counts.faults;
      failed_writes = λ s. s.counts.failed_writes;
      now_counts = λ _ _ _ _ left. left;
      only_now = λ _ _ left. left;
      reads_as_image = λ _ transparent. from_opaque transparent;
      lengths_fit = λ _ _ transparent. from_opaque transparent;
    } };

    fn len(&mut self, file: u32) -> Result<u64, Failed> {
        match self.inner.len(file) {
            Ok(len) => Ok(len),
            Err(_) => Err(self.counts.look_failed()),
        }
    }

    fn read_at(&mut self, file: u32, at: u64, into: &mut [u8]) -> Result<(), Failed> {
        let len = self.inner.content(file).len() as u64;
        if at <= len
            && into.len() as u64 <= len - at
            && let Ok(()) = self.inner.read_at(file, at, into)
        {
            return Ok(());
        }
        Err(self.counts.look_failed())
    }

    fn write_at(&mut self, file: u32, at: u64, from: &[u8]) -> Result<(), Failed> {
        self.meeting.write_begins();
        if at <= self.inner.content(file).len() as u64
            && let Ok(()) = self.inner.write_at(file, at, from)
        {
            return Ok(());
        }
        Err(self.counts.write_failed())
    }

    fn cut(&mut self, file: u32, len: u64) -> Result<(), Failed> {
        match self.inner.cut(file, len) {
            Ok(()) => Ok(()),
            Err(_) => Err(self.counts.write_failed()),
        }
    }

    fn sync(&mut self, file: u32) -> Result<(), Failed> {
        match self.inner.sync(file) {
            Ok(()) => Ok(()),
            Err(_) => Err(self.counts.write_failed()),
        }
    }

    fn faults(&self) -> u64 {
        self.counts.faults
    }
}
