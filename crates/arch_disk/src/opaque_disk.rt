// A disk over one in memory that is opaque, as a disk over real files would.
ghost use Rattle.std.specs.Prelude.{◌≡◌, [], false};
ghost use Rattle.arch_disk.specs.Laws.{from_opaque};

use crate::{Disk, Failed, FaultCounts, MemDisk};

/// Passes each call on. A range that doesn't lie in the file, which no contract rules out here, is a fault.
#[derive(Drop)]
pub struct OpaqueDisk {
    inner: MemDisk,
    counts: FaultCounts,
}

impl OpaqueDisk {
    pub fn new(inner: MemDisk) -> OpaqueDisk
        ensures { result.inner ≡ inner }
    {
        OpaqueDisk {
            inner,
            counts: FaultCounts::NONE,
        }
    }

    /// The disk that the calls were passed on to.
    pub fn into_inner(self) -> MemDisk
        ensures { result ≡ self.inner }
    {
        self.inner
    }
}

impl Disk for OpaqueDisk {
    ghost device = { record {
      is_transparent = false;
      reads = λ _ _. [];
      images = λ _ _. ⊥;
      moment = λ _. 0;
      images_since = λ _ _ _. ⊥;
      fault_count = λ s. s.counts.faults;
      failed_writes = λ s. s.counts.failed_writes;
      now_counts = λ _ _ _ _ left. left;
      only_now = λ _ _ left. left;
      reads_as_image = λ _ transparent. from_opaque transparent;
      lengths_fit = λ _ _ transparent. from_opaque transparent;
    } };

    fn len(&mut self, file: u32) -> Result<u64, Failed> {
        match self.inner.len(file) {
            Ok(len) => Ok(len),
            Err(_) => Err(self.counts.look_failed()),
        }
    }

    fn read_at(&mut self, file: u32, at: u64, into: &mut [u8]) -> Result<(), Failed> {
        let len = self.inner.content(file).len() as u64;
        if at <= len
            && into.len() as u64 <= len - at
            && let Ok(()) = self.inner.read_at(file, at, into)
        {
            return Ok(());
        }
        Err(self.counts.look_failed())
    }

    fn write_at(&mut self, file: u32, at: u64, from: &[u8]) -> Result<(), Failed> {
        if at <= self.inner.content(file).len() as u64
            && let Ok(()) = self.inner.write_at(file, at, from)
        {
            return Ok(());
        }
        Err(self.counts.write_failed())
    }

    fn cut(&mut self, file: u32, len: u64) -> Result<(), Failed> {
        match self.inner.cut(file, len) {
            Ok(()) => Ok(()),
            Err(_) => Err(self.counts.write_failed()),
        }
    }

    fn sync(&mut self, file: u32) -> Result<(), Failed> {
        match self.inner.sync(file) {
            Ok(()) => Ok(()),
            Err(_) => Err(self.counts.write_failed()),
        }
    }

    fn faults(&self) -> u64 {
        self.counts.faults
    }
}
