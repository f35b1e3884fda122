// The counts of what failed, each up to the last value of its type.
ghost use Rattle.std.specs.Prelude.{◌≡◌};
ghost use Rattle.arch_disk.specs.Disk.{raised};

use crate::Failed;

/// How often a call of a disk has failed, and how often a write, a cut or a sync has.
#[derive(Clone, Copy, Debug, PartialEq, Eq)]
pub struct FaultCounts {
    pub faults: u64,
    pub failed_writes: u64,
}

impl FaultCounts {
    /// Nothing has failed yet.
    pub const NONE: FaultCounts = FaultCounts {
        faults: 0,
        failed_writes: 0,
    };

    /// Counts a look that failed.
    pub fn look_failed(&mut self) -> Failed
        ensures faults { self.new.faults ≡ raised self.old.faults }
        ensures writes { self.new.failed_writes ≡ self.old.failed_writes }
    {
        self.faults = self.faults.saturating_add(1);
        Failed
    }

    /// Counts a write, a cut or a sync that failed.
    pub fn write_failed(&mut self) -> Failed
        ensures faults { self.new.faults ≡ raised self.old.faults }
        ensures writes { self.new.failed_writes ≡ raised self.old.failed_writes }
    {
        self.failed_writes = self.failed_writes.saturating_add(1);
        self.look_failed()
    }
}
