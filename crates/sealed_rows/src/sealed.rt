//! The rows of runs as a source of rows.

ghost use Rattle.std.specs.Prelude.{◌≡◌, IsTrue, true};
ghost use Rattle.arch_types.specs.declared.row.Row.{Row as ARow};
ghost use Rattle.time_text.specs.Day.{day_of};
ghost use Rattle.sealed_rows.specs.Wanted.{is_in_times};

use crate::kept_parts::keep_parts;
use crate::places::find_position;
use crate::reading::read_runs;
use crate::wanted::{Times, Wanted};
use arch_disk::Disk;
use arch_types::key::Key;
use arch_types::row::Rows;
use arch_types::row_fault::RowFault;
use partitions::partition::Partition;
use replay_merge::row_source::RowSource;
use run_files::Run;
use std::alloc::Global;
use std::marker::Model;
use std::slice;

/// Milliseconds of a day.
const DAY: i64 = 86_400_000;

/// The rows that runs have on a disk, which is borrowed. Reading them changes nothing of it.
#[derive(Drop)]
pub struct SealedRows<'a, D>
where
    D: Disk,
{
    runs: &'a [Run],
    disk: &'a mut D,
}

impl<'a, D: Disk> Model for SealedRows<'a, D> {
    ghost use Rattle.std.specs.Prelude.{IsTrue};
    ghost use Rattle.sealed_rows.specs.Sealed.{AreSealed, SealedView, sealed_view};

    ghost Value = { SealedView D };

    ghost view = { λ sealed. sealed_view sealed.runs.now sealed.disk };

    ghost invariant = { λ sealed. IsTrue D.device.is_transparent →
        AreSealed D.device sealed.runs.now sealed.disk.now };
}

/// The times of a day, where they are numbers of milliseconds at all.
fn times_of_day(day: i64) -> Times
    ensures { (row : ARow) → day_of row.key.time ≡ day → is_in_times result row ≡ true }
{
    let Some(from) = day.checked_mul(DAY) else {
        return Times::All;
    };
    let Some(to) = from.checked_add(DAY) else {
        return Times::All;
    };
    Times::Between { from, to }
}

impl<'a, D: Disk> SealedRows<'a, D> {
    ghost use Rattle.sealed_rows.specs.Sealed.{AreSealed, sealed_view};

    /// The rows of runs, which each has on the disk.
    pub fn new(runs: &'a [Run], disk: &'a mut D) -> Self
        requires { IsTrue D.device.is_transparent → AreSealed D.device runs.now disk.old }
        ensures { result ≡ sealed_view runs.now disk.entry }
    {
        SealedRows { runs, disk }
    }

    /// The disk, for who wants to know what became of it.
    pub fn into_disk(self) -> &'a mut D
        ensures same { result.ghost_name ≡ self.entry.disk.ghost_name }
        ensures now { result.now ≡ self.entry.disk.now }
    {
        let SealedRows { runs: _, disk } = self;
        disk
    }
}

impl<'a, D: Disk> RowSource for SealedRows<'a, D> {
    ghost use Rattle.std.proofs.Common.{◌≡◌, ◌∙◌, refl};
    ghost use Rattle.arch_disk.specs.Disk.{OnlyReads};
    ghost use Rattle.arch_disk.proofs.Moments.{looked_none, looked_on};
    ghost use Rattle.sealed_rows.specs.Sealed.{sealed_state};

    ghost state = { λ sealed. sealed_state D.device sealed.runs sealed.disk.now };

    // the disk is only read
    ghost leaves = { λ old new. (new.runs ≡ old.runs) × OnlyReads D.device old.disk.now new.disk.now };

    ghost none_left = { λ sealed. (refl, looked_none D.device sealed.disk.now) };

    ghost both_left = { λ first between last one two.
        (two.0 ∙ one.0, looked_on D.device first.disk.now between.disk.now last.disk.now one.1 two.1) };

    /// Those of the partition's day are read.
    fn rows(
        &mut self,
        alloc: Global,
        table: u8,
        partition: &Partition,
        front: u64,
    ) -> Result<Rows, RowFault> {
        let times = times_of_day(partition.day);
        let wanted = Wanted {
            table,
            times,
            front,
        };
        let rows = read_runs(alloc, self.disk, self.runs, wanted)?;
        Ok(keep_parts(rows, slice::from_ref(partition)))
    }

    /// Those of the range are read, whatever partitions they stand in.
    fn rows_between(
        &mut self,
        alloc: Global,
        table: u8,
        parts: &[Partition],
        from: i64,
        to: i64,
        front: u64,
    ) -> Result<Rows, RowFault> {
        let times = Times::Between { from, to };
        let wanted = Wanted {
            table,
            times,
            front,
        };
        let rows = read_runs(alloc, self.disk, self.runs, wanted)?;
        Ok(keep_parts(rows, parts))
    }

    fn range(
        &mut self,
        alloc: Global,
        table: u8,
        from: i64,
        to: i64,
        front: u64,
    ) -> Result<Rows, RowFault> {
        let times = Times::Between { from, to };
        let wanted = Wanted {
            table,
            times,
            front,
        };
        read_runs(alloc, self.disk, self.runs, wanted)
    }

    fn position(&mut self, alloc: Global, table: u8, key: Key) -> Result<Option<u64>, RowFault> {
        find_position(alloc, self.disk, self.runs, table, key)
    }
}
