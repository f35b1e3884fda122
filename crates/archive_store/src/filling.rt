//! Late intervals and their fills.

ghost use Rattle.std.specs.Prelude.{◌≡◌, ◌↔◌, ◌<◌, ◌≤◌, [], ◌∷◌, ◌++◌, length, IfOk, IfErr, IfSome, OnErr, OnOk, IsTrue, Some};
ghost use Rattle.std.specs.Arc.{arc_value};
ghost use Rattle.std.specs.List.{AllByRecursion};
ghost use Rattle.arch_types.specs.Table.{range_of};
ghost use Rattle.history_items.specs.Late.{IsLate};
ghost use Rattle.history_items.specs.declared.fills.Fill.TheVariants as noted;
ghost use Rattle.intervals.specs.declared.interval.Interval.{Interval as AnInterval};
ghost use Rattle.intervals.specs.Interval.{interval_end, interval_start, HasClockTime};
ghost use Rattle.interval_fills.specs.Steps.{IsNextToFill, all_freed, freed};
ghost use Rattle.replay_merge.specs.RowSource.{IsRowFault, UsedRowSource};
ghost use Rattle.store_fills.specs.Built.{IsTaskRows};

use crate::history_source::HistorySource;
use crate::store::Store;
use arch_disk::Disk;
use arch_types::row::Rows;
use arch_types::row_fault::RowFault;
use archive_history::history::TM;
use fill_tracker::FillTracker;
use intervals::{Exponent, Interval};
use mdb_model::Mdb;
use refusals::Refusal;
use replay_merge::row_source::RowSource;
use std::alloc::{AllocError, Global};
use std::sync::Arc;
use store_fills::FillTask;

/// No row, with room for so many.
pub(crate) fn no_rows(alloc: Global, count: usize) -> Result<Rows, AllocError>
    ensures { IfOk result (λ rows. rows ≡ []) }
{
    Ok(Rows::from_vec(Vec::with_capacity(alloc, count)?))
}

/// The rows of table `tm` in an interval with a position below a front, in the order of their keys.
pub(crate) fn rows_of<R: RowSource>(
    alloc: Global,
    source: &mut R,
    exponent: Exponent,
    interval: Interval,
    front: u64,
) -> Result<Rows, RowFault>
    requires { HasClockTime exponent interval }
    ensures told { IfOk result (λ rows. IfSome (R.state source.old).history (λ history.
        rows ≡ range_of 0 (interval_start exponent interval) (interval_end exponent interval) (history front))) }
    ensures given { IfOk result (AllByRecursion (R.state source.old).may_give) }
    ensures in_order { IfOk result (IsTaskRows exponent interval) }
    ensures refused { IfErr result (IsRowFault (R.state source.old) (R.state source.new)) }
    ensures no_fault { OnOk result ((R.state source.new).faults ≡ (R.state source.old).faults) }
    ensures source { UsedRowSource (R.state source.old) (R.state source.new) }
    ensures left { R.leaves source.old source.new }
{
    source.range(
        alloc,
        TM,
        interval.start_at(exponent),
        interval.end_at(exponent),
        front,
    )
}

/// Takes all memory that a fill of an interval over the rows below a front needs to begin and to end, and makes its task.
fn prepare_task<R: RowSource>(
    alloc: Global,
    source: &mut R,
    mdb: &Arc<Mdb, Global>,
    tracker: &mut FillTracker,
    exponent: Exponent,
    interval: Interval,
    front: u64,
) -> Result<FillTask, RowFault>
    requires { HasClockTime exponent interval }
    ensures at { IfOk result (λ task. (task.interval ≡ interval) × (task.base ≡ front) × (task.exponent ≡ exponent)) }
    ensures told { IfOk result (λ task. IfSome (R.state source.old).history (λ history.
        task.rows ≡ range_of 0 (interval_start exponent interval) (interval_end exponent interval) (history front))) }
    ensures in_order { IfOk result (λ task. IsTaskRows task.exponent task.interval task.rows) }
    ensures mdb { IfOk result (λ task. arc_value task.mdb ≡ arc_value mdb.now) }
    ensures room { OnOk result ((2 ≤ tracker.new.room) × (1 ≤ tracker.new.flight_room)) }
    ensures same { (tracker.new.fills ≡ tracker.old.fills) × (tracker.new.marks ≡ tracker.old.marks) }
    ensures refused { IfErr result (IsRowFault (R.state source.old) (R.state source.new)) }
    ensures no_fault { OnOk result ((R.state source.new).faults ≡ (R.state source.old).faults) }
    ensures left { R.leaves source.old source.new }
{
    tracker.reserve_flight()?;
    Ok(FillTask {
        interval,
        exponent,
        base: front,
        rows: rows_of(alloc, source, exponent, interval, front)?,
        mdb: Arc::try_clone(mdb)?,
    })
}

impl<D: Disk> Store<D> {
    ghost use Rattle.archive_store.specs.UnreadRows.{IsLeftByRefusal, IsReadRefusal};
    ghost use Rattle.archive_store.specs.StoreView.{OnlyAppends};
    ghost use Rattle.archive_store.specs.Tasks.{IsFillBegun, machine_state};

    /// Whether an interval has rows that no fill has seen. Takes no memory.
    pub fn is_late(&self, interval: Interval) -> bool
        ensures { IsTrue result ↔ IsLate self.now.exponent interval self.now.history self.now.fills }
    {
        self.tracker.is_late(interval)
    }

    /// Begins a fill of the least late interval that isn't in flight. A place for the flight's end is kept from here.
    pub fn begin(&mut self, alloc: Global) -> Result<Option<FillTask>, Refusal>
        // Ok: the task of that interval, over the whole history; none, where each late interval is in flight.
        ensures begun { IfOk result (IsFillBegun D.device self.old self.new) }

        // Its rows are in the order of their keys, no key twice, in the interval, whatever the disk tells.
        ensures in_order { IfOk result (λ begun. IfSome begun (λ task.
            IsTaskRows task.exponent task.interval task.rows)) }

        // Refused, where its rows aren't read, all but a disk that was read, and its fault, is as it was.
        ensures late { OnErr result ((interval : AnInterval)
            × IsNextToFill self.old.exponent (machine_state self.old) (Some interval)) }
        ensures refused { IfErr result (IsReadRefusal D.device self.old self.new) }
        ensures same { IfErr result (IsLeftByRefusal D.device self.old self.new) }
        ensures grows { OnlyAppends self.old self.new }
    {
        let Some(interval) = self.tracker.next() else {
            return Ok(None);
        };
        let mut source = HistorySource::of(&self.head, &self.history);
        let task = prepare_task(
            alloc,
            &mut source,
            &self.mdb,
            &mut self.tracker,
            self.history.exponent(),
            interval,
            self.history.len() as u64,
        )?;
        self.tracker.begin(interval, task.base);
        Ok(Some(task))
    }

    /// The flight of an interval ends without a fill, where it is in flight. Takes no memory.
    pub(crate) fn give_up(&mut self, interval: Interval)
        ensures { self.new ≡ record self.old { fills = freed interval self.old.fills } }
    {
        self.tracker.free(interval);
    }

    /// Gives a task up: the flight of its interval ends without a fill, where it is in flight. Takes no memory.
    pub fn abandon(&mut self, task: FillTask)
        ensures freed { self.new ≡ record self.old { fills = freed task.interval self.old.fills } }
        ensures grows { OnlyAppends self.old self.new }
    {
        self.give_up(task.interval);
    }

    /// Ends each flight without a fill. Takes no memory.
    pub fn settle(&mut self)
        ensures freed { self.new ≡ record self.old { fills = all_freed self.old.fills } }
        ensures grows { OnlyAppends self.old self.new }
    {
        self.tracker.settle();
    }

    /// Notes that what is published of the archive was published for the last time. Refused for want of memory, it leaves
    /// the store as it was.
    pub fn note_closed(&mut self) -> Result<(), AllocError>
        ensures noted { OnOk result (self.new ≡ record self.old { fills = self.old.fills ++ noted.Closed ∷ [] }) }
        ensures refused { OnErr result (self.new ≡ self.old) }
        ensures grows { OnlyAppends self.old self.new }
    {
        self.tracker.reserve()?;
        self.tracker.note_closed();
        Ok(())
    }

    /// The length of the fill list. Takes no memory.
    pub fn fill_len(&self) -> u64
        ensures { result ≡ length self.now.fills }
    {
        self.tracker.as_slice().len() as u64
    }
}
