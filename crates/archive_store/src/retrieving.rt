//! What a retrieval needs of the store.

ghost use Rattle.std.specs.Prelude.{◌≡◌, ◌≤◌, ◌<ℤ◌, ◌^◌, ◌++◌, [], ◌∷◌, map, IsSome, IsTrue, IfOk, IfErr, OnOk, length};
ghost use Rattle.std.specs.Arc.{arc_value};
ghost use Rattle.std.specs.List.{AllByRecursion};
ghost use Rattle.refusals.specs.declared.refusal.Refusal.TheVariants.{OutOfMemory};
ghost use Rattle.history_items.specs.Databases.{database_in, names_in};
ghost use Rattle.history_items.specs.Late.{last_in};
ghost use Rattle.interval_walks.specs.Turns.{CoverRange, IntervalsRise};
ghost use Rattle.param_segments.specs.Plans.{HasValuesOf, part_interval, rows_of_parts};
ghost use Rattle.archive_store.specs.Plans.{IsPlan, IsPlanPart, IsRangeInterval, plan_intervals};
ghost use Rattle.archive_images.specs.Stands.{IsSoundImage};

use crate::finding::FoundRequest;
use crate::store::Store;
use arch_disk::Disk;
use arch_types::name::{Name, Names};
use arch_types::octets::Octets;
use arch_types::row_fault::RowFault;
use asks::Request;
use interval_walks::intervals_meeting;
use intervals::Interval;
use mdb_model::Mdb;
use param_segments::{Part, Parts, Plan};
use refusals::Refusal;
use std::alloc::{AllocError, Global};
use std::sync::Arc;

/// The names of the containers, in their order.
fn container_names(alloc: Global, mdb: &Mdb) -> Result<Names, AllocError>
    ensures { IfOk result (λ names. names ≡ map (λ c. c.name) mdb.now.containers) }
{
    let mut names = Names::new(alloc);
    for container in mdb.container_list() {
        names.push(Name::copy_of(alloc, container.name.as_bytes())?)?;
    }
    Ok(names)
}

/// One part more.
fn add_part(parts: &mut Vec<Part>, part: Part) -> Result<(), AllocError>
    ensures { OnOk result (parts.new.items ≡ parts.old.items ++ part ∷ []) }
{
    parts.push(part)?;
    Ok(())
}

impl<D: Disk> Store<D> {
    ghost use Rattle.archive_store.specs.Pages.{TellsRows};
    ghost use Rattle.archive_store.specs.Plans.{IsPlanOver, late_rows_of_range};
    ghost use Rattle.archive_store.specs.UnreadRows.{IsLeftByRead, IsReadFault};

    /// The intervals that a retrieval reads: those that have rows of table `tm` and meet the request's range, in the
    /// order of their numbers. The one error is want of memory.
    fn range_intervals(&self, alloc: Global, request: &Request) -> Result<Vec<Interval>, AllocError>
        ensures rising { IfOk result (λ intervals. IntervalsRise intervals.items) }
        ensures meets { IfOk result (λ intervals. AllByRecursion
            (IsRangeInterval self.now.exponent self.now.history request.now.from request.now.to) intervals.items) }
        ensures cover { IfOk result (λ intervals. request.now.from <ℤ request.now.to →
            CoverRange self.now.exponent intervals.items request.now.from request.now.to self.now.history) }
    {
        if request.from >= request.to {
            return Ok(Vec::new(alloc));
        }
        intervals_meeting(
            alloc,
            &self.tracker,
            request.from,
            request.to,
            self.history.exponent(),
        )
    }

    /// What a plan has of an interval that has rows of table `tm`: its set, where it isn't late, else its rows.
    fn part_of(&mut self, alloc: Global, interval: Interval) -> Result<Part, RowFault>
        requires { IsSome (last_in self.old.exponent interval self.old.history) }
        ensures part { IfOk result (IsPlanPart D.device self.old) }
        ensures interval { IfOk result (λ part. part_interval part ≡ interval.0) }
        ensures refused { IfErr result (IsReadFault D.device self.old self.new) }
        ensures same { IsLeftByRead D.device self.old self.new result }
    {
        self.is_kept();
        let Some(set) = self.segments(interval)? else {
            let rows = self.interval_rows(alloc, interval)?;
            return Ok(Part::Rows { interval, rows });
        };
        Ok(Part::Set { interval, set })
    }

    /// What a plan has of intervals that have rows of table `tm`, in their order.
    fn parts_of(&mut self, alloc: Global, intervals: &[Interval]) -> Result<Parts, RowFault>
        requires { AllByRecursion (λ i. IsSome (last_in self.old.exponent i self.old.history)) intervals.now }
        ensures each { IfOk result (AllByRecursion (IsPlanPart D.device self.old)) }
        ensures intervals { IfOk result (λ parts. plan_intervals parts ≡ intervals.now) }
        ensures refused { IfErr result (IsReadFault D.device self.old self.new) }
        ensures same { IsLeftByRead D.device self.old self.new result }
    {
        let mut parts = Vec::new(alloc);
        for interval in intervals {
            let part = self.part_of(alloc, *interval)?;
            add_part(&mut parts, part)?;
        }
        Ok(Parts::from_vec(parts))
    }

    /// The plan of a request over the whole history, with the database in force.
    fn planned(
        &mut self,
        alloc: Global,
        request: &Request,
        mdb: Arc<Mdb, Global>,
    ) -> Result<Plan, RowFault>
        requires { arc_value mdb ≡ database_in self.old.head.mdb self.old.history }
        ensures planned { IfOk result (IsPlan D.device self.old request.now.from request.now.to) }
        ensures over { IsTrue D.device.is_transparent → IsSoundImage (D.device.reads self.old.opened) →
            IfOk result (IsPlanOver self.old.head self.old.history request.now.from request.now.to) }
        ensures steps { TellsRows D.device self.old → IfOk result (λ plan. length (rows_of_parts plan.parts)
            ≤ length (late_rows_of_range self.old.exponent self.old.history self.old.fills request.now.from
            request.now.to)) }
        ensures refused { IfErr result (IsReadFault D.device self.old self.new) }
        ensures same { IsLeftByRead D.device self.old self.new result }
    {
        self.is_kept();
        let front = self.front();
        let exponent = self.exponent();
        let intervals = self.range_intervals(alloc, request)?;
        let parts = self.parts_of(alloc, intervals.as_slice())?;
        Ok(Plan {
            front,
            exponent,
            mdb,
            parts,
        })
    }

    /// What a retrieval reads: the sets of the intervals that its range meets, and the rows of those that are late. The
    /// request was found in the database in force, which the plan shares.
    pub fn plan(&mut self, alloc: Global, found: &FoundRequest) -> Result<Plan, RowFault>
        requires in_force { arc_value found.now.mdb ≡ database_in self.old.head.mdb self.old.history }
        ensures planned { IfOk result (IsPlan D.device self.old found.now.request.from found.now.request.to) }

        // Whatever the disk reads as, a set's values are of the database in force.
        ensures values { IfOk result (λ plan. AllByRecursion
            (HasValuesOf (database_in self.old.head.mdb self.old.history)) plan.parts) }

        // Where the fills of the disk were sound when it was opened, the parts are over the rows of the range.
        ensures over { IsTrue D.device.is_transparent → IsSoundImage (D.device.reads self.old.opened) → IfOk result
            (IsPlanOver self.old.head self.old.history found.now.request.from found.now.request.to) }

        // Rows are left to extract of late intervals that meet the range alone.
        ensures steps { TellsRows D.device self.old → IfOk result (λ plan. length (rows_of_parts plan.parts)
            ≤ length (late_rows_of_range self.old.exponent self.old.history self.old.fills found.now.request.from
            found.now.request.to)) }
        ensures refused { IfErr result (IsReadFault D.device self.old self.new) }
        ensures same { IsLeftByRead D.device self.old self.new result }
    {
        let mdb = Arc::try_clone(&found.mdb)?;
        self.planned(alloc, &found.request, mdb)
    }

    /// How many packet names the history has: at most 65,536.
    pub fn name_count(&self) -> usize
        ensures count { result ≡ length (names_in self.now.head.mdb self.now.history) }
        ensures few { result ≤ 2 ^ 16 }
    {
        self.head.mdb.containers() as usize
    }

    /// The packet names of the history, in the order of their numbers.
    pub fn names(&self, alloc: Global) -> Result<Names, Refusal>
        ensures names { IfOk result (λ names. names ≡ names_in self.now.head.mdb self.now.history) }
        ensures only { IfErr result (λ e. e ≡ OutOfMemory) }
    {
        match container_names(alloc, &self.head.mdb) {
            Ok(names) => Ok(names),
            Err(_) => Err(Refusal::OutOfMemory),
        }
    }
}
