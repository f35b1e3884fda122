//! Fills that are built.

ghost use Rattle.std.specs.Prelude.{◌≡◌, ◌↔◌, IsTrue, OnOk, IfOk, IfErr};
ghost use Rattle.std.specs.Arc.{arc_value};
ghost use Rattle.field_codec.specs.declared.entry.Entry.TheVariants as entries;
ghost use Rattle.field_codec.specs.Entries.{IsArchiveEntry};
ghost use Rattle.field_codec.specs.Spelling.{entry_octets};
ghost use Rattle.param_segments.specs.Extracted.{IsSetOf, extracted_rows};
ghost use Rattle.param_segments.specs.Octets.{rows_in_octets, set_octets};
ghost use Rattle.store_fills.specs.Filled.{HoldsRows};
ghost use Rattle.store_fills.specs.LastFills.{fill_over, filling_of};
ghost use Rattle.store_fills.specs.Built.{IsTaskRows};

use crate::last_fills::LastFill;
use crate::task::FillTask;
use arch_types::row::Rows;
use disk_journal::Frame;
use field_codec::{fill_entry_len, put_fill};
use intervals::{Exponent, Interval};
use mdb_model::Mdb;
use param_segments::SegSet;
use std::alloc::{AllocError, Global};
use std::marker::Model;
use std::sync::Arc;

/// A fill that is built: its set, with the database and the exponent that it is of, by which an install knows its own,
/// and the record that stands for it on a disk, so that an install copies nothing.
#[derive(Drop)]
pub struct Filled {
    interval: Interval,
    exponent: Exponent,
    base: u64,
    mdb: Mdb,
    set: Arc<SegSet, Global>,
    frame: Frame,
}

impl Model for Filled {
    ghost use Rattle.std.specs.Arc.{arc_value};
    ghost use Rattle.store_fills.specs.Built.{BuiltFill, IsBuilt, built_fill};

    ghost Value = { BuiltFill };

    ghost view = { λ f. built_fill f.interval f.exponent f.base f.mdb (arc_value f.set) };

    ghost invariant = { λ f. IsBuilt f.interval f.exponent f.base f.mdb (arc_value f.set) f.frame };
}

/// The record of a fill. One that is longer than a record may be is refused like want of memory (D-247).
fn fill_frame(alloc: Global, interval: Interval, base: u64, set: &[u8]) -> Result<Frame, AllocError>
    ensures spelled { IfOk result (λ frame. frame ≡ entry_octets (entries.Fill interval base set.now)) }
    ensures fits { OnOk result (IsArchiveEntry (entries.Fill interval base set.now)) }
{
    let Ok(size) = u32::try_from(fill_entry_len(set)) else {
        return Err(AllocError);
    };
    let mut octets = Frame::begin(alloc, size)?;
    put_fill(&mut octets, interval, base, set)?;
    Frame::finish(octets)
}

/// The fill of an interval by its rows among the first `base` items of a history. It keeps the database.
fn build(
    alloc: Global,
    interval: Interval,
    exponent: Exponent,
    base: u64,
    rows: &Rows,
    mdb: &Mdb,
) -> Result<Filled, AllocError>
    requires { IsTaskRows exponent interval rows.now }
    ensures place { IfOk result (λ f. (f.interval ≡ interval) × (f.base ≡ base)) }
    ensures origin { IfOk result (λ f. (f.exponent ≡ exponent) × (f.mdb ≡ mdb.now)) }
    ensures rows { IfOk result (λ f. f.set ≡ extracted_rows mdb.now rows.now) }
    ensures fits { IfOk result (λ f. IsSetOf mdb.now exponent interval.0 f.set) }
    ensures holds { IfOk result (λ f. HoldsRows mdb.now f.set rows.now) }
{
    let set = SegSet::build(alloc, interval, exponent, rows, mdb)?;
    let octets = set.to_bytes()?;
    let frame = fill_frame(alloc, interval, base, octets.as_slice())?;
    let kept = mdb.copy()?;
    Ok(Filled {
        interval,
        exponent,
        base,
        mdb: kept,
        set: Arc::new(alloc, set)?,
        frame,
    })
}

impl Filled {
    /// Builds the set of a task under its database, and spells its record. Needs no store.
    ///
    /// The one error is want of memory, a record of 2^32 octets or more being one. It hands the task back, which its
    /// store can then give up.
    pub fn of(alloc: Global, task: FillTask, mdb: &Mdb) -> Result<Filled, (FillTask, AllocError)>
        requires rows { IsTaskRows task.exponent task.interval task.rows }
        requires mdb { mdb.now ≡ arc_value task.mdb }
        ensures of_task { IfOk result (λ f. (f.interval ≡ task.interval) × (f.base ≡ task.base)) }
        ensures origin { IfOk result (λ f. (f.exponent ≡ task.exponent) × (f.mdb ≡ arc_value task.mdb)) }
        ensures rows { IfOk result (λ f. f.set ≡ extracted_rows mdb.now task.rows) }
        ensures fits { IfOk result (λ f. IsSetOf mdb.now task.exponent task.interval.0 f.set) }
        ensures holds { IfOk result (λ f. HoldsRows mdb.now f.set task.rows) }
        ensures back { IfErr result (λ e. e.0 ≡ task) }
    {
        let Ok(filled) = build(
            alloc,
            task.interval,
            task.exponent,
            task.base,
            &task.rows,
            mdb,
        ) else {
            return Err((task, AllocError));
        };
        Ok(filled)
    }

    /// The interval that it fills.
    pub fn interval(&self) -> Interval
        ensures { result ≡ self.now.interval }
    {
        self.interval
    }

    /// How many items of the history it looked at.
    pub fn base(&self) -> u64
        ensures { result ≡ self.now.base }
    {
        self.base
    }

    /// Whether it is of this database, by the same items, and of this exponent.
    pub fn is_of(&self, mdb: &Mdb, exponent: Exponent) -> bool
        ensures { IsTrue result ↔ ((self.now.mdb ≡ mdb.now) × (self.now.exponent ≡ exponent)) }
    {
        self.exponent == exponent && self.mdb.equals(mdb)
    }

    /// The record that is appended, and the fill that is kept.
    pub fn into_parts(self) -> (Frame, LastFill)
        ensures frame { result.0 ≡ entry_octets (entries.Fill self.interval self.base (set_octets self.set)) }
        ensures fits { IsArchiveEntry (entries.Fill self.interval self.base (set_octets self.set)) }
        ensures fill { filling_of result.1 ≡ fill_over self.base self.set }
        ensures value { rows_in_octets (set_octets self.set) ≡ self.set }
        ensures inside { IsSetOf self.mdb self.exponent self.interval.0 self.set }
    {
        let Filled {
            interval: _,
            exponent: _,
            base,
            mdb: _,
            set,
            frame,
        } = self;
        let fill = LastFill { base, set };
        (frame, fill)
    }
}
