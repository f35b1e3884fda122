//! The segment set of packets.

ghost use Rattle.std.specs.Prelude.{◌≡◌, ◌<◌, ◌++◌, [], ℕ, map, IfOk, OnOk};
ghost use Rattle.std.specs.List.{AllByRecursion, filter_map};
ghost use Rattle.std.specs.List.Sorted.{IsStrictlySortedBy};
ghost use Rattle.intervals.specs.Interval.{interval_of};
ghost use Rattle.arch_types.specs.Order.{key_cmp};
ghost use Rattle.container_extract.specs.Extraction.{cell_of};
ghost use Rattle.segment_codec.specs.KeyColumn.{IsKey};
ghost use Rattle.param_segments.specs.Cells.{set_cells};
ghost use Rattle.param_segments.specs.Extracted.{IsSetOf, extracted_rows, kept_row};
ghost use Rattle.param_segments.specs.Rows.{AreSetRows, set_row};

use crate::builder::SetBuilder;
use crate::set::SegSet;
use arch_types::key::Key;
use arch_types::row::{Row, Rows};
use arch_types::steps::Steps;
use container_extract::Extractor;
use container_extract::values::RawValue;
use intervals::{Exponent, Interval};
use mdb_model::Mdb;
use std::alloc::{AllocError, Global};
use std::marker::Brand;
use std::sync::ledger::{Blank, Ledger};

/// Adds the row of a key and values, where there is a value.
fn put_values(
    builder: &mut SetBuilder,
    alloc: Global,
    key: Key,
    values: &[RawValue],
) -> Result<(), AllocError>
    requires { IsKey key → AreSetRows (builder.old ++ kept_row (set_row key values.now)) }
    ensures { OnOk result (builder.new ≡ builder.old ++ kept_row (set_row key values.now)) }
{
    if values.is_empty() {
        return Ok(());
    }
    builder.push(alloc, key, values)
}

/// Adds the rows that packets give under a database. Nobody counts the steps.
fn put_extracted<L: Ledger>(
    alloc: Global,
    blank: Blank,
    builder: &mut SetBuilder,
    rows: &[Row],
    mdb: &Mdb,
) -> Result<(), AllocError>
    requires name { blank.name ≡ L.name }
    requires parts { blank.parts ≡ L.parts }
    requires some { 0 < blank.parts }
    requires empty { builder.old ≡ [] }
    requires rising { IsStrictlySortedBy key_cmp (map (λ row. row.key) rows.now) }
    ensures { OnOk result (builder.new ≡ extracted_rows mdb.now rows.now) }
{
    mdb.is_sound();
    let (book, share) = blank.open::<L>();
    let mut steps = Steps::new(book, share);
    let mut extractor = Extractor::new(alloc)?;
    for row in rows {
        builder.rows_are_sound();
        let extracted = extractor.extract(mdb, row.packet.as_slice(), &mut steps);
        put_values(builder, alloc, row.key, extracted.values.as_slice())?;
    }
    Ok(())
}

impl SegSet {
    /// The set of the rows whose packets have a value under a database. The rows are of the interval, in the order of
    /// their keys, no key twice.
    pub fn build(
        alloc: Global,
        _interval: Interval,
        _exponent: Exponent,
        rows: &Rows,
        mdb: &Mdb,
    ) -> Result<SegSet, AllocError>
        requires rising { IsStrictlySortedBy key_cmp (map (λ row. row.key) rows.now) }
        requires inside { AllByRecursion (λ row. interval_of _exponent row.key.time ≡ _interval.0) rows.now }
        ensures rows { IfOk result (λ set. set ≡ extracted_rows mdb.now rows.now) }
        ensures sound { IfOk result (IsSetOf mdb.now _exponent _interval.0) }
        ensures cells { IfOk result (λ set. (q : ℕ) →
            set_cells mdb.now q set ≡ filter_map (cell_of mdb.now q) rows.now) }
    {
        // the interval and its exponent stand in the contract alone: nothing that is built depends on them
        mdb.is_sound();
        let mut builder = SetBuilder::with_capacity(alloc, rows.len());
        put_extracted::<Brand>(alloc, Blank::new(1), &mut builder, rows.as_slice(), mdb)?;
        builder.rows_are_sound();
        builder.set(alloc)
    }
}
