//! A source of rows in memory.

ghost use Rattle.std.specs.Prelude.{◌≡◌, ◌&&◌, ℕ, List, [], filter, take, true, IfOk, IfErr, IfSome, OnOk};
ghost use Rattle.arch_types.specs.declared.row.Row.{Row};
ghost use Rattle.std.specs.List.{list_any};
ghost use Rattle.arch_types.specs.Packet.{IsPacket};
ghost use Rattle.arch_types.specs.History.{has_key, is_duplicate_of, is_in_table};
ghost use Rattle.arch_types.specs.Table.{range_of};
ghost use Rattle.replay_merge.specs.RowSource.{AreRowSourceHistories, IsKeyedRow, IsPositionOf, IsRowSourceHistory, AreRowsIn, AreRowsOf, IsRowFault, UsedRowSource, rows_of_partition};
ghost use Rattle.text_forms.specs.ClockTime.{is_clock_time};
ghost use Rattle.select_tests.specs.MemSource.{is_in_table_and_partition, is_in_table_and_range, mem_source_state};

use arch_types::key::Key;
use arch_types::octets::Octets;
use arch_types::row::{Row, Rows};
use arch_types::row_fault::RowFault;
use partitions::partition::{Partition, partition_of};
use replay_merge::row_source::RowSource;
use space_packet::dump::first_packet;
use space_packet::key::key_of;
use std::alloc::{AllocError, Global};
use std::marker::Model;
use text_forms::is_clock_time;

/// Rows in the order in which they came, each key once in a table.
#[derive(Drop)]
pub(crate) struct MemSource {
    history: Vec<Row>,
    /// Whether contracts know the rows.
    is_known: bool,
    /// How many calls go well before one fails; none fails where it is `None`.
    calls: Option<u64>,
    faults: u64,
}

impl Model for MemSource {
    ghost use Rattle.replay_merge.specs.RowSource.{IsRowSourceHistory};
    ghost use Rattle.select_tests.specs.MemSource.{MemSourceView};

    ghost Value = { MemSourceView };

    ghost view = { λ s. record { rows = s.history.items; is_known = s.is_known; faults = s.faults } };

    ghost invariant = { λ s. IsRowSourceHistory s.history.items };
}

impl MemSource {
    /// No row.
    pub(crate) fn new(alloc: Global, is_known: bool) -> Self
        ensures { result ≡ record { rows = []; is_known = is_known; faults = 0 } }
    {
        MemSource {
            history: Vec::new(alloc),
            is_known,
            calls: None,
            faults: 0,
        }
    }

    /// One call fails after so many: with `DiskFault` where the rows are told, else with `Damaged`.
    pub(crate) fn fail_after(&mut self, calls: u64)
        ensures { self.new ≡ self.old }
    {
        self.calls = Some(calls);
    }

    /// Adds the row of the packet that these octets begin with, unless they begin with none, the time isn't the clock's, or a row of
    /// its table and key is there: then it answers `false`.
    pub(crate) fn add(
        &mut self,
        alloc: Global,
        table: u8,
        pname: u16,
        rectime: i64,
        octets: &[u8],
    ) -> Result<bool, AllocError> {
        let Ok(length) = first_packet(octets) else {
            return Ok(false);
        };
        if !is_clock_time(rectime) {
            return Ok(false);
        }
        let packet = Octets::from_slice(alloc, &octets[..length])?;
        let row = row_of(table, pname, rectime, packet);
        if is_there(self.history.as_slice(), &row) {
            return Ok(false);
        }
        self.history.push(row)?;
        Ok(true)
    }

    /// Refuses the call that is to fail.
    #[tactic(auto, using(crate::proofs::Found::known_sound))]
    fn fail_in_turn(&mut self) -> Result<(), RowFault>
        ensures history { IfSome (mem_source_state self.old).history AreRowSourceHistories }
        ensures refused { IfErr result (IsRowFault (mem_source_state self.old) (mem_source_state self.new)) }
        ensures no_fault { OnOk result ((mem_source_state self.new).faults ≡ (mem_source_state self.old).faults) }
        ensures source { UsedRowSource (mem_source_state self.old) (mem_source_state self.new) }
        ensures left { (self.new.rows ≡ self.old.rows) × (self.new.is_known ≡ self.old.is_known) }
    {
        match self.calls {
            Some(0) => {
                self.calls = None;
                if !self.is_known {
                    return Err(RowFault::Damaged { file: 0, at: 0 });
                }
                self.faults = self.faults.saturating_add(1);
                Err(RowFault::DiskFault)
            }
            Some(calls) => {
                self.calls = Some(calls - 1);
                Ok(())
            }
            None => Ok(()),
        }
    }
}

impl RowSource for MemSource {
    ghost use Rattle.std.proofs.Common.{◌≡◌, ◌∙◌, refl};
    ghost use Rattle.select_tests.specs.MemSource.{mem_source_state};

    ghost state = { λ s. mem_source_state s };

    // it counts its faults
    ghost leaves = { λ old new. (new.rows ≡ old.rows) × (new.is_known ≡ old.is_known) };

    ghost none_left = { λ source. (refl, refl) };

    ghost both_left = { λ first between last one two. (two.0 ∙ one.0, two.1 ∙ one.1) };

    fn rows(
        &mut self,
        alloc: Global,
        table: u8,
        partition: &Partition,
        front: u64,
    ) -> Result<Rows, RowFault> {
        self.fail_in_turn()?;
        let count = self.history.len().min(front as usize);
        let rows = part_rows(alloc, &self.history.as_slice()[..count], table, partition)?;
        Ok(Rows::from_vec(rows))
    }

    fn range(
        &mut self,
        alloc: Global,
        table: u8,
        from: i64,
        to: i64,
        front: u64,
    ) -> Result<Rows, RowFault> {
        self.fail_in_turn()?;
        let count = self.history.len().min(front as usize);
        let rows = range_rows(alloc, &self.history.as_slice()[..count], table, from, to)?;
        Ok(Rows::from_vec(rows))
    }

    fn position(&mut self, _alloc: Global, table: u8, key: Key) -> Result<Option<u64>, RowFault> {
        self.fail_in_turn()?;
        Ok(place_of(self.history.as_slice(), table, key))
    }
}

/// The row of one whole packet.
fn row_of(table: u8, pname: u16, rectime: i64, packet: Octets) -> Row
    requires packet { IsPacket packet }
    requires time { is_clock_time rectime ≡ true }
    ensures { IsKeyedRow result }
{
    Row {
        table,
        key: key_of(packet.as_slice(), rectime),
        rectime,
        link: 1,
        pname,
        packet,
    }
}

/// Whether a row of the table and the key of another is there.
fn is_there(rows: &[Row], row: &Row) -> bool
    ensures { result ≡ list_any (is_duplicate_of row.now) rows.now }
{
    rows.iter().any(|other| row.table == other.table && row.key.cmp(&other.key).is_eq())
}

/// Whether a row is of a table and a partition.
fn is_in_table_and_partition(row: &Row, table: u8, partition: &Partition) -> bool
    ensures { result ≡ is_in_table_and_partition table partition.now row.now }
{
    table == row.table
        && partition
            .cmp(&partition_of(row.key.time, row.pname))
            .is_eq()
}

/// The rows of a table and a partition, as they stand.
fn matching(
    alloc: Global,
    rows: &[Row],
    table: u8,
    partition: &Partition,
) -> Result<Vec<Row>, AllocError>
    ensures { IfOk result (λ found. found.items ≡ filter (is_in_table_and_partition table partition.now) rows.now) }
{
    let mut found = Vec::new(alloc);
    for row in rows {
        if is_in_table_and_partition(row, table, partition) {
            found.push(row.copy()?)?;
        }
    }
    Ok(found)
}

/// The rows of a table and a partition, in the order of their keys.
fn part_rows(
    alloc: Global,
    rows: &[Row],
    table: u8,
    partition: &Partition,
) -> Result<Vec<Row>, AllocError>
    requires { IsRowSourceHistory rows.now }
    ensures rows { IfOk result (λ found. (front : ℕ) (history : List Row) → rows.now ≡ take front history
        → found.items ≡ rows_of_partition table partition.now (take front history)) }
    ensures each { IfOk result (λ found. AreRowsOf table partition.now found.items) }
{
    let mut found = matching(alloc, rows, table, partition)?;
    found.sort_by_key(|row| row.key)?;
    Ok(found)
}

/// Whether a row is of a table, with `from <= time < to`.
fn is_in_table_and_range(row: &Row, table: u8, from: i64, to: i64) -> bool
    ensures { result ≡ is_in_table_and_range table from to row.now }
{
    table == row.table && from <= row.key.time && row.key.time < to
}

/// The rows of a table with `from <= time < to`, as they stand.
fn matching_times(
    alloc: Global,
    rows: &[Row],
    table: u8,
    from: i64,
    to: i64,
) -> Result<Vec<Row>, AllocError>
    ensures { IfOk result (λ found. found.items ≡ filter (is_in_table_and_range table from to) rows.now) }
{
    let mut found = Vec::new(alloc);
    for row in rows {
        if is_in_table_and_range(row, table, from, to) {
            found.push(row.copy()?)?;
        }
    }
    Ok(found)
}

/// The rows of a table with `from <= time < to`, in the order of their keys.
fn range_rows(
    alloc: Global,
    rows: &[Row],
    table: u8,
    from: i64,
    to: i64,
) -> Result<Vec<Row>, AllocError>
    requires { IsRowSourceHistory rows.now }
    ensures rows { IfOk result (λ found. (front : ℕ) (history : List Row) → rows.now ≡ take front history
        → found.items ≡ range_of table from to (take front history)) }
    ensures each { IfOk result (λ found. AreRowsIn table from to found.items) }
{
    let mut found = matching_times(alloc, rows, table, from, to)?;
    found.sort_by_key(|row| row.key)?;
    Ok(found)
}

/// Whether a row is of a table and has a key.
fn is_at(row: &Row, table: u8, key: Key) -> bool
    ensures { result ≡ (is_in_table table row.now && has_key key row.now) }
{
    table == row.table && key.cmp(&row.key).is_eq()
}

/// The place of the row that has a key in a table.
fn place_of(rows: &[Row], table: u8, key: Key) -> Option<u64>
    ensures { IsPositionOf (λ front. take front rows.now) table key result }
{
    for (i, row) in rows.iter().enumerate() {
        if is_at(row, table, key) {
            return Some(i as u64);
        }
    }
    None
}
