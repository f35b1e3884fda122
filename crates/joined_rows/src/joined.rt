//! Two sources of rows as one.

ghost use Rattle.std.specs.Prelude.{◌≡◌, ◌++◌, IfOk};
ghost use Rattle.std.specs.List.{Any, Contains};
ghost use Rattle.arch_types.specs.declared.row.Row.{Row as ARow};
ghost use Rattle.joined_rows.specs.Joined.{AreHistoriesTogether};
ghost use Rattle.joined_rows.specs.Rising.{HaveRisingKeys};

use crate::rising::rising_by_key;
use arch_types::key::Key;
use arch_types::row::Rows;
use arch_types::row_fault::RowFault;
use partitions::partition::Partition;
use replay_merge::row_source::RowSource;
use std::alloc::{AllocError, Global};
use std::marker::Model;

/// Two sources of rows, borrowed. The first has the rows that came before.
#[derive(Drop)]
pub struct JoinedRows<'a, A, B>
where
    A: RowSource,
    B: RowSource,
{
    first: &'a mut A,
    second: &'a mut B,
}

impl<'a, A: RowSource, B: RowSource> Model for JoinedRows<'a, A, B> {
    ghost use Rattle.joined_rows.specs.Joined.{AreHistoriesTogether, JoinedView, joined_view};

    ghost Value = { JoinedView A B };

    ghost view = { λ joined. joined_view joined.first joined.second };

    ghost invariant = { λ joined.
        AreHistoriesTogether (A.state joined.first.now).history (B.state joined.second.now).history };
}

/// The rows that two sources gave, in the order of their keys. The one error is want of memory.
fn merged(first: Rows, second: Rows) -> Result<Rows, AllocError>
    ensures rising { IfOk result HaveRisingKeys }
    ensures no_others { IfOk result (λ rows. (row : ARow) → Contains rows row → Contains (first ++ second) row) }
    ensures each_key { IfOk result (λ rows. (row : ARow) → Contains (first ++ second) row →
        Any (λ kept. kept.key ≡ row.key) rows) }
{
    let mut rows = first.into_vec();
    let mut more = second.into_vec();
    rows.append(&mut more)?;
    rising_by_key(rows)
}

impl<'a, A: RowSource, B: RowSource> JoinedRows<'a, A, B> {
    ghost use Rattle.joined_rows.specs.Joined.{joined_view};

    /// Joins two sources that have no key of a table in common.
    pub fn new(first: &'a mut A, second: &'a mut B) -> Self
        requires { AreHistoriesTogether (A.state first.old).history (B.state second.old).history }
        ensures { result ≡ joined_view first.entry second.entry }
    {
        JoinedRows { first, second }
    }

    /// The two sources, for who wants to know what became of them.
    pub fn into_parts(self) -> (&'a mut A, &'a mut B)
        ensures first { (result.0.ghost_name ≡ self.entry.first.ghost_name)
            × (result.0.now ≡ self.entry.first.now) }
        ensures second { (result.1.ghost_name ≡ self.entry.second.ghost_name)
            × (result.1.now ≡ self.entry.second.now) }
    {
        let JoinedRows { first, second } = self;
        (first, second)
    }
}

impl<'a, A: RowSource, B: RowSource> RowSource for JoinedRows<'a, A, B> {
    ghost use Rattle.joined_rows.specs.Joined.{joined_state};

    ghost state = { λ joined. joined_state (A.state joined.first.now) (B.state joined.second.now) };

    // each is left as reading leaves it
    ghost leaves = { λ old new. A.leaves old.first.now new.first.now × B.leaves old.second.now new.second.now };

    ghost none_left = { λ joined. (A.none_left joined.first.now, B.none_left joined.second.now) };

    ghost both_left = { λ first between last one two. (
      A.both_left first.first.now between.first.now last.first.now one.0 two.0,
      B.both_left first.second.now between.second.now last.second.now one.1 two.1,
    ) };

    fn rows(
        &mut self,
        alloc: Global,
        table: u8,
        partition: &Partition,
        front: u64,
    ) -> Result<Rows, RowFault> {
        let rows = self.first.rows(alloc, table, partition, front)?;
        let more = self.second.rows(alloc, table, partition, front)?;
        Ok(merged(rows, more)?)
    }

    fn rows_between(
        &mut self,
        alloc: Global,
        table: u8,
        parts: &[Partition],
        from: i64,
        to: i64,
        front: u64,
    ) -> Result<Rows, RowFault> {
        let rows = self
            .first
            .rows_between(alloc, table, parts, from, to, front)?;
        let more = self
            .second
            .rows_between(alloc, table, parts, from, to, front)?;
        Ok(merged(rows, more)?)
    }

    fn range(
        &mut self,
        alloc: Global,
        table: u8,
        from: i64,
        to: i64,
        front: u64,
    ) -> Result<Rows, RowFault> {
        let rows = self.first.range(alloc, table, from, to, front)?;
        let more = self.second.range(alloc, table, from, to, front)?;
        Ok(merged(rows, more)?)
    }

    /// The second is asked first: it has the last rows, mostly in memory, and a row that comes twice comes mostly soon
    /// after.
    fn position(&mut self, alloc: Global, table: u8, key: Key) -> Result<Option<u64>, RowFault> {
        if let Some(position) = self.second.position(alloc, table, key)? {
            return Ok(Some(position));
        }
        self.first.position(alloc, table, key)
    }
}
