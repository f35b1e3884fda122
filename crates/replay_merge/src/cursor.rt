//! A replay that is read piece by piece.

ghost use Rattle.std.specs.Prelude.{◌≡◌, ◌<◌, ◌≤◌, ◌++◌, ◌↔◌, ℕ, List, [], length, Some, Contains, IfOk, IfErr, IfSome, OnErr, OnOk};
ghost use Rattle.std.specs.List.{AllByRecursion};
ghost use Rattle.arch_types.specs.declared.row.Row.{Row};
ghost use Rattle.arch_types.specs.Directions.{truncated};
ghost use Rattle.partitions.specs.Partitions.{AreRising};
ghost use Rattle.replay_merge.specs.RowSource.{AreInKeyOrder, IsRowFault, UsedRowSource};
ghost use Rattle.replay_merge.specs.Replay.{rows_asked, HoldsEachRow};
ghost use Rattle.replay_merge.specs.Cursor.{rest_of, steps_at_most, AsksTheSame, EndsExactly, IsRowAsked, IsCursorOf, left_after};
ghost use Rattle.replay_merge.specs.Cursor.{MayHandOn};

use crate::ahead::{Ahead, split_first};
use crate::fetch::fetch;
use crate::row_source::RowSource;
use crate::wanted::Wanted;
use arch_types::row::Rows;
use arch_types::row_fault::RowFault;
use asks::ReplayRequest;
use partitions::lists::{PartList, PnameList};
use partitions::partition::Partition;
use std::alloc::Global;
use std::marker::Model;

/// A replay that goes on where it stopped.
#[derive(Drop)]
pub struct Cursor {
    wanted: Wanted,
    /// In their order, each once.
    parts: Vec<Partition>,
    /// How many of the partitions were read.
    read: usize,
    /// The rows that were read and not given yet: at most a day's, and none once the limit is reached.
    ahead: Ahead,
    /// How many rows may still be given, any number where it is `None`.
    left: Option<u64>,
}

impl Model for Cursor {
    ghost use Rattle.std.specs.Prelude.{drop};
    ghost use Rattle.replay_merge.specs.Cursor.{CursorView};
    ghost use Rattle.replay_merge.specs.Fetch.{IsUnderway};

    ghost Value = { CursorView };

    ghost view = { λ c. record {
      table = c.wanted.table;
      front = c.wanted.front;
      from = c.wanted.from;
      to = c.wanted.to;
      names = c.wanted.names;
      left = c.left;
      parts = drop c.read c.parts.items;
      ahead = c.ahead;
    } };

    ghost invariant = { λ c. IsUnderway c.wanted c.parts.items c.read c.ahead };
}

impl Cursor {
    /// Before the first row of the replay of a request, in which the table's number stands for its name and the numbers of packet
    /// names for theirs: of the rows with a position below the front, over these partitions, in any order and as often as may be.
    /// Takes no memory.
    pub fn open(
        request: &ReplayRequest,
        table: u8,
        front: u64,
        parts: PartList,
        names: Option<PnameList>,
    ) -> Cursor
        ensures opened { IsCursorOf request.now table front parts names result }
        ensures replays { (history : ℕ → List Row)
            → HoldsEachRow parts (rows_asked table request.now.from request.now.to names (history front))
            → rest_of result history ≡ truncated request.now.limit
            (rows_asked table request.now.from request.now.to names (history front)) }
    {
        let parts = in_order(parts);
        let ahead = Ahead::new(*parts.allocator());
        Cursor {
            wanted: Wanted::by(request, table, front, names),
            parts,
            read: 0,
            ahead,
            left: request.limit,
        }
    }

    /// The front at which it was opened.
    pub fn front(&self) -> u64
        ensures { result ≡ self.now.front }
    {
        self.wanted.front
    }

    /// The first of the rows that are left, at most `limit`: there may be more although these are fewer. No row, for a limit above
    /// 0, is the end. Refused as a source refuses, it leaves the cursor as it was.
    pub fn next<R: RowSource>(
        &mut self,
        alloc: Global,
        source: &mut R,
        limit: u64,
    ) -> Result<Rows, RowFault>
        ensures rows { IfOk result (λ rows. IfSome (R.state source.old).history (λ history.
            rows ++ rest_of self.new history ≡ rest_of self.old history)) }
        ensures end { IfOk result (EndsExactly limit self.old self.new) }
        ensures nearer { IfOk result (λ rows. (rows ≡ [] → ⊥) → steps_at_most self.new < steps_at_most self.old) }
        ensures few { IfOk result (λ rows. length rows ≤ limit) }
        // Those that are kept for later, too.
        ensures given { IfOk result (λ rows.
            AllByRecursion (MayHandOn self.old (R.state source.old)) (rows ++ self.new.ahead)) }
        ensures each { IfOk result (λ rows. AllByRecursion (IsRowAsked self.old) rows) }
        ensures in_key_order { IfOk result AreInKeyOrder }
        ensures asked { AsksTheSame self.old self.new }
        ensures refused { IfErr result (IsRowFault (R.state source.old) (R.state source.new)) }
        ensures no_fault { OnOk result ((R.state source.new).faults ≡ (R.state source.old).faults) }
        ensures unmoved { OnErr result (self.new ≡ self.old) }
        ensures source { UsedRowSource (R.state source.old) (R.state source.new) }
        ensures left { R.leaves source.old source.new }
    {
        let most = given_at_most(limit, self.left) as usize;
        if most == 0 {
            return Ok(Rows::new(alloc));
        }
        if self.ahead.len() == 0 {
            let unread = &self.parts.as_slice()[self.read..];
            let (count, day) = fetch(alloc, source, &self.wanted, unread)?;
            let (rows, ahead) = split_first(alloc, day, most)?;
            self.read += count;
            self.ahead = ahead;
            self.left = left_after(self.left, rows.len() as u64);
            self.ahead.keep_within(self.left);
            return Ok(rows);
        }
        let rows = self.ahead.take_first(most)?;
        self.left = left_after(self.left, rows.len() as u64);
        self.ahead.keep_within(self.left);
        Ok(rows)
    }
}

/// The partitions in their order, each once. Takes no memory.
fn in_order(parts: PartList) -> Vec<Partition>
    ensures same { (partition : Partition) → Contains result.items partition ↔ Contains parts partition }
    ensures rising { AreRising result.items }
{
    let mut parts = parts.into_vec();
    parts.sort_unstable();
    parts.dedup();
    parts
}

/// How many rows may be given at once.
fn given_at_most(limit: u64, left: Option<u64>) -> u64
    ensures within { result ≤ limit }
    ensures left { IfSome left (λ n. result ≤ n) }
    ensures none { result ≡ 0 → 0 < limit → left ≡ Some 0 }
{
    match left {
        Some(left) => left.min(limit),
        None => limit,
    }
}

/// How many rows may still be given, once so many were.
fn left_after(left: Option<u64>, given: u64) -> Option<u64>
    ensures { result ≡ left_after left given }
{
    match left {
        Some(left) => Some(left.saturating_sub(given)),
        None => None,
    }
}
