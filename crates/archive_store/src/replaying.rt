//! Replays, and the partitions and times of packet names.

ghost use Rattle.std.specs.Prelude.{◌≡◌, ◌<◌, ◌≤◌, ◌++◌, List, [], length, IfOk, IfErr, OnErr};
ghost use Rattle.std.specs.List.{AllByRecursion, filter_map};
ghost use mathlib.Core.List.{IsPrefix};
ghost use Rattle.refusals.specs.declared.refusal.Refusal.TheVariants.{OutOfMemory};
ghost use Rattle.history_items.specs.declared.items.Item.{Item};
ghost use Rattle.history_items.specs.Databases.{names_of_database};
ghost use Rattle.history_items.specs.Items.{rows_in};
ghost use Rattle.archive_history.specs.PartitionedTable.{named_times_of};
ghost use Rattle.archive_history.specs.History.{rows_in_table};
ghost use Rattle.archive_store.specs.Finding.{IsReplayFound};
ghost use Rattle.archive_store.specs.Replays.{rows_below};
ghost use Rattle.histogram.specs.Times.{spans_of_times, times_of};
ghost use Rattle.asks.specs.Names.{packet_name_number, packet_name_numbers};
ghost use Rattle.replay_merge.specs.Cursor.{rest_of};
ghost use Rattle.replay_merge.specs.Replay.{replay_of};

use crate::finding::FoundReplay;
use crate::store::Store;
use arch_disk::Disk;
use arch_types::name::Names;
use arch_types::row::Rows;
use arch_types::row_fault::RowFault;
use arch_types::spans::Spans;
use archive_history::history::History;
use archive_images::Head;
use asks::ReplayRequest;
use partitions::bounds::Bounds;
use partitions::lists::{PartList, PnameList};
use refusals::Refusal;
use replay_merge::cursor::Cursor;
use std::alloc::{AllocError, Global};

/// The numbers of those packet names that the database has.
fn numbers_of(alloc: Global, head: &Head, names: &Names) -> Result<PnameList, AllocError>
    ensures { IfOk result (λ numbers.
        numbers ≡ filter_map (packet_name_number (names_of_database head.now.mdb)) names.now) }
{
    let mut numbers = PnameList::new(alloc);
    for name in names.as_slice() {
        if let Some(number) = head.mdb.container_number(name.as_str()) {
            numbers.push(number)?;
        }
    }
    Ok(numbers)
}

/// The same, if names are asked for.
fn asked_numbers(
    alloc: Global,
    head: &Head,
    names: &Option<Names>,
) -> Result<Option<PnameList>, AllocError>
    ensures { IfOk result (λ numbers. numbers ≡ packet_name_numbers (names_of_database head.now.mdb) names.now) }
{
    match names {
        Some(names) => Ok(Some(numbers_of(alloc, head, names)?)),
        None => Ok(None),
    }
}

/// The bounds of a request, its packet names by these numbers.
fn bounds_of(request: &ReplayRequest, names: Option<PnameList>) -> Bounds
    ensures { result ≡ record { from = request.now.from; to = request.now.to; names = names } }
{
    Bounds {
        from: request.from,
        to: request.to,
        names,
    }
}

/// A cursor before the replay of a request to a table of a history, at its front.
fn cursor_at_front(
    alloc: Global,
    head: &Head,
    history: &History,
    table: u8,
    request: &ReplayRequest,
) -> Result<Cursor, AllocError>
    requires { table < history.now.tables }
    ensures table { IfOk result (λ c. c.table ≡ table) }
    ensures front { IfOk result (λ c. c.front ≡ length history.now.items) }
    ensures replay { IfOk result (λ c. (later : List Item) → IsPrefix history.now.items later →
        rest_of c (rows_below later)
        ≡ replay_of (names_of_database head.now.mdb) table request.now (rows_in history.now.items)) }
{
    let names = asked_numbers(alloc, head, &request.names)?;
    let bounds = bounds_of(request, names);
    let parts = history.pruned(table, &bounds)?;
    let front = history.len() as u64;
    Ok(Cursor::open(request, table, front, parts, bounds.names))
}

impl<D: Disk> Store<D> {
    ghost use Rattle.archive_store.specs.Pages.{TellsRows};
    ghost use Rattle.archive_store.specs.UnreadRows.{IsLeftByRead, IsReadFault};
    ghost use Rattle.archive_store.specs.Replays.{ArePartitions, IsNamedPartition, IsReplayOpened};
    ghost use Rattle.replay_merge.specs.Cursor.{AsksTheSame, steps_at_most, EndsExactly, IsRowAsked};

    /// Opens the replay of a request whose table was found: of the rows that its table holds now, whatever comes to the
    /// history later. The one error is want of memory.
    pub fn replay_open(&mut self, alloc: Global, found: &FoundReplay) -> Result<Cursor, AllocError>
        requires found { IsReplayFound self.old.head.tables found.now }
        ensures opened { IfOk result (IsReplayOpened self.old.head self.old.history found.now.request) }
        ensures same { self.new ≡ self.old }
    {
        cursor_at_front(
            alloc,
            &self.head,
            &self.history,
            found.table,
            &found.request,
        )
    }

    /// The next rows of a replay, at most `limit`: there may be more although these are fewer. No row, for a limit
    /// above 0, is the end. Refused, it leaves the cursor as it was.
    pub fn replay_step(
        &mut self,
        alloc: Global,
        cursor: &mut Cursor,
        limit: u64,
    ) -> Result<Rows, RowFault>
        ensures rows { TellsRows D.device self.old → IfOk result (λ rows.
            rows ++ rest_of cursor.new (rows_below self.old.history)
            ≡ rest_of cursor.old (rows_below self.old.history)) }
        ensures end { IfOk result (EndsExactly limit cursor.old cursor.new) }
        ensures nearer { IfOk result (λ rows. (rows ≡ [] → ⊥) → steps_at_most cursor.new < steps_at_most cursor.old) }
        ensures few { IfOk result (λ rows. length rows ≤ limit) }
        ensures each { IfOk result (λ rows. AllByRecursion (IsRowAsked cursor.old) rows) }
        ensures asked { AsksTheSame cursor.old cursor.new }
        ensures refused { IfErr result (IsReadFault D.device self.old self.new) }
        ensures unmoved { OnErr result (cursor.new ≡ cursor.old) }
        ensures same { IsLeftByRead D.device self.old self.new result }
    {
        let mut source = self.source();
        cursor.next(alloc, &mut source, limit)
    }

    /// The spans of time in which a packet name, by its number, has rows in a table, in milliseconds since 1970.
    pub fn histogram(&self, table: u8, pname: u16) -> Result<Spans, Refusal>
        requires { table < length self.now.head.tables }
        ensures spans { IfOk result (λ spans. spans
            ≡ spans_of_times (times_of pname (named_times_of (rows_in_table table self.now.history)))) }
        ensures only { IfErr result (λ e. e ≡ OutOfMemory) }
    {
        Ok(self.history.spans(table, pname)?)
    }

    /// The partitions of a table that hold a row and may hold one in the bounds, by day and then by the packet name's
    /// number.
    pub fn parts(&self, table: u8, bounds: &Bounds) -> Result<PartList, Refusal>
        requires { table < length self.now.head.tables }
        ensures parts { IfOk result (ArePartitions self.now.history table bounds.now) }

        // Whether or not the disk tells its contents.
        ensures named { IfOk result (λ parts. AllByRecursion (IsNamedPartition self.now.head self.now.history) parts) }
        ensures only { IfErr result (λ e. e ≡ OutOfMemory) }
    {
        Ok(self.history.pruned(table, bounds)?)
    }
}
