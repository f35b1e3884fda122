//! Selections.

ghost use Rattle.std.specs.Prelude.{◌≡◌, ◌+◌, ◌≤◌, ◌++◌, [], ◌∷◌, length, filter, reverse, IfOk, IfErr, IfSome, OnOk};
ghost use Rattle.std.specs.List.{AllByRecursion};
ghost use Rattle.partitions.specs.Partitions.{AreRising};
ghost use Rattle.partitions.specs.Rows.{is_of_parts};
ghost use Rattle.replay_merge.specs.RowSource.{IsKeyedRow, IsRowFault, UsedRowSource};
ghost use Rattle.ssql_select.specs.Selection as spec;
ghost use Rattle.arch_types.specs.Directions.{in_direction, truncated};
ghost use Rattle.ssql_select.specs.Selection.{HoldsSelected, is_selected, merged_between, selected_between, selection_of, rows_looked_at};
ghost use Rattle.ssql_select.specs.SelectionText.{IsTextOfGiven, selection_text};

use crate::days::{rising_once, split_day};
use crate::merge::merged_rows;
use crate::selection_text::SelectionText;
use arch_types::direction::Direction;
use arch_types::name::Names;
use arch_types::row::Row;
use arch_types::row_fault::RowFault;
use arch_types::steps::Steps;
use partitions::bounds::Bounds;
use partitions::lists::PartList;
use partitions::partition::Partition;
use replay_merge::row_source::RowSource;
use ssql_conditions::bounds::bounds;
use ssql_conditions::condition::Condition;
use ssql_conditions::truth::holds;
use ssql_types::query::TypedSelect;
use std::alloc::{AllocError, Global};
use std::sync::ledger::Ledger;

/// Whether there are as many rows as the limit says.
fn is_enough(rows: &[Row], limit: Option<u64>) -> bool
    ensures { result ≡ spec.is_enough limit rows.now }
{
    match limit {
        None => false,
        Some(limit) => rows.len() as u64 >= limit,
    }
}

/// The rows so that the one that comes first in a direction stands last, where it is taken off without moving the others.
fn turned(mut rows: Vec<Row>, direction: Direction) -> Vec<Row>
    ensures rows { reverse result.items ≡ in_direction direction rows.items }
    ensures each { AllByRecursion IsKeyedRow rows.items → AllByRecursion IsKeyedRow result.items }
    ensures len { length result.items ≡ length rows.items }
{
    match direction {
        Direction::Ascending => rows.reverse(),
        Direction::Descending => {}
    }
    rows
}

/// Adds a row if it meets a condition, in one step.
fn add_if_met<L: Ledger>(
    condition: &Condition,
    row: Row,
    selected: &mut Vec<Row>,
    steps: &mut Steps<L>,
) -> Result<(), AllocError>
    requires { IsKeyedRow row }
    ensures rows { OnOk result (selected.new.items
        ≡ selected.old.items ++ filter (is_selected condition.now) (row ∷ [])) }
    ensures step { steps.new ≡ steps.old + 1 }
{
    if holds(condition, &row, steps) {
        selected.push(row)?;
    }
    Ok(())
}

/// Adds the rows that meet a condition, the last first, up to a limit of all.
fn add_met<L: Ledger>(
    condition: &Condition,
    backwards: Vec<Row>,
    limit: Option<u64>,
    selected: &mut Vec<Row>,
    steps: &mut Steps<L>,
) -> Result<(), AllocError>
    requires keyed { AllByRecursion IsKeyedRow backwards.items }
    requires found { AllByRecursion IsKeyedRow selected.old.items }
    requires within { truncated limit selected.old.items ≡ selected.old.items }
    ensures rows { OnOk result (selected.new.items
        ≡ truncated limit (selected.old.items ++ filter (is_selected condition.now) (reverse backwards.items))) }
    ensures each { OnOk result (AllByRecursion IsKeyedRow selected.new.items) }
    ensures steps { steps.new ≤ steps.old + length backwards.items }
{
    let mut left = backwards;
    'rows: while !is_enough(selected.as_slice(), limit) {
        match left.pop() {
            None => return Ok(()),
            Some(row) => add_if_met(condition, row, selected, steps)?,
        }
    }
    Ok(())
}

/// The selection of rows of some partitions, which rise, and of the times in some bounds, day after day.
fn select_days<R: RowSource, L: Ledger>(
    alloc: Global,
    statement: &TypedSelect,
    source: &mut R,
    parts: &[Partition],
    bounds: &Bounds,
    front: u64,
    steps: &mut Steps<L>,
) -> Result<Vec<Row>, RowFault>
    requires { AreRising parts.now }
    ensures rows { IfOk result (λ rows. IfSome (R.state source.old).history (λ history. rows.items ≡ truncated statement.now.limit
        (selected_between statement.now parts.now bounds.now.from bounds.now.to (history front)))) }
    ensures given { IfOk result (λ rows. AllByRecursion (R.state source.old).may_give rows.items) }
    ensures each { IfOk result (λ rows. AllByRecursion IsKeyedRow rows.items) }
    ensures steps { IfSome (R.state source.old).history (λ history. steps.new ≤ steps.old + length (filter
        (is_of_parts parts.now) (merged_between statement.now.sources bounds.now.from bounds.now.to (history front)))) }
    ensures refused { IfErr result (IsRowFault (R.state source.old) (R.state source.new)) }
    ensures no_fault { OnOk result ((R.state source.new).faults ≡ (R.state source.old).faults) }
    ensures source { UsedRowSource (R.state source.old) (R.state source.new) }
    ensures left { R.leaves source.old source.new }
{
    let tables = statement.sources.as_slice();
    let mut left = parts;
    let mut selected = Vec::new(alloc);
    'days: while !is_enough(selected.as_slice(), statement.limit) {
        if left.is_empty() {
            return Ok(selected);
        }
        let (day, rest) = split_day(left, statement.direction);
        let rows = merged_rows(alloc, source, tables, day, bounds, front)?;
        let rows = turned(rows, statement.direction);
        add_met(
            &statement.condition,
            rows,
            statement.limit,
            &mut selected,
            steps,
        )?;
        left = rest;
    }
    Ok(selected)
}

/// The rows that a query selects, as `select`.
fn select_rows<R: RowSource, L: Ledger>(
    alloc: Global,
    statement: &TypedSelect,
    source: &mut R,
    parts: &PartList,
    front: u64,
    steps: &mut Steps<L>,
) -> Result<Vec<Row>, RowFault>
    ensures rows { IfOk result (λ rows. IfSome (R.state source.old).history (λ history.
        HoldsSelected statement.now parts.now (history front) → rows.items ≡ selection_of statement.now (history front))) }
    ensures given { IfOk result (λ rows. AllByRecursion (R.state source.old).may_give rows.items) }
    ensures each { IfOk result (λ rows. AllByRecursion IsKeyedRow rows.items) }
    ensures steps { IfSome (R.state source.old).history (λ history. steps.new ≤ steps.old + length
        (rows_looked_at statement.now parts.now (history front))) }
    ensures refused { IfErr result (IsRowFault (R.state source.old) (R.state source.new)) }
    ensures no_fault { OnOk result ((R.state source.new).faults ≡ (R.state source.old).faults) }
    ensures source { UsedRowSource (R.state source.old) (R.state source.new) }
    ensures left { R.leaves source.old source.new }
{
    let bounds = bounds(alloc, &statement.condition)?;
    let parts = rising_once(alloc, parts)?;
    select_days(
        alloc,
        statement,
        source,
        parts.as_slice(),
        &bounds,
        front,
        steps,
    )
}

/// What a query selects of the rows of its sources with a position below the front.
///
/// `parts` are partitions in any order, also more than once: together those that may hold a row in the bounds of the condition, for
/// each source. `names` are the packet names by number; a number without one prints as nothing. Takes at most one step for each row
/// of a source in these partitions with a time in the bounds, and none of a day behind the limit. Refused as the source refuses.
pub fn select<'a, R: RowSource, L: Ledger>(
    alloc: Global,
    statement: &'a TypedSelect,
    names: &'a Names,
    source: &mut R,
    parts: &PartList,
    front: u64,
    steps: &mut Steps<L>,
) -> Result<SelectionText<'a>, RowFault>
    // Where the partitions hold all that is selected.
    ensures text { IfOk result (λ text. IfSome (R.state source.old).history (λ history.
        HoldsSelected statement.now parts.now (history front)
        → text ≡ selection_text names.now statement.now (history front))) }
    ensures given { IfOk result (IsTextOfGiven (R.state source.old) names.now statement.now.columns) }
    ensures steps { IfSome (R.state source.old).history (λ history. steps.new ≤ steps.old + length
        (rows_looked_at statement.now parts.now (history front))) }
    ensures refused { IfErr result (IsRowFault (R.state source.old) (R.state source.new)) }
    ensures no_fault { OnOk result ((R.state source.new).faults ≡ (R.state source.old).faults) }
    ensures source { UsedRowSource (R.state source.old) (R.state source.new) }
    ensures left { R.leaves source.old source.new }
{
    let rows = select_rows(alloc, statement, source, parts, front, steps)?;
    Ok(SelectionText::of(statement.columns.as_slice(), names, rows))
}
