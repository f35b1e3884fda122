//! Builds a segment set of rows that come one after the other.

ghost use Rattle.std.specs.Prelude.{◌≡◌, ◌+◌, ◌++◌, ◌∷◌, [], None, length, map, flat_map, nat_eq, IfOk, OnOk, OnErr};
ghost use Rattle.std.specs.List.{AllByRecursion, IsDistinct, position};
ghost use lib.Pointwise.{pointwise};
ghost use Rattle.param_segments.specs.GroupContents.{AreContents, all_starts, first_contents, group_contents, group_octets, segment_count, with_set_row};
ghost use Rattle.param_segments.specs.Rows.{AreSetRows, set_row};

use crate::group::{Group, are_parameters_of, write_parameters};
use crate::group_guesses::GroupGuesses;
use crate::group_numbers::GroupNumbers;
use crate::set::SegSet;
use arch_types::key::Key;
use arch_types::octets::Octets;
use container_extract::values::RawValue;
use octet_fields::put_u32;
use std::alloc::{AllocError, Global};
use std::marker::Model;

/// The rows of a set that came so far. `set` gives the set of them, as often as it's asked.
#[derive(Drop)]
pub struct SetBuilder {
    /// The lists of parameters of the groups, in the groups' order.
    numbers: GroupNumbers,
    /// The groups in the order of their first rows.
    groups: Vec<Group>,
    /// The group that may have the next row.
    guesses: GroupGuesses,
    /// The parameters of the row that is looked for: its room is used again.
    parameters: Vec<u16>,
}

impl Model for SetBuilder {
    ghost use Rattle.std.specs.Prelude.{List};
    ghost use Rattle.param_segments.specs.Rows.{SetRow};
    ghost use Rattle.param_segments.specs.GroupContents.{AreGroups, rows_in_groups};

    ghost Value = { List SetRow };

    ghost view = { λ b. rows_in_groups b.groups.items };

    ghost invariant = { λ b. AreGroups b.numbers b.groups.items };
}

/// The number of the group of values: most often the one that was guessed, else found by the order of their parameters,
/// which then stand in the buffer.
fn number_of(
    numbers: &GroupNumbers,
    groups: &[Group],
    guess: usize,
    parameters: &mut Vec<u16>,
    values: &[RawValue],
) -> Result<Option<usize>, AllocError>
    requires numbered { numbers.now ≡ map (λ g. g.parameters.items) groups.now }
    requires distinct { IsDistinct (pointwise nat_eq) numbers.now }
    ensures number { IfOk result (λ number.
        number ≡ position (pointwise nat_eq (map (λ v. v.parameter) values.now)) numbers.now) }
    ensures parameters { IfOk result (λ number.
        number ≡ None → parameters.new.items ≡ map (λ v. v.parameter) values.now) }
{
    if guess < groups.len() && are_parameters_of(&groups[guess].parameters, values) {
        return Ok(Some(guess));
    }
    write_parameters(parameters, values)?;
    Ok(numbers.number(parameters))
}

/// Adds a group with its first row, and room for about so many. Refused for want of memory, it leaves all as it was.
fn add_group(
    alloc: Global,
    numbers: &mut GroupNumbers,
    groups: &mut Vec<Group>,
    parameters: &[u16],
    key: Key,
    values: &[RawValue],
    rows: usize,
) -> Result<(), AllocError>
    requires parameters { parameters.now ≡ map (λ v. v.parameter) values.now }
    requires new { position (pointwise nat_eq parameters.now) numbers.old ≡ None }
    ensures groups { OnOk result (map group_contents groups.new.items ≡ map group_contents groups.old.items ++
        first_contents (set_row key values.now) ∷ []) }
    ensures numbers { OnOk result (numbers.new ≡ numbers.old ++ parameters.now ∷ []) }
    ensures kept { OnErr result ((groups.new.items ≡ groups.old.items) × (numbers.new ≡ numbers.old)) }
{
    let group = Group::of_first(alloc, parameters, key, values, rows)?;
    groups.reserve(1)?;
    numbers.add(Vec::from_slice(alloc, parameters)?)?;
    groups.push_reserved(group);
    Ok(())
}

/// Adds a row to its group, or to a new one. Refused for want of memory, it leaves what the groups keep as it was.
fn add_row(
    alloc: Global,
    numbers: &mut GroupNumbers,
    groups: &mut Vec<Group>,
    guesses: &mut GroupGuesses,
    parameters: &mut Vec<u16>,
    key: Key,
    values: &[RawValue],
) -> Result<(), AllocError>
    requires numbered { numbers.old ≡ map (λ g. g.parameters.items) groups.old.items }
    requires distinct { IsDistinct (pointwise nat_eq) numbers.old }
    requires contents { AllByRecursion AreContents (map group_contents groups.old.items) }
    ensures added { OnOk result (map group_contents groups.new.items ≡ with_set_row
        (map group_contents groups.old.items) (set_row key values.now)) }
    ensures kept { OnErr result (map group_contents groups.new.items ≡ map group_contents groups.old.items) }
    ensures numbered { numbers.new ≡ map (λ g. g.parameters.items) groups.new.items }
{
    let guess = guesses.guess(values);
    match number_of(numbers, groups, guess, parameters, values)? {
        None => {
            let rows = guesses.rows_of_group(groups.len());
            guesses.keep(values, groups.len());
            add_group(alloc, numbers, groups, parameters, key, values, rows)
        }
        Some(number) => {
            guesses.keep(values, number);
            groups[number].add(alloc, key, values)
        }
    }
}

/// The number of segments of groups. There's no room for 2^32.
fn segment_count(groups: &[Group]) -> Result<u32, AllocError>
    ensures { IfOk result (λ count. count ≡ segment_count (map group_contents groups.now)) }
{
    let mut count: u32 = 0;
    for group in groups {
        count = count_more(count, group.starts.len())?;
    }
    Ok(count)
}

/// So many full segments more, and the open one.
fn count_more(count: u32, full: usize) -> Result<u32, AllocError>
    ensures { IfOk result (λ more. more ≡ count + (full + 1)) }
{
    let Ok(full) = u32::try_from(full) else {
        return Err(AllocError);
    };
    let Some(closed) = count.checked_add(full) else {
        return Err(AllocError);
    };
    match closed.checked_add(1) {
        None => Err(AllocError),
        Some(more) => Ok(more),
    }
}

/// Adds the octets of the segments of groups, and the place where each begins.
fn put_groups(
    alloc: Global,
    groups: &[Group],
    octets: &mut Vec<u8>,
    starts: &mut Vec<u32>,
) -> Result<(), AllocError>
    requires { AllByRecursion AreContents (map group_contents groups.now) }
    ensures octets { OnOk result (octets.new.items ≡ octets.old.items ++ flat_map group_octets
        (map group_contents groups.now)) }
    ensures starts { OnOk result (starts.new.items ≡ starts.old.items ++ all_starts (length octets.old.items)
        (map group_contents groups.now)) }
{
    for group in groups {
        group.put(alloc, octets, starts)?;
    }
    Ok(())
}

impl SetBuilder {
    /// No row.
    pub fn new(alloc: Global) -> SetBuilder
        ensures { result ≡ [] }
    {
        SetBuilder::with_capacity(alloc, 0)
    }

    /// No row. A group makes room by how many may come: it takes some part of that room at its first row, and more where
    /// it has more rows.
    pub fn with_capacity(alloc: Global, rows: usize) -> SetBuilder
        ensures { result ≡ [] }
    {
        SetBuilder {
            numbers: GroupNumbers::new(alloc),
            groups: Vec::new(alloc),
            guesses: GroupGuesses::new(rows),
            parameters: Vec::new(alloc),
        }
    }

    /// Adds a row behind all others. Refused for want of memory, it leaves the rows as they were.
    pub fn push(&mut self, alloc: Global, key: Key, values: &[RawValue]) -> Result<(), AllocError>
        requires { AreSetRows (self.old ++ set_row key values.now ∷ []) }
        ensures added { OnOk result (self.new ≡ self.old ++ set_row key values.now ∷ []) }
        ensures kept { OnErr result (self.new ≡ self.old) }
    {
        add_row(
            alloc,
            &mut self.numbers,
            &mut self.groups,
            &mut self.guesses,
            &mut self.parameters,
            key,
            values,
        )
    }

    /// The rows are those of a set. This does nothing but tell a proof so.
    pub fn rows_are_sound(&self)
        ensures { AreSetRows self.now }
    {
        let _ = &self.groups;
    }

    /// The set of the rows so far.
    pub fn set(&self, alloc: Global) -> Result<SegSet, AllocError>
        ensures { IfOk result (λ set. set ≡ self.now) }
    {
        let count = segment_count(&self.groups)?;
        let mut octets = Vec::new(alloc);
        put_u32(&mut octets, count)?;
        let mut starts = Vec::with_capacity(alloc, count as usize)?;
        put_groups(alloc, &self.groups, &mut octets, &mut starts)?;
        Ok(SegSet::of_spelling(Octets::from_vec(alloc, octets)?, starts))
    }
}
