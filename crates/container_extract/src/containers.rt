//! What comes after a container.

ghost use Rattle.std.specs.Prelude.{◌≡◌, ◌+◌, ◌<◌, ◌≤◌, ◌||◌, [], length, slice_get, IsTrue, option_copied, vec_len, vec_capacity};
ghost use Rattle.std.specs.List.{find};
ghost use Rattle.mdb_items.specs.Database.{IsDatabase};
ghost use Rattle.mdb_lookups.specs.Children.{children_of};
ghost use Rattle.container_extract.specs.Chain.{entries_at, first_child, has_archive, name_along};
ghost use Rattle.container_extract.specs.Step.{AreAbove, AreOfPath, IsStep, children_asking, earlier_of, first_unless, holds_at, is_behind};

use crate::conditions::holds_by_places;
use crate::entries::take_entries;
use crate::values::RawValue;
use mdb_lookups::numbered_children::NumberedChildren;
use mdb_model::{Container, Mdb};

/// The condition of the container with a number holds of the values at its places.
fn holds_at(mdb: &Mdb, number: u16, values: &[RawValue]) -> bool
    ensures { result ≡ holds_at mdb.now.containers values.now number }
{
    if number < mdb.containers() {
        holds_by_places(values, mdb.placed_condition(number))
    } else {
        false
    }
}

/// The first of some containers whose condition holds of the values at its places.
fn first_of<'a>(mdb: &Mdb, numbers: &'a [u16], values: &[RawValue]) -> Option<&'a u16>
    ensures { option_copied result ≡ find (holds_at mdb.now.containers values.now) numbers.now }
{
    numbers
        .iter()
        .find(|number| holds_at(mdb, **number, values))
}

/// The children that ask for the number of a value, where there is a value.
fn children_asking<'a>(children: &'a NumberedChildren, value: Option<&RawValue>) -> &'a [u16]
    ensures { result.now ≡ children_asking children.now (option_copied value.entry) }
{
    match value {
        None => &[],
        Some(value) => children.of_number(value.raw),
    }
}

/// The first of the children that ask for the number at their place whose condition holds.
fn first_asking(mdb: &Mdb, children: &NumberedChildren, values: &[RawValue]) -> Option<u16>
    ensures { result ≡ find (holds_at mdb.now.containers values.now)
        (children_asking children.now (slice_get values.now children.now.place)) }
{
    let asking = children_asking(children, values.get(children.place));
    first_of(mdb, asking, values).copied()
}

/// The container stands no earlier than the first one that was found, where one was.
fn is_behind(first: Option<u16>, number: u16) -> bool
    ensures { result ≡ is_behind first number }
{
    match first {
        None => false,
        Some(first) => first <= number,
    }
}

/// The container stands no earlier than the first one that was found, or its condition holds.
fn is_last_asked(mdb: &Mdb, first: Option<u16>, number: u16, values: &[RawValue]) -> bool
    ensures { result ≡ (is_behind first number || holds_at mdb.now.containers values.now number) }
{
    is_behind(first, number) || holds_at(mdb, number, values)
}

/// The first of others that stands no earlier than the one that was found, or whose condition holds.
fn last_asked<'a>(
    mdb: &Mdb,
    first: Option<u16>,
    others: &'a [u16],
    values: &[RawValue],
) -> Option<&'a u16>
    ensures { option_copied result ≡
        find (λ n. is_behind first n || holds_at mdb.now.containers values.now n) others.now }
{
    others
        .iter()
        .find(|number| is_last_asked(mdb, first, **number, values))
}

/// The first one that was found, unless another stands earlier.
fn earlier_of(first: Option<u16>, other: Option<u16>) -> Option<u16>
    ensures { result ≡ earlier_of first other }
{
    match other {
        None => first,
        Some(number) => {
            if is_behind(first, number) {
                first
            } else {
                Some(number)
            }
        }
    }
}

/// The first one that was found, unless another whose condition holds stands earlier.
fn first_unless(mdb: &Mdb, first: Option<u16>, others: &[u16], values: &[RawValue]) -> Option<u16>
    ensures { result ≡ first_unless (holds_at mdb.now.containers values.now) first others.now }
{
    earlier_of(first, last_asked(mdb, first, others, values).copied())
}

/// The first child in sheet order whose condition holds of raw values. Children whose conditions begin by asking for
/// another number than the one that stands there are passed over.
fn first_child(mdb: &Mdb, number: u16, values: &[RawValue]) -> Option<u16>
    requires known { number < length mdb.now.containers }
    requires path { AreOfPath mdb.now number values.now }
    ensures { result ≡ first_child mdb.now.containers number values.now }
{
    let children = mdb.numbered_children(number);
    let first = first_asking(mdb, children, values);
    first_unless(mdb, first, children.others.as_slice(), values)
}

/// Takes the raw values of a container's entries, and gives what comes after it.
pub(crate) fn next_of(
    mdb: &Mdb,
    packet: &[u8],
    number: u16,
    values: &mut Vec<RawValue>,
) -> Option<u16>
    requires known { number < length mdb.now.containers }
    requires sound { IsDatabase mdb.now }
    requires above { AreAbove mdb.now number values.old.items }
    requires room { vec_len values.old + length (entries_at mdb.now number) ≤ vec_capacity values.old }
    ensures step { IsStep mdb.now packet.now values.old.items number values.new.items result }
    ensures capacity { vec_capacity values.new ≡ vec_capacity values.old }
{
    let entries = mdb.container(number).entries.as_slice();
    if !take_entries(mdb, packet, entries, values) {
        return None;
    }
    first_child(mdb, number, values.as_slice())
}

/// No container stands directly below the one with a number.
pub(crate) fn is_childless(mdb: &Mdb, number: u16) -> bool
    requires { number < length mdb.now.containers }
    ensures { IsTrue result → children_of mdb.now.containers number ≡ [] }
{
    let children = mdb.numbered_children(number);
    children.by_number.is_empty() && children.others.is_empty()
}

fn has_archive(container: Option<&Container>) -> bool
    ensures { result ≡ has_archive (option_copied container.entry) }
{
    match container {
        None => false,
        Some(container) => container.archive,
    }
}

/// The container with a number has the archive flag.
fn is_archived(containers: &[Container], number: u16) -> bool
    ensures { result ≡ has_archive (slice_get containers.now number) }
{
    has_archive(containers.get(number as usize))
}

/// The last container of a chain with the archive flag, or else the root.
pub(crate) fn name_along(containers: &[Container], chain: &[u16]) -> u16
    ensures { result ≡ name_along containers.now chain.now }
{
    let mut name = 0;
    for number in chain {
        if is_archived(containers, *number) {
            name = *number;
        }
    }
    name
}
