//! The children of each container by the number that their conditions begin by asking for.

ghost use Rattle.std.specs.Prelude.{◌≡◌, ◌∷◌, ◌++◌, [], ℤ, get_or, option_copied, slice_get, IfOk, OnOk, if◌then◌else◌};
ghost use Rattle.std.specs.Ordering.{int_eq};
ghost use Rattle.mdb_lookups.specs.NumberedChildren.{AreAllByNumber, AreByNumber, asks_one, children_at, is_number, is_other, number_asked, number_at};

use item_list::items::Items;
use mdb_items::container::{Comparison, Operator};
use std::alloc::{AllocError, Global};
use std::collections::BTreeMap;

/// The children of a container, each list in the order of the sheet: those whose conditions begin with `== number` at
/// one place of the path, by the number, and the others.
#[derive(Drop)]
pub struct NumberedChildren {
    /// The place at which the first are asked for their numbers.
    pub place: usize,
    pub by_number: BTreeMap<i128, Vec<u16>>,
    pub others: Vec<u16>,
}

impl NumberedChildren {
    /// The children of a number.
    pub fn of_number(&self, number: i128) -> &[u16]
        ensures { result.now ≡ children_at self.now.by_number number }
    {
        match self.by_number.get(&number) {
            None => &[],
            Some(children) => children.as_slice(),
        }
    }

    /// Puts a child behind those of its number, or behind the others where it has none.
    fn push(&mut self, child: u16, number: Option<i128>) -> Result<(), AllocError>
        ensures place { self.new.place ≡ self.old.place }
        ensures by_number { OnOk result ((x : ℤ) → children_at self.new.by_number x ≡
            children_at self.old.by_number x ++ (if is_number x number then child ∷ [] else [])) }
        ensures others { OnOk result (self.new.others.items ≡ self.old.others.items ++
            (if is_other number then child ∷ [] else [])) }
    {
        match number {
            None => self.others.push(child)?,
            Some(number) => self.by_number.entry(number)?.or_default().push(child)?,
        }
        Ok(())
    }
}

fn asks_one(operator: Operator) -> bool
    ensures { result ≡ asks_one operator }
{
    match operator {
        Operator::Equal => true,
        Operator::NotEqual => false,
        Operator::Less => false,
        Operator::LessOrEqual => false,
        Operator::Greater => false,
        Operator::GreaterOrEqual => false,
    }
}

/// The number that a comparison asks for at a place, where it does.
fn number_asked(place: usize, first: Option<&(Comparison, usize)>) -> Option<i128>
    ensures { result ≡ number_asked place (option_copied first.entry) }
{
    let (comparison, at) = *first?;
    if asks_one(comparison.operator) && at == place {
        Some(comparison.number)
    } else {
        None
    }
}

/// The condition of the container with a number, none where there is no container.
fn condition_at(conditions: &[Items<(Comparison, usize)>], number: u16) -> &[(Comparison, usize)]
    ensures { result.now ≡ get_or conditions.now number [] }
{
    match conditions.get(usize::from(number)) {
        None => &[],
        Some(condition) => condition.as_slice(),
    }
}

/// The number that the condition of a container begins by asking for at a place, where it does.
fn number_at(conditions: &[Items<(Comparison, usize)>], place: usize, number: u16) -> Option<i128>
    ensures { result ≡ number_at conditions.now place number }
{
    number_asked(place, condition_at(conditions, number).get(0))
}

/// A place at which the conditions of containers begin: the one that more than half have, where there is one. Any is
/// right.
fn common_place(conditions: &[Items<(Comparison, usize)>], numbers: &[u16]) -> usize {
    let mut common = 0;
    let mut lead: usize = 0;
    for number in numbers {
        if let Some(first) = condition_at(conditions, *number).get(0) {
            if lead == 0 {
                common = first.1;
            }
            lead = if first.1 == common {
                lead.saturating_add(1)
            } else {
                lead.saturating_sub(1)
            };
        }
    }
    common
}

/// The children of a container by their numbers, and the others.
fn by_number(
    alloc: Global,
    children: &[u16],
    conditions: &[Items<(Comparison, usize)>],
) -> Result<NumberedChildren, AllocError>
    ensures { IfOk result (AreByNumber conditions.now children.now) }
{
    let mut numbered = NumberedChildren {
        place: common_place(conditions, children),
        by_number: BTreeMap::new(alloc),
        others: Vec::new(alloc),
    };
    for child in children {
        let place = numbered.place;
        numbered.push(*child, number_at(conditions, place, *child))?;
    }
    Ok(numbered)
}

/// The children of each container, given as lists in the order of the sheet, by their numbers. The conditions are those
/// of `placed_conditions`.
pub(crate) fn numbered_children(
    alloc: Global,
    children: &[Items<u16>],
    conditions: &[Items<(Comparison, usize)>],
) -> Result<Vec<NumberedChildren>, AllocError>
    ensures { IfOk result (λ all. AreAllByNumber conditions.now children.now all.items) }
{
    let mut all = Vec::with_capacity(alloc, children.len())?;
    for own in children {
        all.push(by_number(alloc, own.as_slice(), conditions)?)?;
    }
    Ok(all)
}
