//! A block of a list.

ghost use Rattle.std.specs.Prelude.{◌≡◌, ◌<◌, ◌++◌, ◌∷◌, [], IfOk, List, OnOk, int_lt, length, map};
ghost use Rattle.std.specs.Arc.{arc_value};
ghost use Rattle.std.specs.Option.{option_to_list};
ghost use Rattle.shared_items.specs.Blocks.{HaveItems, items_of_blocks};
ghost use Rattle.shared_items.specs.Order.{RiseBy, with_item, without_first};

use crate::numbered::Numbered;
use crate::search::place_of;
use std::alloc::{AllocError, Global};
use std::marker::Model;
use std::sync::Arc;

/// The most items of a block.
const MOST: usize = 128;

/// Items that several lists share.
#[derive(Drop)]
pub struct Block<T: Numbered> {
    items: Vec<Arc<T, Global>>,
}

impl<T: Numbered> Model for Block<T> {
    ghost use Rattle.std.specs.Prelude.{List, map};
    ghost use Rattle.std.specs.Arc.{arc_value};

    ghost Value = { List T };

    ghost view = { λ b. map arc_value b.items.items };
}

/// Adds the same items once more at the end. The one error is want of memory.
fn share_items<T: Numbered>(
    to: &mut Vec<Arc<T, Global>>,
    items: &[Arc<T, Global>],
) -> Result<(), AllocError>
    ensures { OnOk result (map arc_value to.new.items ≡ map arc_value to.old.items ++ map arc_value items.now) }
{
    for item in items {
        to.push(Arc::try_clone(item)?)?;
    }
    Ok(())
}

/// The items but the first, where that has the number.
fn without_first<T: Numbered>(items: &[Arc<T, Global>], number: i64) -> &[Arc<T, Global>]
    ensures { map arc_value result.now ≡ without_first T.number_of number (map arc_value items.now) }
{
    match items.split_first() {
        Some((first, behind)) if first.number() == number => behind,
        _ => items,
    }
}

impl<T: Numbered> Block<T> {
    /// The items.
    pub fn items(&self) -> &[Arc<T, Global>]
        ensures { map arc_value result.now ≡ self.now }
    {
        self.items.as_slice()
    }

    /// Whether it begins with a number above this one.
    pub(crate) fn begins_above(&self, number: i64) -> bool
        requires { 0 < length self.now }
        ensures { (item : T) (items : List T) → self.now ≡ item ∷ items → result ≡ int_lt number (T.number_of item) }
    {
        number < self.items[0].number()
    }

    /// A block of one item.
    pub(crate) fn of_one(alloc: Global, item: Arc<T, Global>) -> Result<Block<T>, AllocError>
        ensures { IfOk result (λ block. block ≡ arc_value item ∷ []) }
    {
        let mut items = Vec::with_capacity(alloc, 1)?;
        items.push(item)?;
        Ok(Block { items })
    }

    /// A block of some items.
    fn of_items(alloc: Global, items: &[Arc<T, Global>]) -> Result<Block<T>, AllocError>
        ensures { IfOk result (λ block. block ≡ map arc_value items.now) }
    {
        let mut all = Vec::with_capacity(alloc, items.len())?;
        share_items(&mut all, items)?;
        Ok(Block { items: all })
    }

    /// A block of some items and one more.
    fn of_all(
        alloc: Global,
        before: &[Arc<T, Global>],
        item: Arc<T, Global>,
    ) -> Result<Block<T>, AllocError>
        ensures { IfOk result (λ block. block ≡ map arc_value before.now ++ arc_value item ∷ []) }
    {
        let mut items = Vec::with_capacity(alloc, before.len().saturating_add(1))?;
        share_items(&mut items, before)?;
        items.push(item)?;
        Ok(Block { items })
    }

    /// A block of some items, one more, and those behind it.
    fn joined(
        alloc: Global,
        before: &[Arc<T, Global>],
        item: Arc<T, Global>,
        behind: &[Arc<T, Global>],
    ) -> Result<Block<T>, AllocError>
        ensures { IfOk result (λ block. block ≡
            map arc_value before.now ++ arc_value item ∷ map arc_value behind.now) }
    {
        let room = before.len().saturating_add(behind.len());
        let mut items = Vec::with_capacity(alloc, room.saturating_add(1))?;
        share_items(&mut items, before)?;
        items.push(item)?;
        share_items(&mut items, behind)?;
        Ok(Block { items })
    }

    /// The block with an item at its place, in place of the one with its number. A full block becomes two, parted where
    /// the item belongs, so that items that come in order fill their blocks.
    pub(crate) fn with(
        &self,
        alloc: Global,
        item: Arc<T, Global>,
    ) -> Result<(Block<T>, Option<Block<T>>), AllocError>
        requires some { 0 < length self.now }
        requires rising { RiseBy T.number_of self.now }
        ensures items { IfOk result (λ parts. items_of_blocks (parts.0 ∷ option_to_list parts.1) ≡
            with_item T.number_of (arc_value item) self.now) }
        ensures some { IfOk result (λ parts. HaveItems (parts.0 ∷ option_to_list parts.1)) }
    {
        let number = item.number();
        let place = place_of(self.items.as_slice(), number);
        let (before, from) = self.items.as_slice().split_at(place);
        let behind = without_first(from, number);
        if self.items.len() < MOST || behind.len() < from.len() {
            return Ok((Block::joined(alloc, before, item, behind)?, None));
        }
        if behind.len() == 0 {
            let first = Block::of_items(alloc, before)?;
            return Ok((first, Some(Block::of_one(alloc, item)?)));
        }
        let first = Block::of_all(alloc, before, item)?;
        Ok((first, Some(Block::of_items(alloc, behind)?)))
    }
}
