//! The list.

ghost use Rattle.std.specs.Prelude.{◌≡◌, ◌+◌, ◌<◌, ◌++◌, ◌∷◌, [], IfOk, OnErr, OnOk, drop, length, map, take};
ghost use Rattle.std.specs.Arc.{arc_value};
ghost use Rattle.std.specs.Option.{option_to_list};
ghost use Rattle.shared_items.specs.Blocks.{items_of_blocks};
ghost use Rattle.shared_items.specs.Order.{AreFrom, RiseBy, with_item};

use crate::block::Block;
use crate::numbered::Numbered;
use crate::search::block_for;
use std::alloc::{AllocError, Global};
use std::marker::Model;
use std::sync::Arc;

/// Items in the order of their numbers, in blocks that copies share.
#[derive(Drop)]
pub struct SharedItems<T: Numbered> {
    blocks: Vec<Arc<Block<T>, Global>>,
}

impl<T: Numbered> Model for SharedItems<T> {
    ghost use Rattle.std.specs.Prelude.{List, map};
    ghost use Rattle.std.specs.Arc.{arc_value};
    ghost use Rattle.shared_items.specs.Blocks.{AreBlocks, items_of_blocks};

    ghost Value = { List T };

    ghost view = { λ s. items_of_blocks (map arc_value s.blocks.items) };

    ghost invariant = { λ s. AreBlocks T.number_of (map arc_value s.blocks.items) };
}

/// Puts one or two blocks in place of one. Refused for want of memory, all is as it was.
fn replace_block<T: Numbered>(
    alloc: Global,
    blocks: &mut Vec<Arc<Block<T>, Global>>,
    place: usize,
    first: Block<T>,
    second: Option<Block<T>>,
) -> Result<(), AllocError>
    requires { place < length blocks.old.items }
    ensures replaced { OnOk result (map arc_value blocks.new.items ≡ map arc_value (take place blocks.old.items)
        ++ ((first ∷ option_to_list second) ++ map arc_value (drop (place + 1) blocks.old.items))) }
    ensures refused { OnErr result (blocks.new.items ≡ blocks.old.items) }
{
    let first = Arc::new(alloc, first)?;
    let Some(second) = second else {
        blocks[place] = first;
        return Ok(());
    };
    let second = Arc::new(alloc, second)?;
    blocks.insert(place + 1, second)?;
    blocks[place] = first;
    Ok(())
}

impl<T: Numbered> SharedItems<T> {
    /// No item.
    pub fn new(alloc: Global) -> SharedItems<T>
        ensures { result ≡ [] }
    {
        SharedItems {
            blocks: Vec::new(alloc),
        }
    }

    /// The blocks, one after the other.
    pub fn blocks(&self) -> &[Arc<Block<T>, Global>]
        ensures items { items_of_blocks (map arc_value result.now) ≡ self.now }
        ensures rising { RiseBy T.number_of self.now }
    {
        self.blocks.as_slice()
    }

    /// The blocks from the one on in which a number belongs: all items before them have numbers below it.
    pub fn blocks_from(&self, number: i64) -> &[Arc<Block<T>, Global>]
        ensures from { AreFrom T.number_of number self.now (items_of_blocks (map arc_value result.now)) }
        ensures rising { RiseBy T.number_of self.now }
    {
        if self.blocks.len() == 0 {
            return self.blocks.as_slice();
        }
        let place = block_for(self.blocks.as_slice(), number);
        &self.blocks.as_slice()[place..]
    }

    /// The same items once more, in the same blocks. The one error is want of memory.
    pub fn share(&self, alloc: Global) -> Result<SharedItems<T>, AllocError>
        ensures { IfOk result (λ shared. shared ≡ self.now) }
    {
        let mut blocks = Vec::with_capacity(alloc, self.blocks.len())?;
        for block in self.blocks.as_slice() {
            blocks.push(Arc::try_clone(block)?)?;
        }
        Ok(SharedItems { blocks })
    }

    /// Puts an item at its place, in place of the one with its number, and makes its block anew. Refused for want of
    /// memory, the list is as it was.
    pub fn put(&mut self, alloc: Global, item: T) -> Result<(), AllocError>
        ensures put { OnOk result (self.new ≡ with_item T.number_of item self.old) }
        ensures refused { OnErr result (self.new ≡ self.old) }
    {
        let number = item.number();
        let item = Arc::new(alloc, item)?;
        if self.blocks.len() == 0 {
            let block = Arc::new(alloc, Block::of_one(alloc, item)?)?;
            self.blocks.push(block)?;
            return Ok(());
        }
        let place = block_for(self.blocks.as_slice(), number);
        let (first, second) = self.blocks[place].with(alloc, item)?;
        replace_block(alloc, &mut self.blocks, place, first, second)
    }
}
