//! What takes an entry out of blocks, and fills up the block that it was in.

ghost use Rattle.std.specs.Prelude.{◌≡◌, ◌+◌, ◌<◌, ◌≤◌, length, slice_index_or, vec_len, vec_capacity, Ok};
ghost use Rattle.std.specs.Global.{Vec};
ghost use Rattle.std.specs.Map.{remove_entry};
ghost use Rattle.std.specs.BTreeMap.{is_at};
ghost use Rattle.block_map.specs.Rising.{IsPlaceIn};
ghost use Rattle.block_map.specs.Blocks.{entries_of, IsBlockFor, IsBlocks, IsUnderfullAt, AreReady};

use crate::blocks::{Block, CAPACITY, MIN_FILL};

/// Takes the entry at a place out of its block, which may then lack one of `MIN_FILL`.
pub(crate) fn take_out<K: Ord + Copy, V: Copy>(
    blocks: &mut Vec<Block<K, V>>,
    b: usize,
    at: usize,
    key: K,
)
    requires blocks { IsBlocks K.cmp blocks.old.items }
    requires place { IsBlockFor K.cmp key blocks.old.items b }
    requires at { (d : Vec (K × V)) → IsPlaceIn K.cmp key (slice_index_or blocks.old.items b d).items (Ok at) }
    ensures underfull { IsUnderfullAt K.cmp blocks.new.items b }
    ensures entries { entries_of blocks.new.items ≡ remove_entry (is_at (K.cmp key)) (entries_of blocks.old.items) }
    ensures counted { length (entries_of blocks.new.items) + 1 ≡ length (entries_of blocks.old.items) }
    ensures len { vec_len blocks.new ≡ vec_len blocks.old }
    ensures capacity { vec_capacity blocks.new ≡ vec_capacity blocks.old }
{
    let _ = blocks[b].remove(at);
}

/// Joins a block and the one after it, where both fit into one.
fn merge<K: Ord + Copy, V: Copy>(
    blocks: &mut Vec<Block<K, V>>,
    spare: &mut Vec<Block<K, V>>,
    left: usize,
)
    requires underfull { IsUnderfullAt K.cmp blocks.old.items (left + 1) }
    requires within { left + 1 < length blocks.old.items }
    requires fit { (d : Vec (K × V)) → length (slice_index_or blocks.old.items left d).items + length
        (slice_index_or blocks.old.items (left + 1) d).items ≤ CAPACITY }
    requires ready { AreReady spare.old.items }
    requires room { vec_len blocks.old + vec_len spare.old ≤ vec_capacity spare.old }
    ensures blocks { IsBlocks K.cmp blocks.new.items }
    ensures same { entries_of blocks.new.items ≡ entries_of blocks.old.items }
    ensures ready { AreReady spare.new.items }
    ensures moved { vec_len blocks.new + vec_len spare.new ≡ vec_len blocks.old + vec_len spare.old }
    ensures capacity { vec_capacity blocks.new ≡ vec_capacity blocks.old }
    ensures spare_capacity { vec_capacity spare.new ≡ vec_capacity spare.old }
{
    let mut right = blocks.remove(left + 1);
    let _ = blocks[left].append(&mut right);
    spare.push_reserved(right);
}

/// Moves the last entry of a block to the front of the one after it.
fn borrow_from_left<K: Ord + Copy, V: Copy>(blocks: &mut Vec<Block<K, V>>, left: usize)
    requires underfull { IsUnderfullAt K.cmp blocks.old.items (left + 1) }
    requires within { left + 1 < length blocks.old.items }
    requires more { (d : Vec (K × V)) → MIN_FILL < length (slice_index_or blocks.old.items left d).items }
    requires less { (d : Vec (K × V)) → length (slice_index_or blocks.old.items (left + 1) d).items < MIN_FILL }
    ensures blocks { IsBlocks K.cmp blocks.new.items }
    ensures same { entries_of blocks.new.items ≡ entries_of blocks.old.items }
    ensures len { vec_len blocks.new ≡ vec_len blocks.old }
    ensures capacity { vec_capacity blocks.new ≡ vec_capacity blocks.old }
{
    if let Some(entry) = blocks[left].pop() {
        let _ = blocks[left + 1].insert(0, entry);
    }
}

/// Fills up a block that lacks one entry of `MIN_FILL`, from the block before it: both become one, or it gets that one's
/// last entry. The first block may hold any number.
pub(crate) fn rebalance<K: Ord + Copy, V: Copy>(
    blocks: &mut Vec<Block<K, V>>,
    spare: &mut Vec<Block<K, V>>,
    b: usize,
)
    requires underfull { IsUnderfullAt K.cmp blocks.old.items b }
    requires within { b < length blocks.old.items }
    requires ready { AreReady spare.old.items }
    requires room { vec_len blocks.old + vec_len spare.old ≤ vec_capacity spare.old }
    ensures blocks { IsBlocks K.cmp blocks.new.items }
    ensures same { entries_of blocks.new.items ≡ entries_of blocks.old.items }
    ensures ready { AreReady spare.new.items }
    ensures moved { vec_len blocks.new + vec_len spare.new ≡ vec_len blocks.old + vec_len spare.old }
    ensures capacity { vec_capacity blocks.new ≡ vec_capacity blocks.old }
    ensures spare_capacity { vec_capacity spare.new ≡ vec_capacity spare.old }
{
    if b == 0 || blocks[b].len() >= MIN_FILL {
        return;
    }
    let left = b - 1;
    if blocks[left].len() + blocks[b].len() <= CAPACITY {
        merge(blocks, spare, left);
    } else {
        borrow_from_left(blocks, left);
    }
}
