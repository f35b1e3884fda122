//! The values of keys in blocks.

ghost use Rattle.std.specs.Prelude.{◌≡◌, ℕ, length, IfNone, OnSome, vec_len, vec_capacity};
ghost use Rattle.std.specs.Map.{lookup};
ghost use Rattle.std.specs.BTreeMap.{is_at, insert_entry};
ghost use Rattle.std.specs.BTreeMap.Range.{entries_from};
ghost use Rattle.block_map.specs.Rising.{IsRising};
ghost use Rattle.block_map.specs.Blocks.{entries_of, excess_of, AreFilled, AreRisingBlocks};

use crate::blocks::{Block, set_value};
use crate::entries::Entries;
use crate::search::{block_for, place_again, place_in};

/// The value of a key.
pub(crate) fn value_of<K: Ord + Copy, V: Copy>(
    blocks: &[Block<K, V>],
    key: K,
    near: usize,
) -> Option<V>
    requires { AreRisingBlocks K.cmp blocks.now }
    ensures { result ≡ lookup (is_at (K.cmp key)) (entries_of blocks.now) }
{
    let b = block_for(blocks, key, near);
    let block = blocks[b].as_slice();
    match place_in(block, key) {
        Ok(at) => Some(block[at].1),
        Err(_) => None,
    }
}

/// Gives a key that is there another value, and answers the old one. Its place in its block is kept, since a key that is
/// given one value after the other mostly comes again.
pub(crate) fn replace_value<K: Ord + Copy, V: Copy>(
    blocks: &mut Vec<Block<K, V>>,
    key: K,
    value: V,
    near: usize,
    again: &mut usize,
) -> Option<V>
    requires { AreRisingBlocks K.cmp blocks.old.items }
    ensures blocks { AreRisingBlocks K.cmp blocks.new.items }
    ensures filled { (fill : ℕ) → AreFilled fill blocks.old.items → AreFilled fill blocks.new.items }
    ensures excess { (keep : ℕ) → excess_of keep blocks.new.items ≡ excess_of keep blocks.old.items }
    ensures found { result ≡ lookup (is_at (K.cmp key)) (entries_of blocks.old.items) }
    ensures replaced { OnSome result (entries_of blocks.new.items ≡ insert_entry K.cmp (entries_of blocks.old.items)
        key value) }
    ensures absent { IfNone result (entries_of blocks.new.items ≡ entries_of blocks.old.items) }
    ensures counted { length (entries_of blocks.new.items) ≡ length (entries_of blocks.old.items) }
    ensures len { vec_len blocks.new ≡ vec_len blocks.old }
    ensures capacity { vec_capacity blocks.new ≡ vec_capacity blocks.old }
{
    let b = block_for(blocks.as_slice(), key, near);
    let block = blocks[b].as_slice();
    match place_again(block, key, *again) {
        Ok(at) => {
            let old = block[at].1;
            set_value(blocks, b, at, key, value);
            *again = at;
            Some(old)
        }
        Err(_) => None,
    }
}

/// The entries whose keys are not below this one.
pub(crate) fn entries_from_key<K: Ord + Copy, V: Copy>(
    blocks: &[Block<K, V>],
    key: K,
    near: usize,
) -> Entries<'_, K, V>
    requires { AreRisingBlocks K.cmp blocks.now }
    ensures entries { result ≡ entries_from (K.cmp key) (entries_of blocks.now) }
    ensures rising { IsRising K.cmp result }
{
    let b = block_for(blocks, key, near);
    let block = blocks[b].as_slice();
    let (_, rest) = blocks.split_at(b + 1);
    match place_in(block, key) {
        Ok(at) => Entries::new(block.split_at(at).1, rest),
        Err(at) => Entries::new(block.split_at(at).1, rest),
    }
}
