//! Blocks of entries in the order of their keys, and what puts entries into them.

ghost use Rattle.std.specs.Prelude.{◌≡◌, ◌+◌, ◌-◌, ◌*◌, ◌<◌, ◌≤◌, ℕ, [], length, take, drop, insert, slice_index_or, vec_len, vec_capacity, Ok, Err};
ghost use Rattle.std.specs.Global.{Vec};
ghost use Rattle.std.specs.BTreeMap.{insert_entry};
ghost use Rattle.block_map.specs.Rising.{IsRising, IsPlaceIn};
ghost use Rattle.block_map.specs.Blocks.{entries_of, excess_of, AreFilled, AreRisingBlocks, HasSpares, IsBlockFor, IsOpenFor, AreReady};

use crate::search::{block_for, place_in};

/// The entries of a full block.
pub const CAPACITY: usize = 1024;

/// The entries of each half of a full block.
pub const HALF: usize = CAPACITY / 2;

/// The entries that each block but the first of an `Index` has at least.
pub const MIN_FILL: usize = CAPACITY / 4;

pub(crate) type Block<K, V> = Vec<(K, V)>;

/// Moves the entries of a full block from a place on into an empty one.
fn move_upper<K: Copy, V: Copy>(block: &mut Block<K, V>, upper: &mut Block<K, V>, at: usize)
    requires full { vec_len block.old ≡ CAPACITY }
    requires at { at ≤ CAPACITY }
    requires empty { upper.old.items ≡ [] }
    requires room { CAPACITY ≤ vec_capacity upper.old }
    ensures lower { block.new.items ≡ take at block.old.items }
    ensures upper { upper.new.items ≡ drop at block.old.items }
    ensures lower_len { vec_len block.new ≡ at }
    ensures upper_len { vec_len upper.new + at ≡ CAPACITY }
    ensures same { vec_capacity block.new ≡ vec_capacity block.old }
    ensures kept { CAPACITY ≤ vec_capacity upper.new }
{
    let (_, high) = block.as_slice().split_at(at);
    let _ = upper.extend_from_slice(high);
    block.truncate(at);
}

/// Splits a full block, its entries from a place on in a spare block behind it.
fn split<K: Ord + Copy, V: Copy>(
    blocks: &mut Vec<Block<K, V>>,
    spare: &mut Vec<Block<K, V>>,
    b: usize,
    at: usize,
)
    requires blocks { AreRisingBlocks K.cmp blocks.old.items }
    requires ready { AreReady spare.old.items }
    requires within { b < length blocks.old.items }
    requires full { (d : Vec (K × V)) → vec_len (slice_index_or blocks.old.items b d) ≡ CAPACITY }
    requires at { (0 < at) × (at < CAPACITY) }
    requires spare { 0 < vec_len spare.old }
    requires room { vec_len blocks.old + vec_len spare.old ≤ vec_capacity blocks.old }
    ensures blocks { AreRisingBlocks K.cmp blocks.new.items }
    ensures filled { (fill : ℕ) → fill ≤ at → fill + at ≤ CAPACITY → AreFilled fill blocks.old.items →
        AreFilled fill blocks.new.items }
    ensures excess { (keep : ℕ) → at ≤ keep → CAPACITY ≤ at + keep → keep ≤ CAPACITY →
        excess_of keep blocks.new.items + (CAPACITY - keep) ≡ excess_of keep blocks.old.items }
    ensures same { entries_of blocks.new.items ≡ entries_of blocks.old.items }
    ensures ready { AreReady spare.new.items }
    ensures moved { vec_len spare.new + 1 ≡ vec_len spare.old }
    ensures longer { vec_len blocks.new ≡ vec_len blocks.old + 1 }
    ensures room { vec_len blocks.new + vec_len spare.new ≤ vec_capacity blocks.new }
    ensures spare_capacity { vec_capacity spare.new ≡ vec_capacity spare.old }
{
    if let Some(mut upper) = spare.pop() {
        move_upper(&mut blocks[b], &mut upper, at);
        let _ = blocks.insert(b + 1, upper);
    }
}

/// Where a full block is split for a key: where the key belongs in it, so that keys that come in order beside others go
/// to the end of a block, but no part gets more than `keep` entries, nor the lower one less than half of them.
fn split_place<K: Ord + Copy, V: Copy>(block: &[(K, V)], key: K, keep: usize) -> usize
    requires rising { IsRising K.cmp block.now }
    requires keep { HALF ≤ keep }
    ensures least { HALF ≤ result }
    ensures most { result ≤ keep }
{
    match place_in(block, key) {
        Ok(at) | Err(at) => at.max(HALF).min(keep),
    }
}

/// The block that a key belongs in, with a place left in it. Full ones are split on the way, and searched again:
/// which part the key belongs in needs no proof of its own. Each split takes the excess of a block over `keep` entries.
pub(crate) fn open_block<K: Ord + Copy, V: Copy>(
    blocks: &mut Vec<Block<K, V>>,
    spare: &mut Vec<Block<K, V>>,
    key: K,
    near: usize,
    keep: usize,
) -> usize
    requires blocks { AreRisingBlocks K.cmp blocks.old.items }
    requires ready { AreReady spare.old.items }
    requires fits { vec_len blocks.old + vec_len spare.old ≤ vec_capacity blocks.old }
    requires keep { (HALF ≤ keep) × (keep < CAPACITY) }
    requires spares { HasSpares keep (excess_of keep blocks.old.items) (vec_len spare.old) }
    ensures { IsOpenFor K.cmp key keep blocks.old spare.old blocks.new spare.new result }
{
    let mut b = block_for(blocks.as_slice(), key, near);
    while blocks[b].len() >= CAPACITY {
        let at = split_place(blocks[b].as_slice(), key, keep);
        split(blocks, spare, b, at);
        b = block_for(blocks.as_slice(), key, near);
    }
    b
}

/// Puts an entry at a place of a block that has room. At its end, where keys mostly come, none is moved for it.
fn insert_reserved<K: Copy, V: Copy>(block: &mut Block<K, V>, at: usize, entry: (K, V))
    requires at { at ≤ vec_len block.old }
    requires room { vec_len block.old < vec_capacity block.old }
    ensures items { block.new.items ≡ insert block.old.items at entry }
    ensures len { vec_len block.new ≡ vec_len block.old + 1 }
    ensures capacity { vec_capacity block.new ≡ vec_capacity block.old }
{
    if at == block.len() {
        block.push_reserved(entry);
    } else {
        let _ = block.insert(at, entry);
    }
}

/// Puts an entry into a block that has a place left.
pub(crate) fn put<K: Ord + Copy, V: Copy>(
    blocks: &mut Vec<Block<K, V>>,
    b: usize,
    at: usize,
    key: K,
    value: V,
)
    requires blocks { AreRisingBlocks K.cmp blocks.old.items }
    requires place { IsBlockFor K.cmp key blocks.old.items b }
    requires at { (d : Vec (K × V)) → IsPlaceIn K.cmp key (slice_index_or blocks.old.items b d).items (Err at) }
    requires open { (d : Vec (K × V)) → vec_len (slice_index_or blocks.old.items b d) < CAPACITY }
    ensures blocks { AreRisingBlocks K.cmp blocks.new.items }
    ensures filled { (fill : ℕ) → AreFilled fill blocks.old.items → AreFilled fill blocks.new.items }
    ensures excess { (keep : ℕ) (d : Vec (K × V)) →
        excess_of keep blocks.new.items + (vec_len (slice_index_or blocks.old.items b d) - keep) ≡
        excess_of keep blocks.old.items + (vec_len (slice_index_or blocks.old.items b d) + 1 - keep) }
    ensures entries { entries_of blocks.new.items ≡ insert_entry K.cmp (entries_of blocks.old.items) key value }
    ensures counted { length (entries_of blocks.new.items) ≡ length (entries_of blocks.old.items) + 1 }
    ensures len { vec_len blocks.new ≡ vec_len blocks.old }
    ensures capacity { vec_capacity blocks.new ≡ vec_capacity blocks.old }
{
    insert_reserved(&mut blocks[b], at, (key, value));
}

/// Gives the entry at a place another value.
pub(crate) fn set_value<K: Ord + Copy, V: Copy>(
    blocks: &mut Vec<Block<K, V>>,
    b: usize,
    at: usize,
    key: K,
    value: V,
)
    requires blocks { AreRisingBlocks K.cmp blocks.old.items }
    requires place { IsBlockFor K.cmp key blocks.old.items b }
    requires at { (d : Vec (K × V)) → IsPlaceIn K.cmp key (slice_index_or blocks.old.items b d).items (Ok at) }
    ensures blocks { AreRisingBlocks K.cmp blocks.new.items }
    ensures filled { (fill : ℕ) → AreFilled fill blocks.old.items → AreFilled fill blocks.new.items }
    ensures excess { (keep : ℕ) → excess_of keep blocks.new.items ≡ excess_of keep blocks.old.items }
    ensures entries { entries_of blocks.new.items ≡ insert_entry K.cmp (entries_of blocks.old.items) key value }
    ensures counted { length (entries_of blocks.new.items) ≡ length (entries_of blocks.old.items) }
    ensures len { vec_len blocks.new ≡ vec_len blocks.old }
    ensures capacity { vec_capacity blocks.new ≡ vec_capacity blocks.old }
{
    let block = &mut blocks[b];
    let (first, _) = block[at];
    block[at] = (first, value);
}
