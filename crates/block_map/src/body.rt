//! The blocks of an index that has room or had some.

ghost use Rattle.std.specs.Prelude.{◌≡◌, ◌+◌, ◌-◌, ◌<◌, ◌≤◌, ◌^◌, [], length, max, IfSome, IfNone, IfOk, OnSome, OnOk, OnErr, vec_len, vec_capacity};
ghost use Rattle.std.specs.Map.{lookup, remove_entry};
ghost use Rattle.std.specs.BTreeMap.{is_at, insert_entry};
ghost use Rattle.std.specs.BTreeMap.Range.{entries_from};
ghost use Rattle.block_map.specs.Rising.{IsRising};
ghost use Rattle.block_map.specs.Blocks.{AreReady};
ghost use Rattle.block_map.specs.Index.{IsAdded, tally_of};

use crate::blocks::{Block, CAPACITY, MIN_FILL, open_block, put, set_value};
use crate::entries::Entries;
use crate::policy::{Removable, SplitPolicy};
use crate::removal::{rebalance, take_out};
use crate::search::{block_for, place_again, place_in};
use crate::values::{entries_from_key, replace_value, value_of};
use std::alloc::{AllocError, Global};
use std::marker::{Model, PhantomData};

/// Blocks of values by key, in the order of the keys. Each key stands once.
#[derive(Drop)]
pub(crate) struct Body<K: Ord + Copy, V: Copy, P: SplitPolicy> {
    alloc: Global,
    /// The entries, one block after the other. There is always a first block.
    blocks: Vec<Block<K, V>>,
    /// Empty blocks, for splits.
    spare: Vec<Block<K, V>>,
    /// How many entries stand in the blocks.
    len: usize,
    /// What the entries in the blocks have paid for splits that are still to come.
    paid: usize,
    /// How many more entries go in without memory.
    room: usize,
    /// The block of the last entry that went in, or any: keys that come in order beside others mostly stay near it.
    near: usize,
    /// The place in its block of the last key that was counted or given another value, or any: such keys mostly come again.
    again: usize,
    policy: PhantomData<P>,
}

impl<K: Ord + Copy, V: Copy, P: SplitPolicy> Model for Body<K, V, P> {
    ghost use Rattle.block_map.specs.Blocks.{entries_of};
    ghost use Rattle.block_map.specs.Index.{Listing, IsIndex};

    ghost Value = { Listing K V };

    ghost view = { λ i. record { entries = entries_of i.blocks.items; room = i.room } };

    ghost invariant = { λ i. IsIndex K.cmp P.KEEP P.pays_each i.blocks i.spare i.len i.paid i.room };
}

/// Adds empty blocks until there are as many as wanted, used and spare together.
pub(crate) fn add_spare<K: Copy, V: Copy>(
    alloc: Global,
    blocks: &mut Vec<Block<K, V>>,
    spare: &mut Vec<Block<K, V>>,
    wanted: usize,
) -> Result<(), AllocError>
    requires ready { AreReady spare.old.items }
    requires fits { vec_len blocks.old + vec_len spare.old ≤ vec_capacity blocks.old }
    requires fits_spare { vec_len blocks.old + vec_len spare.old ≤ vec_capacity spare.old }
    ensures same { blocks.new.items ≡ blocks.old.items }
    ensures ready { AreReady spare.new.items }
    ensures fits { vec_len blocks.new + vec_len spare.new ≤ vec_capacity blocks.new }
    ensures fits_spare { vec_len blocks.new + vec_len spare.new ≤ vec_capacity spare.new }
    ensures more { vec_len spare.old ≤ vec_len spare.new }
    ensures enough { OnOk result (wanted ≤ vec_len blocks.new + vec_len spare.new) }
{
    let present = blocks.len() + spare.len();
    if wanted <= present {
        return Ok(());
    }
    blocks.reserve(wanted - blocks.len())?;
    spare.reserve(wanted - spare.len())?;
    for _ in present..wanted {
        spare.push_reserved(Vec::with_capacity(alloc, CAPACITY)?);
    }
    Ok(())
}

impl<K: Ord + Copy, V: Copy, P: SplitPolicy> Body<K, V, P> {
    /// A first block without an entry, and no room. The one error is want of memory.
    pub(crate) fn new(alloc: Global) -> Result<Self, AllocError>
        ensures { IfOk result (λ i. i ≡ record { entries = []; room = 0 }) }
    {
        let mut blocks = Vec::with_capacity(alloc, 1)?;
        blocks.push_reserved(Vec::with_capacity(alloc, CAPACITY)?);
        Ok(Body {
            alloc,
            blocks,
            spare: Vec::with_capacity(alloc, 1)?,
            len: 0,
            paid: 0,
            room: 0,
            near: 0,
            again: 0,
            policy: PhantomData,
        })
    }

    /// How many entries there are.
    pub(crate) fn len(&self) -> usize
        ensures count { result ≡ length self.now.entries }
        ensures rising { IsRising K.cmp self.now.entries }
    {
        self.len
    }

    /// How many more entries go in without memory.
    pub(crate) fn room(&self) -> usize
        ensures { result ≡ self.now.room }
    {
        self.room
    }

    /// Makes the room at least `additional`. The one error is want of memory, and then all is as before.
    pub(crate) fn reserve(&mut self, additional: usize) -> Result<(), AllocError>
        ensures ok { OnOk result (self.new ≡ record {
          entries = self.old.entries;
          room = max self.old.room
              additional;
        }) }
        ensures err { OnErr result (self.new ≡ self.old) }
        ensures full { OnErr result (self.old.room < additional) }
    {
        if additional <= self.room {
            return Ok(());
        }
        if self.len.checked_add(additional).is_none() {
            return Err(AllocError);
        }
        let splits = (self.paid + additional) / (CAPACITY - P::KEEP);
        let Some(wanted) = splits.checked_add(self.blocks.len()) else {
            return Err(AllocError);
        };
        add_spare(self.alloc, &mut self.blocks, &mut self.spare, wanted)?;
        self.room = additional;
        Ok(())
    }

    /// Adds an entry where its key is new, and answers `None`. A key that is there already keeps its value, which is
    /// the answer. Takes no memory.
    pub(crate) fn insert(&mut self, key: K, value: V) -> Option<V>
        requires { 0 < self.old.room }
        ensures found { result ≡ lookup (is_at (K.cmp key)) self.old.entries }
        ensures present { IfSome result (λ _. self.new ≡ self.old) }
        ensures absent { IfNone result (IsAdded K.cmp self.old self.new key value) }
        ensures left { self.old.room ≤ self.new.room + 1 }
        ensures rising { IsRising K.cmp self.new.entries }
    {
        let spares = self.spare.len();
        let b = open_block(&mut self.blocks, &mut self.spare, key, self.near, P::KEEP);
        self.paid -= (spares - self.spare.len()) * (CAPACITY - P::KEEP);
        let block = self.blocks[b].as_slice();
        match place_in(block, key) {
            Ok(at) => Some(block[at].1),
            Err(at) => {
                self.paid += P::payment(block.len());
                put(&mut self.blocks, b, at, key, value);
                self.len += 1;
                self.room -= 1;
                self.near = b;
                None
            }
        }
    }

    /// The value of a key.
    pub(crate) fn get(&self, key: K) -> Option<V>
        ensures { result ≡ lookup (is_at (K.cmp key)) self.now.entries }
    {
        value_of(self.blocks.as_slice(), key, self.near)
    }

    /// Gives a key that is there another value, and answers the old one. A key that isn't there stays away.
    pub(crate) fn replace(&mut self, key: K, value: V) -> Option<V>
        ensures found { result ≡ lookup (is_at (K.cmp key)) self.old.entries }
        ensures replaced { OnSome result (self.new ≡ record {
          entries = insert_entry K.cmp self.old.entries key value;
          room = self.old.room;
        }) }
        ensures absent { IfNone result (self.new ≡ self.old) }
        ensures rising { IsRising K.cmp self.new.entries }
    {
        replace_value(&mut self.blocks, key, value, self.near, &mut self.again)
    }

    /// All entries, in the order of their keys.
    pub(crate) fn iter(&self) -> Entries<'_, K, V>
        ensures entries { result ≡ self.now.entries }
        ensures rising { IsRising K.cmp result }
    {
        Entries::new(&[], self.blocks.as_slice())
    }

    /// The entries whose keys are not below this one, in the order of their keys.
    pub(crate) fn from_key(&self, key: K) -> Entries<'_, K, V>
        ensures entries { result ≡ entries_from (K.cmp key) self.now.entries }
        ensures rising { IsRising K.cmp result }
    {
        entries_from_key(self.blocks.as_slice(), key, self.near)
    }
}

impl<K: Ord + Copy, V: Copy> Body<K, V, Removable> {
    /// Takes out a key that is there, and answers its value. Its place can be used again without memory.
    pub(crate) fn remove(&mut self, key: K) -> Option<V>
        ensures found { result ≡ lookup (is_at (K.cmp key)) self.old.entries }
        ensures removed { OnSome result (self.new ≡ record {
          entries = remove_entry (is_at (K.cmp key))
              self.old.entries;
          room = self.old.room + 1;
        }) }
        ensures absent { IfNone result (self.new ≡ self.old) }
        ensures rising { IsRising K.cmp self.new.entries }
    {
        let b = block_for(self.blocks.as_slice(), key, self.near);
        let block = self.blocks[b].as_slice();
        match place_in(block, key) {
            Ok(at) => {
                let old = block[at].1;
                take_out(&mut self.blocks, b, at, key);
                rebalance(&mut self.blocks, &mut self.spare, b);
                self.len -= 1;
                self.paid = self.len - (self.blocks.len() - 1) * MIN_FILL;
                self.room += 1;
                Some(old)
            }
            Err(_) => None,
        }
    }
}

impl<K: Ord + Copy, P: SplitPolicy> Body<K, u64, P> {
    /// Counts one more of a key, of which none was counted where it isn't there, and answers the count. Takes no memory.
    pub(crate) fn add_one(&mut self, key: K) -> u64
        requires room { 0 < self.old.room }
        requires small { tally_of K.cmp self.old.entries key + 1 < 2 ^ 64 }
        ensures count { result ≡ tally_of K.cmp self.old.entries key + 1 }
        ensures entries { self.new.entries ≡ insert_entry K.cmp self.old.entries key result }
        ensures left { self.old.room ≤ self.new.room + 1 }
        ensures rising { IsRising K.cmp self.new.entries }
    {
        let spares = self.spare.len();
        let b = open_block(&mut self.blocks, &mut self.spare, key, self.near, P::KEEP);
        self.paid -= (spares - self.spare.len()) * (CAPACITY - P::KEEP);
        let entries = self.blocks[b].as_slice();
        match place_again(entries, key, self.again) {
            Ok(at) => {
                let count = entries[at].1 + 1;
                set_value(&mut self.blocks, b, at, key, count);
                self.again = at;
                count
            }
            Err(at) => {
                self.paid += P::payment(entries.len());
                put(&mut self.blocks, b, at, key, 1);
                self.len += 1;
                self.room -= 1;
                self.near = b;
                1
            }
        }
    }
}
