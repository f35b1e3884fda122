//! The indexes.

ghost use Rattle.std.specs.Prelude.{◌≡◌, ◌+◌, ◌<◌, ◌≤◌, ◌^◌, [], length, max, IfSome, IfNone, OnSome, OnOk, OnErr, slice_get};
ghost use Rattle.std.specs.Map.{lookup, remove_entry};
ghost use Rattle.std.specs.BTreeMap.{is_at, insert_entry};
ghost use Rattle.std.specs.BTreeMap.Range.{entries_from};
ghost use Rattle.block_map.specs.Rising.{IsRising};
ghost use Rattle.block_map.specs.Index.{IsAdded, tally_of};

use crate::body::Body;
use crate::entries::Entries;
use crate::policy::{Removable, SplitPolicy};
use std::alloc::{AllocError, Global};
use std::marker::Model;

/// Values by key, in the order of the keys. Each key stands once.
#[derive(Drop)]
pub struct BlockIndex<K: Ord + Copy, V: Copy, P: SplitPolicy> {
    alloc: Global,
    /// There once room was made.
    body: Option<Body<K, V, P>>,
}

/// An index of which entries may be taken out again.
pub type Index<K, V> = BlockIndex<K, V, Removable>;

impl<K: Ord + Copy, V: Copy, P: SplitPolicy> Model for BlockIndex<K, V, P> {
    ghost use Rattle.block_map.specs.Index.{Listing, listing_of};

    ghost Value = { Listing K V };

    ghost view = { λ i. listing_of i.body };
}

impl<K: Ord + Copy, V: Copy, P: SplitPolicy> BlockIndex<K, V, P> {
    /// An index with no entry and no room. Takes no memory.
    pub fn new(alloc: Global) -> Self
        ensures { result ≡ record { entries = []; room = 0 } }
    {
        BlockIndex { alloc, body: None }
    }

    /// How many entries there are.
    pub fn len(&self) -> usize
        ensures count { result ≡ length self.now.entries }
        ensures rising { IsRising K.cmp self.now.entries }
    {
        match &self.body {
            Some(body) => body.len(),
            None => 0,
        }
    }

    /// How many more entries go in without memory.
    pub fn room(&self) -> usize
        ensures { result ≡ self.now.room }
    {
        match &self.body {
            Some(body) => body.room(),
            None => 0,
        }
    }

    /// Makes the room at least `additional`. The one error is want of memory, and then all is as before.
    pub fn reserve(&mut self, additional: usize) -> Result<(), AllocError>
        ensures ok { OnOk result (self.new ≡ record {
          entries = self.old.entries;
          room = max self.old.room
              additional;
        }) }
        ensures err { OnErr result (self.new ≡ self.old) }
        ensures full { OnErr result (self.old.room < additional) }
    {
        match &mut self.body {
            Some(body) => body.reserve(additional),
            None if additional == 0 => Ok(()),
            None => {
                let mut body = Body::new(self.alloc)?;
                body.reserve(additional)?;
                self.body = Some(body);
                Ok(())
            }
        }
    }

    /// Adds an entry where its key is new, and answers `None`. A key that is there already keeps its value, which is
    /// the answer. Takes no memory.
    pub fn insert(&mut self, key: K, value: V) -> Option<V>
        requires { 0 < self.old.room }
        ensures found { result ≡ lookup (is_at (K.cmp key)) self.old.entries }
        ensures present { IfSome result (λ _. self.new ≡ self.old) }
        ensures absent { IfNone result (IsAdded K.cmp self.old self.new key value) }
        ensures left { self.old.room ≤ self.new.room + 1 }
        ensures rising { IsRising K.cmp self.new.entries }
    {
        match &mut self.body {
            Some(body) => body.insert(key, value),
            None => None,
        }
    }

    /// The value of a key.
    pub fn get(&self, key: K) -> Option<V>
        ensures { result ≡ lookup (is_at (K.cmp key)) self.now.entries }
    {
        match &self.body {
            Some(body) => body.get(key),
            None => None,
        }
    }

    /// Gives a key that is there another value, and answers the old one. A key that isn't there stays away.
    pub fn replace(&mut self, key: K, value: V) -> Option<V>
        ensures found { result ≡ lookup (is_at (K.cmp key)) self.old.entries }
        ensures replaced { OnSome result (self.new ≡ record {
          entries = insert_entry K.cmp self.old.entries key value;
          room = self.old.room;
        }) }
        ensures absent { IfNone result (self.new ≡ self.old) }
        ensures rising { IsRising K.cmp self.new.entries }
    {
        match &mut self.body {
            Some(body) => body.replace(key, value),
            None => None,
        }
    }

    /// All entries, in the order of their keys.
    pub fn iter(&self) -> Entries<'_, K, V>
        ensures entries { result ≡ self.now.entries }
        ensures rising { IsRising K.cmp result }
    {
        match &self.body {
            Some(body) => body.iter(),
            None => Entries::new(&[], &[]),
        }
    }

    /// The entry of the least key.
    pub fn first(&self) -> Option<(K, V)>
        ensures least { result ≡ slice_get self.now.entries 0 }
        ensures rising { IsRising K.cmp self.now.entries }
    {
        self.iter().next().copied()
    }

    /// The entries whose keys are not below this one, in the order of their keys.
    pub fn from_key(&self, key: K) -> Entries<'_, K, V>
        ensures entries { result ≡ entries_from (K.cmp key) self.now.entries }
        ensures rising { IsRising K.cmp result }
    {
        match &self.body {
            Some(body) => body.from_key(key),
            None => Entries::new(&[], &[]),
        }
    }
}

impl<K: Ord + Copy, V: Copy> BlockIndex<K, V, Removable> {
    /// Takes out a key that is there, and answers its value. Its place can be used again without memory.
    pub fn remove(&mut self, key: K) -> Option<V>
        ensures found { result ≡ lookup (is_at (K.cmp key)) self.old.entries }
        ensures removed { OnSome result (self.new ≡ record {
          entries = remove_entry (is_at (K.cmp key))
              self.old.entries;
          room = self.old.room + 1;
        }) }
        ensures absent { IfNone result (self.new ≡ self.old) }
        ensures rising { IsRising K.cmp self.new.entries }
    {
        match &mut self.body {
            Some(body) => body.remove(key),
            None => None,
        }
    }
}

impl<K: Ord + Copy, P: SplitPolicy> BlockIndex<K, u64, P> {
    /// Counts one more of a key, of which none was counted where it isn't there, and answers the count. Takes no memory.
    pub fn add_one(&mut self, key: K) -> u64
        requires room { 0 < self.old.room }
        requires small { tally_of K.cmp self.old.entries key + 1 < 2 ^ 64 }
        ensures count { result ≡ tally_of K.cmp self.old.entries key + 1 }
        ensures entries { self.new.entries ≡ insert_entry K.cmp self.old.entries key result }
        ensures left { self.old.room ≤ self.new.room + 1 }
        ensures rising { IsRising K.cmp self.new.entries }
    {
        match &mut self.body {
            Some(body) => body.add_one(key),
            None => 0,
        }
    }
}
