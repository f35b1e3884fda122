//! The index that only grows.

use crate::index::BlockIndex;
use crate::policy::GrowOnly;

/// An index of which no entry is taken out.
pub type GrowingIndex<K, V> = BlockIndex<K, V, GrowOnly>;
