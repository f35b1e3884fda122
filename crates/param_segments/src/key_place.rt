//! Where a key stands among segments.

ghost use Rattle.std.specs.Prelude.{◌≡◌};
ghost use Rattle.param_segments.specs.RowPlaces.{key_in, place_key};

use arch_types::key::Key;

/// A key, and the segment of its row, in 16 octets. The order is that of the keys.
#[derive(Clone, Copy, Debug, PartialEq, Eq, PartialOrd, Ord)]
pub(crate) struct KeyPlace {
    pub(crate) time: i64,
    pub(crate) seq: u32,
    /// The number of the segment.
    pub(crate) segment: u32,
}

impl KeyPlace {
    /// A key of the segment with a number.
    pub(crate) fn new(key: Key, segment: u32) -> KeyPlace
        ensures { result ≡ key_in segment key }
    {
        KeyPlace {
            time: key.time,
            seq: key.seq,
            segment,
        }
    }

    pub(crate) fn key(&self) -> Key
        ensures { result ≡ place_key self.now }
    {
        Key {
            time: self.time,
            seq: self.seq,
        }
    }
}
