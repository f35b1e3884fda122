//! The key of a row.

/// A row's place in the order of a table: its generation time in milliseconds since 1970, and then its packet's first four
/// octets as a number.
#[derive(Clone, Copy, Debug, PartialEq, Eq, PartialOrd, Ord)]
pub struct Key {
    pub time: i64,
    pub seq: u32,
}
