//! The records of a histogram.

use item_list::Items;

/// Times of one packet name without a gap: the first, the last, in milliseconds, and how many.
#[derive(Clone, Copy, Debug, PartialEq, Eq)]
pub struct Span {
    pub first: i64,
    pub last: i64,
    pub count: u64,
}

/// Spans in the order of their times.
pub type Spans = Items<Span>;
