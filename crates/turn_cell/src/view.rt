//! What a pass knows. It is said in contracts alone, and no value of these types is made.

use std::collections::LinkedList;

/// Where the turn of a pass stands. The numbers are tickets.
pub enum Stage {
    Idle,
    Waits(u64),
    Turn(u64),
}

/// What a pass has seen of a list, and added to it.
pub struct SeenList<I> {
    /// The beginning of the list that was seen.
    pub seen: LinkedList<I>,
    /// The length that the last turn found.
    pub found: u64,
    /// How many items the pass's turns added.
    pub added: u64,
    /// The places of these items. A clause reads an array as a list, of any length.
    pub places: [u64; 0],
}

/// The same, with what a join leaves to be shown.
pub struct ListView<I> {
    pub list: SeenList<I>,
    /// The shorter one of the lists that the last join found. It begins the other.
    pub lesser: LinkedList<I>,
}

/// What a pass knows.
pub struct View<I, F, T> {
    pub history: ListView<I>,
    pub fills: ListView<F>,
    /// Its part of the cell. All passes together have 2^63.
    pub share: u64,
    pub turns: u64,
    pub stage: Stage,
    /// The value that the cell was made of. A pass that was joined to another has none.
    pub first: Option<T>,
}
