//! A value with two lists that only grow.

ghost use Rattle.std.specs.Prelude.{◌≡◌, List, length};

/// A value that callers take in turns: it has a history, and a list of what happened to fills.
pub trait Growing {
    type Item;

    type Fill;

    ghost history: { Self → List Self.Item };

    ghost fills: { Self → List Self.Fill };

    /// What stays true of the value of a cell, beside the one that the cell was made of.
    ghost goes_on: { Self → Self → Type 0 };

    /// The length of the history.
    fn len(&self) -> u64
        ensures { result ≡ length (history self.now) };

    /// The length of the fill list.
    fn fill_len(&self) -> u64
        ensures { result ≡ length (fills self.now) };
}
