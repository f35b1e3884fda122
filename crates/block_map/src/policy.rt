//! How full blocks are split, and which entries pay for that.

ghost use Rattle.std.specs.Prelude.{◌≡◌, ℕ, ◌+◌, ◌-◌, ◌<◌, ◌≤◌, Bool, true, false};
ghost use Rattle.std.proofs.Common.{lit≤};

use crate::blocks::{CAPACITY, MIN_FILL};

/// The entries that pay for the split of a full block of a `GrowingIndex`: so many went into it since it was split or begun.
pub const FOR_A_SPLIT: usize = CAPACITY / 16;

/// The entries that a full block of a `GrowingIndex` keeps where it is split for a key above them.
pub const NEARLY_FULL: usize = CAPACITY - FOR_A_SPLIT;

/// How the full blocks of an index are split, and which entries pay for that.
pub trait SplitPolicy {
    ghost use Rattle.block_map.specs.declared.blocks.TheConstants.{CAPACITY, HALF};

    /// The entries that a full block keeps where it is split for a key above them, at least half of them: keys that come
    /// in order leave blocks behind them that are so full. A split takes the payment of the others.
    const KEEP: usize;

    ghost KEEP: { ℕ };

    /// Whether each entry pays, so that each block but the first has at least what a split takes.
    ghost pays_each: { Bool };

    /// What one more entry pays in a block of so many. Those beyond `KEEP` pay, and unless each entry pays, they alone.
    fn payment(len: usize) -> usize
        ensures most { result ≤ 1 }
        ensures beyond { KEEP ≤ len → result ≡ 1 }
        ensures each { pays_each ≡ true → result ≡ 1 }
        ensures beyond_alone { pays_each ≡ false → len < KEEP → result ≡ 0 };

    ghost keeps_half: { HALF ≤ KEEP };

    ghost keeps_less: { KEEP < CAPACITY };
}

/// Entries may be taken out again, and each pays.
pub struct Removable;

impl SplitPolicy for Removable {
    ghost use Rattle.block_map.specs.declared.blocks.TheConstants.{CAPACITY, MIN_FILL};

    const KEEP: usize = CAPACITY - MIN_FILL;

    ghost KEEP = { CAPACITY - MIN_FILL };

    ghost pays_each = { true };

    ghost keeps_half = { lit≤ tt };

    ghost keeps_less = { lit≤ tt };

    fn payment(_len: usize) -> usize {
        1
    }
}

/// Entries stay, and those beyond `NEARLY_FULL` in a block pay.
pub struct GrowOnly;

impl SplitPolicy for GrowOnly {
    ghost use Rattle.block_map.specs.declared.policy.TheConstants.{NEARLY_FULL};

    const KEEP: usize = NEARLY_FULL;

    ghost KEEP = { NEARLY_FULL };

    ghost pays_each = { false };

    ghost keeps_half = { lit≤ tt };

    ghost keeps_less = { lit≤ tt };

    fn payment(len: usize) -> usize {
        if len >= NEARLY_FULL {
            return 1;
        }
        0
    }
}
