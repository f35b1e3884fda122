//! Which positions of a history were told.

ghost use Rattle.std.specs.Prelude.{◌≡◌, ◌≤◌, ◌↔◌, ℕ, List, [], ◌∷◌, ◌++◌, IfOk, IsTrue};
ghost use Rattle.archive_history.specs.RowLimits.{row_limit};
ghost use Rattle.archive_history.specs.declared.row_limit.RowLimit.TheVariants.{Rows};
ghost use Rattle.sealed_images.specs.Verdict.{ArePositions};
ghost use Rattle.sealed_opening.specs.Positions.{AreFlagsOf};

use run_files::MAX_ROWS;
use std::alloc::{AllocError, Global};

/// Which positions were told of those below a limit: an octet each, and none where the limit passes that of rows.
#[derive(Drop)]
pub(crate) struct PositionFlags {
    flags: Vec<bool>,
    /// Whether each position that was told is below the limit, and none was told twice.
    once: bool,
}

impl PositionFlags {
    /// No position was told. The one error is want of memory.
    pub(crate) fn new(alloc: Global, limit: u64) -> Result<Self, AllocError>
        ensures { IfOk result (AreFlagsOf limit []) }
    {
        let few = limit <= MAX_ROWS;
        let len = if few { limit as usize } else { 0 };
        let flags = vec![in alloc; false; len]?;
        Ok(PositionFlags { flags, once: few })
    }

    /// Notes a position. One that isn't below the limit, or that was told before, is found out by `are_all`.
    fn add(&mut self, position: u64)
        ensures { (limit : ℕ) (told : List ℕ) → AreFlagsOf limit told self.old →
            AreFlagsOf limit (told ++ position ∷ []) self.new }
    {
        match self.flags.get_mut(position as usize) {
            Some(flag) if *flag => self.once = false,
            Some(flag) => *flag = true,
            None => self.once = false,
        }
    }

    /// Notes positions, as `add`.
    pub(crate) fn add_all(&mut self, positions: &[u64])
        ensures { (limit : ℕ) (told : List ℕ) → AreFlagsOf limit told self.old →
            AreFlagsOf limit (told ++ positions.now) self.new }
    {
        for position in positions {
            self.add(*position);
        }
    }

    /// Whether the positions that were told are those below the limit, each once, and a history may have so many rows.
    pub(crate) fn are_all(&self) -> bool
        ensures { (limit : ℕ) (told : List ℕ) → AreFlagsOf limit told self.now →
            IsTrue result ↔ ((limit ≤ row_limit Rows) × ArePositions told limit) }
    {
        self.once && !self.flags.contains(&false)
    }
}
