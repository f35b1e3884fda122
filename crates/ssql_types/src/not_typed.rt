//! Why a script stands for nothing.

use arch_types::name::Name;
use std::alloc::AllocError;

/// Why a script stands for nothing in its place, by the first token with which something is wrong.
#[derive(Debug, Drop)]
pub enum NotTyped {
    /// The token breaks a rule, 3 to 8, at this octet.
    BadSql { at: u64, rule: u8 },
    /// There is no such table.
    UnknownTable { name: Name },
    /// There was no memory.
    OutOfMemory,
}

impl From<AllocError> for NotTyped {
    ghost use Rattle.std.specs.Prelude.{◌≡◌};
    ghost use Rattle.ssql_types.specs.declared.not_typed.NotTyped.TheVariants.{OutOfMemory};

    ghost from_gives = { λ _ fault. fault ≡ OutOfMemory };

    fn from(_error: AllocError) -> NotTyped {
        NotTyped::OutOfMemory
    }
}
