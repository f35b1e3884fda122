//! Why a text is no script.

use crate::limits::ScriptQuantity;
use std::alloc::AllocError;

/// Why a text is no script.
#[derive(Clone, Copy, Debug, PartialEq, Eq)]
pub enum NotAScript {
    /// The quantity passes its limit.
    Limit(ScriptQuantity),
    /// The first rule that is broken, 1 of the tokens or 2 of the grammar, by the octet where it is.
    BadSql { at: u64, rule: u8 },
    /// There was no memory.
    OutOfMemory,
}

impl From<AllocError> for NotAScript {
    ghost use Rattle.std.specs.Prelude.{◌≡◌};
    ghost use Rattle.ssql_parse.specs.declared.not_a_script.NotAScript.TheVariants.{OutOfMemory};

    ghost from_gives = { λ _ fault. fault ≡ OutOfMemory };

    fn from(_error: AllocError) -> NotAScript {
        NotAScript::OutOfMemory
    }
}
