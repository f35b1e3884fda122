//! What a call on the outside answers in place of Ok.

ghost use Rattle.std.specs.Prelude.{◌≤◌, ◌+◌};
ghost use Rattle.outer_traits.specs.Outside.{HasRisen};

use thiserror::Error;

/// A call failed: the object's count of faults has risen, or stands at its last value.
#[derive(Clone, Copy, Debug, PartialEq, Eq, Error)]
#[error("a call on the outside failed")]
pub struct Failed;

/// Why an input wasn't opened.
#[derive(Clone, Copy, Debug, PartialEq, Eq)]
pub enum OpenFault {
    /// There's no input of this name.
    Missing,
    Failed,
    OutOfMemory,
}

/// A count of faults with one more, which stands still at its last value.
pub fn raised(faults: u64) -> u64
    ensures risen { HasRisen faults result }
    ensures later { faults ≤ result }
    ensures one { result ≤ faults + 1 }
{
    faults.saturating_add(1)
}
