//! How a test ends: with the first row or check that goes otherwise. An assertion costs seconds more to prove.

use std::fmt::Display;
use std::test::Fail;

/// What is looked at, and whether it is as it has to be.
pub(crate) type Check = (&'static str, bool);

/// The name of the first of these that isn't so.
pub(crate) fn other(checks: &[Check]) -> Option<&'static str> {
    for (name, is_so) in checks {
        if !*is_so {
            return Some(*name);
        }
    }
    None
}

/// Ends a test: with a failure where anything goes otherwise.
pub(crate) fn none_other<T: Display + Drop>(other: Option<T>) -> Result<(), Fail> {
    match other {
        None => Ok(()),
        Some(other) => Err(Fail::new(other)),
    }
}
