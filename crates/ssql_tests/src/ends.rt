//! How a test of a table ends.

use std::fmt::Display;
use std::test::Fail;

/// With a failure where a row goes otherwise: its text or its place.
pub(crate) fn none_other<T: Display + Drop>(other: Option<T>) -> Result<(), Fail> {
    match other {
        None => Ok(()),
        Some(other) => Err(Fail::new(other)),
    }
}
