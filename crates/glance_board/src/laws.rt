//! Laws, carried by functions that do nothing.

use crate::archived::Archived;
use crate::reader::BoardReader;

fn is_sendable<T: Send>() {}

/// A reader may go to another thread.
pub fn readers_are_sendable<X: Archived>() {
    is_sendable::<BoardReader<X>>()
}
