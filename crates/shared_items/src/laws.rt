//! Laws, carried by functions that do nothing.

use crate::items::SharedItems;
use crate::numbered::Numbered;

fn is_sendable<T: Send + Sync>() {}

/// A list may go to another thread, and be shared with one, where its items may.
pub fn lists_are_sendable<T: Numbered + Send + Sync>() {
    is_sendable::<SharedItems<T>>()
}
