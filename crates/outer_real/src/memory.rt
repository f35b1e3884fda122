//! What the C library does with memory that is given back.

use std::alloc::{AllocError, Global};

/// The octets of the block: more than what is taken and given back for one fill of an archive.
const BLOCK: usize = 2 << 20;

/// Lets the C library keep memory that is given back, up to twice the block, since it keeps as much as it was once given back at a time. It gives
/// back to the system else what each fill of an archive was read with, and takes it again, page by page, for the next one. Where there's no memory
/// for the block nothing changes (D-270).
pub fn keep_freed_memory(alloc: Global) {
    let block: Result<Vec<u8>, AllocError> = Vec::with_capacity(alloc, BLOCK);
    drop(block);
}
