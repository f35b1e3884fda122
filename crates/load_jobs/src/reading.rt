//! How the reading of a dump ends.

/// Why no more of a dump is read.
#[derive(Clone, Copy, Debug)]
pub(crate) enum ReadingEnd {
    /// It was read to its end, or to an octet where a packet would begin and none does.
    NoMore,
    /// A read failed.
    Failed,
    /// It has an octet more than a dump may have.
    TooLong,
}
