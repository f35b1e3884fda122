//! What stays of an archive.

/// A type that says what stays of an archive while it is open, as contracts see it. No value of it is made.
pub trait Archived {
    ghost use Rattle.glance_board.specs.Listings.{StayingFacts};

    ghost stays: { Self → StayingFacts };
}
