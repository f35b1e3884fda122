// What stands of an archive where its readers look: the last publication, with the segment sets of its intervals.
//
// A listing is a publication of the log (glance_log) with what a retrieval over it needs: the database in force in its
// history, and for each interval that has rows the position of its last change, the base of its last fill, and where the
// interval isn't late its set (`IsListing` in specs/Listings.antt). A `Shelf` publishes listings, one after the other, and
// gives readers, a `BoardReader` looks at the one that is shown and waits for nobody.
// Callers: glance, which answers over a listing, and who publishes an archive.
//
// The board is the kit's `left_right`: two copies of a listing, of which readers have one. The two ideas of the proof:
// what a listing holds is its type's invariant, so that a reader knows it of whatever it finds; and the rule of the board
// says alone that what is shown follows what any reader has seen (`Shows` in specs/Rules.antt).
// To be changed together: `Contents`, what is said of it (specs/Listings.antt), and who makes it of a store.
#![tactic(auto)]

mod archived;
mod contents;
pub mod laws;
mod listing;
mod reader;
mod rule;
mod shelf;

pub use archived::Archived;
pub use contents::{Contents, PublishedMark, PublishedMarks};
pub use listing::Listing;
pub use reader::BoardReader;
pub use shelf::Shelf;
