// What was published of an archive, one publication after the other.
//
// A publication has both lists of an archive as they were, its history and its fill list, and says whether it is the last.
// Each begins with the lists of the one before, and what stays fixed of an archive is the same in all (`PublishesOn` in
// specs/Rules.antt). The log of them exists in contracts alone: at run time there is one number. A `Publisher` adds to the
// log, a `Sight` is one publication that was seen, and of two sights of one log the one with the greater number follows
// the other (`Sight::is_followed_by`). That is all that readers and notes need of each other.
// Caller: glance, whose board shows the last publication.
//
// The log is a book of the kit's `logbook`, whose one word is the number of the last publication. The one idea of the
// proof: what was seen of the log begins the log, so of two that were seen one begins the other (proofs/Chains.antt).
// To be changed together: `Publication`, `PublishesOn`, and `IsFollowedBy` of specs/Sightings.antt.
#![tactic(auto)]

mod publication;
mod publisher;
mod sight;
mod tells;

pub use publication::{LogRule, Publication};
pub use publisher::Publisher;
pub use sight::Sight;
pub use tells::Tells;
