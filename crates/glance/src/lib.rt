// Readers that never wait: retrievals over what was published of an archive.
//
// A `Glance` looks at the board of an archive (glance_board), on which the last publication stands, and answers over the
// lists of that: from the segment sets of the intervals that its range meets (`Glance::retrieve_now`). Where one of these is
// late it answers which, as their rows aren't published. `Glance::learn` makes sure that it isn't behind a `Note`, a
// publication that somebody else has seen. Nothing here waits for anybody.
// Caller: a session's readers, which ask the archive itself where a glance answers Late.
//
// The one idea of the proof: a listing has a mark for each interval that has rows, and a mark tells of its interval what
// the lists do; so the sets of the intervals that a range meets are over the rows of the range (proofs/Answered.antt).
#![tactic(auto)]

mod answering;
mod reader;
mod span;

pub use reader::{Glance, Glances, Note};
