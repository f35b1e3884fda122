// The archive as a plain machine: a history in memory and a fill list, without a disk, segments or threads.
//
// An event is what a caller does, a reply what the archive gives back. `MachineStep` (specs/Machine.antt) says which
// reply an event has in a state, and which state comes next: rows that come in, fills that begin, are installed or
// given up, as interval_fills has these steps; and what is asked, whose answers are extracted from all packets of the
// history each time (specs/Asks.antt: `answer_of` and `replay_of`, which retrieval and the store cite too). `MachineRun`
// puts steps in a row. `laws` carries what holds of every run, and that an interval without rows at or after a front
// has, for each parameter, the cells of the rows below it. `Core` runs the machine. It goes over its lists at each event
// and keeps nothing beside them: it is made to be believed, and what the store does over its tables, marks and segments
// is measured by it.
//
// It is apart from history_items, since that stands below the history in memory and the store, and what is asked needs
// extraction. To be changed together: an event or a reply, `MachineStep`, and `Core::step`.
#![tactic(auto)]

mod answers;
mod event;
mod fill_events;
mod ingests;
mod lateness;
pub mod laws;
mod machine;
mod ordered;
mod replays;
mod reply;

pub use event::Event;
pub use machine::Core;
pub use reply::{Replies, Reply};
