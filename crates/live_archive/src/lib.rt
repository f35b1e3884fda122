// An archive that many callers use at once: each call takes one turn, and is there the call of the store.
//
// Each caller has a pass. Contracts see in it how much of the history and of the fill list it has seen, how many turns
// it had and what these added (`PassView` of turn_cell). What a call answers is the store's own answer, said of the two
// stores that its turn found and left (`TookTurn` in specs/Turns.antt); the lists of the first begin with those that
// the pass had seen, and its lists are those of the second from then on. A caller is told nothing else of the store:
// what it has to know of it, as that a fill is right, it knows of what it has seen. What a call put behind the lists,
// and at which places, is a law (`calls_add`), so that nobody above has to know of the cell. Callers: the jobs
// of a load (load_jobs, live_fills).
//
// The value of the cell is the store, beside the shelf on which it is published where there are readers that take no
// turns (src/held.rt, src/glances.rt). A batch and an install publish in their turn, and a pass may have a note of what
// it has seen (src/publishing.rt). With the last publication the fill list has one closing more than the store that the
// turns began with (specs/Closings.antt), so a pass knows which note may be of that.
//
// The one idea of the proof: each call of a store goes on from what there was, whatever it answers (`GoesOn` in
// specs/GoesOn.antt, proofs/Going.antt), what goes on from what goes on, goes on, and so does what was published last
// (specs/Shelving.antt). `front`, `split`, `join` and `close` take no turn and wait for nobody; a retrieval is planned
// in its turn, and answered behind it.
// To be changed together: a call of the store that adds to a list, `GoesOn` and its lemma in proofs/Going.antt, and
// what it adds (specs/Added.antt).
#![tactic(auto)]

mod asking;
mod filling;
mod glances;
mod held;
mod ingesting;
pub mod laws;
mod live;
mod publishing;
mod retrieving;

pub use glances::LiveGlances;
pub use held::HeldStore;
pub use live::{Live, LiveOver, LivePass};
