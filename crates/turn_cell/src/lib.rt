// A value that many callers take in turns, one at a time, in the order in which they asked for it.
//
// The value has a history and a fill list, which only grow (`Growing`). Each caller has a `Pass`. Contracts see in it how
// much of the two lists its caller has seen, how many turns it had, how many items these turns added and at which places,
// and its share of the cell (`PassView` in specs/Pass.antt); memory holds none of that but one number. `enter` waits and
// hands the value out, with lists that begin with those seen; `leave` takes it back, with lists that begin with those it
// was handed out with. `front` reads a length and waits for nobody. Passes are split and joined. Who has the whole share
// may close the cell, and has then added each item of both lists.
// Caller: live_archive, whose value is a store.
//
// The cell is a ticket lock over the kit's `atomic_table`: the words `ticket`, `serving` and `front`, and one slot, where
// the value is while nobody has the turn. The one idea of the proof: what each pass has seen begins one list, which the
// value has where it is at home, and else whoever has the turn; and each step changes one pass (`Kept` in specs/Turn.antt).
// What is kept of one list is said once (`ListKept` in specs/Lists.antt) and used twice. Nothing asks what an item is.
// To be changed together: the steps of src/steps.rt, what they tell (specs/Turn.antt), their lemmas (proofs/Moves.antt).
#![tactic(auto)]

mod cell;
mod growing;
mod seats;
pub mod steps;
mod view;

pub use cell::{Pass, TurnCell};
pub use growing::Growing;
pub use view::{ListView, SeenList, Stage, View};
