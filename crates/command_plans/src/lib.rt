//! The order in which a command looks, as a plan: what it asks of the outside, what each answer leads to, and with
//! which refusal it ends there.
//!
//! Stands for: `CommandPlan` (specs/Plan.antt), a tree of questions that is written once for each command. A plan says
//! at each place that it may end at what was done by then. All that a contract promises of a command is read from its
//! plan: `Allows` is why an answer came (the path from the root to its place), `Requires` which answer has to come, but
//! for an interruption. An answer that isn't known is a question that nothing but the call answers, so an opaque disk
//! needs no second plan.
//!
//! The reading of named inputs is such a plan too: `input_plan` (specs/Inputs.antt) looks whether there is an input of
//! the name, then opens it, then reads it to its end or to its limit. What was done by then is the number of sources
//! that the inputs had given: so "each input is opened once", "nothing was asked of the disk before a source was given"
//! and "a failed read takes the place of no refusal of an input behind it" are read from a plan. `read_limited`
//! (src/read.rt) is such a reading. Inputs that are open together are opened by `opening_all_plan`
//! (specs/Sources.antt), whose sources are out until they are closed, each with a count of faults of its own: what was
//! done to each of them adds up to what was done to the inputs (`open_all`, `close_all`).
//!
//! What a call did to the objects of the outside is one fact a call, on the object's state before and after:
//! `UsedInputs`, `UsedOutput`, `UsedDisk`, `UsedClock` (specs/Ledger.antt). Each says of a use whether a call of the
//! object failed in it, that its count of faults rose there (of inputs and output exactly there), and what else no
//! command may leave otherwise: sources that are closed again, files as they were, writes of the disk that failed, a
//! clock that stands still. What was read, what was written and what the disk holds is said by a command's plan. The
//! states are those of the traits (outer_traits, specs/States.antt).
//!
//! Nearly nothing here runs: the commands above are the code, and their contracts name a plan. `command_runs` says what
//! its commands have done (text, archive, report) by an S of its own; what reads has the number of sources given for
//! it, and the command gives it words by `map_done`.
//!
//! The ideas of the proofs: a plan goes on as its parts do (proofs/Plans.antt: `gave`, `ended` and `cut` are a call
//! followed by `?`), and a plan whose questions have one answer each went as it had to (`required`; where the inputs
//! are known `reads_determined`). A use of inputs in which nothing failed and another after it are one use
//! (proofs/Ledgers.antt): so what a command did to its inputs is what its last reading did, whatever it read before,
//! and the sources of all. So is an opening of sources, a use of each and their closing (proofs/Sources.antt,
//! `used_sources`).
//!
//! Begin with `Allows` in specs/Plan.antt, and then `input_plan`.
#![tactic(auto)]

pub mod opening;
pub mod read;

ghost use Rattle.std.specs.Prelude.{◌≡◌};
ghost use Rattle.command_plans.specs.Plan.{is_interruption};

use refusals::Refusal;

/// Whether a refusal is that of an interruption: want of memory, or a call of the outside that failed.
pub fn is_interruption(refusal: &Refusal) -> bool
    ensures { result ≡ is_interruption refusal.now }
{
    matches!(
        refusal,
        Refusal::OutOfMemory | Refusal::ReadFault | Refusal::WriteFault | Refusal::DiskFault
    )
}
