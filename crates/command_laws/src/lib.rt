//! What each command promises, in the words of the archive theorem: laws that follow from the clause `ran` of `run`.
//!
//! Stands for: a clause for each command (specs/Verify.antt and its neighbours), over a disk that tells what it holds
//! and inputs whose files are known. `run` promises ways through plans; a law says what holds at each end of a
//! command's plan, and what has to come. Called by nobody: a law is a function that does nothing, and the check of this
//! crate is what it is for. A definition below that lost a field or a case would leave a law without its proof.
//!
//! The one idea of the proofs: what holds at each end of a plan holds of the way that the call took (`end_of` of
//! command_plans). Since the outside has one answer to each question, that way is the one that is due, and it ends
//! where the answers lead (`by_due` in proofs/Runs.antt).
//!
//! Begin with specs/Calls.antt, and then `IsVerified` in specs/Verify.antt.
#![tactic(auto)]

pub mod laws;
