//! The commands that make an archive, fill what is late in it, and compare what is stored: `create`, `recover`, `verify`.
//!
//! Stands for: their plans (specs/Create.antt, specs/Recover.antt, specs/Verify.antt). Called by the top call.
//!
//! The way of a script, for `create`: command_plans reads its octets, and script_answers says what they stand for, or why they are refused. load_session fills
//! for `recover`, and archive_verify compares for `verify`. What `create` prints and leaves on a disk stands in `command_runs`, beside the other outcomes of a
//! disk (specs/Creation.antt there).
//!
//! The one idea of the proofs: the disk is given back as the outcome that the plan names at the place where the way ended.
//!
//! Begin with `verify_plan`, and then `verify`, the smallest; `create` reads four inputs before it looks at the disk.
#![tactic(auto)]

pub mod create;
pub mod recover;
pub mod verify;
