//! The passes of several callers of one cell: split off before they begin, and joined once they have ended.
//!
//! Stands for: what passes that were split off know (`AreSplitOff`), and what a pass knows to which others were joined
//! (`Joins`): it has seen what each of them has, its places are theirs and its own, and the shares are as many as
//! before. So who joins all passes of a cell may close it, and finds each item behind the first ones at a place of one
//! of them. To be used by sessions of several callers.
#![tactic(auto)]

pub mod laws;
mod passes;

pub use passes::{join_all, split_off};
