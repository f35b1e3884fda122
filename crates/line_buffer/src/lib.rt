//! Text on its way to a sink, gathered into pieces.
//!
//! Stands for: a text of which a front was sent and the rest is buffered (`specs/Output.antt`), and what a call leaves
//! that writes, buffers or prints one (`specs/Printed.antt`): all of it, or a prefix and a failed write, or a prefix for
//! want of memory.
//! Called by all that print.
//!
//! The one idea: what was sent and what is still buffered, joined, is the text so far (`IsBuffered`). Lemmas for texts one
//! behind the other stand in `proofs/PrintedTexts.antt`.
#![tactic(auto)]

mod buffer;
mod write;

pub use buffer::LineBuffer;
pub use write::write_all;
