//! What is printed of selections, and of SHOW, over a source in memory.

mod faults;
mod forms;
mod selections;
mod shows;
