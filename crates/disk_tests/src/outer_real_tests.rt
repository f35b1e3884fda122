//! Calls of outer_real on real files, which no clause describes.

mod files;
mod folders;
mod inputs;
mod locks;
mod steps;
