//! Wrong scripts with the place and the rule of each, scripts that are read, printed scripts, limits.

mod limits;
mod scripts;
mod values;
