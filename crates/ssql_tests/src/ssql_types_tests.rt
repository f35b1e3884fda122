//! Wrong scripts with their place and rule, what scripts stand for, and conditions over rows.

mod conditions;
mod scripts;
mod wrong_scripts;
