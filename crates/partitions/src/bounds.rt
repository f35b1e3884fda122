//! The bounds of rows that are asked for.

use crate::lists::PnameList;

/// Times with `from <= time < to`, in milliseconds since 1970, and packet names: those listed, in any order and as often as may be,
/// or where there is no list, all.
#[derive(Debug, Drop)]
pub struct Bounds {
    pub from: i64,
    pub to: i64,
    pub names: Option<PnameList>,
}
