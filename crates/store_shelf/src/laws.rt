//! Laws, carried by functions that do nothing.

ghost use Rattle.store_shelf.specs.Laws.{MarksStay};

use glance_board::Archived;

/// A mark stays right over longer lists.
pub fn marks_stay<X: Archived>()
    ensures { MarksStay X.stays }
{}
