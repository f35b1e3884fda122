//! Laws of the definitions, carried by functions that do nothing.

ghost use Rattle.live_fills.specs.Laws.{CausesStay, FillsAreOfLateIntervals, NotesStay, SettlingAddsNoFill};

use arch_disk::Disk;

/// What a filler noted, and why it ended, stays true as others go on.
pub fn notes_stay<D: Disk>()
    ensures notes { NotesStay D }
    ensures causes { CausesStay D.device }
{}

/// Where each fill that came since was of an interval that was late, each interval has the fill that it had, or was
/// late and has a right one.
pub fn fills_are_of_late_intervals<D: Disk>()
    ensures fills { FillsAreOfLateIntervals D.device }
{}

/// Flights that end without a fill add no fill.
pub fn settling_adds_no_fill()
    ensures { SettlingAddsNoFill }
{}
