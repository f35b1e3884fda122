// Late marks: which intervals have rows that no fill has seen.
//
// An interval with rows is late where it was never filled, or where one of its rows stands in the history at or after the base of
// its last fill. Contracts see `LateMarks` as the mark of each interval that has rows: the position of the last one, the base of the
// last fill, and whether somebody has taken the interval to fill it (specs/Mark.antt, specs/Marks.antt). That the greatest position
// decides as all of them do (`IsLateBy`) is a clause of `touch` and of `is_late`, over every list of positions that a mark may stand for
// (`StandAt`).
// Each change of a mark changes the number of late intervals by that one interval alone (`Marked`), so a loop that fills late intervals
// ends.
// Rows whose positions are known by the greatest alone are noted at once (`touch_placed`), as if one after the other (`touched_by`).
// Caller: fill_tracker, which touches the interval of each row, notes fills, and asks for the next interval to fill.
//
// The marks stand in one ordered index, and the intervals that are late and free in a second one, so that the least of them is
// its first entry. The one idea of the proof: a mark that isn't late and free has a place kept for it in the second index
// (`has_room` in specs/MarkIndexes.antt), so that no change of a mark ever takes memory.
// To be changed together: `is_late_free_mark` in specs/Mark.antt and `Mark::is_late_free`.
#![tactic(auto)]

mod late_free;
pub mod mark;
pub mod marks;
