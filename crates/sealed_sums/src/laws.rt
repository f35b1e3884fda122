//! Laws of the definitions, carried by functions that do nothing.

ghost use Rattle.sealed_sums.specs.Laws.{LastPlacedIsLast, PlacedMarksAreMarks, PlacedSumsAreSums};

/// Rows at positions have the marks of the history that they are in the order of their positions.
pub fn placed_marks_are_marks()
    ensures last { LastPlacedIsLast }
    ensures marks { PlacedMarksAreMarks }
{}

/// Rows at positions come to what the history comes to that they are in the order of their positions.
pub fn placed_sums_are_sums()
    ensures { PlacedSumsAreSums }
{}
