//! Laws of segment sets, carried by functions that do nothing.

ghost use Rattle.param_segments.specs.Laws.{RawCellsMakeTheCells, SegmentCellsRise, SegmentsAreOfASet, SegmentsMakeTheCells, SegmentsMakeTheRawCells, SetHasItsRows, SetIsSegments, SpellingIsOne};

/// The rows of the segments of rows are these rows.
#[tactic(auto, using(crate::proofs::Grouped::rows_again_in_order))]
pub fn set_has_its_rows()
    ensures { SetHasItsRows }
{}

/// Rows of a set have segments, each of 1 to 4,096 rows.
pub fn set_is_segments()
    ensures { SetIsSegments }
{}

/// Segments are those of some rows exactly where they are a run of each group of their rows: full but for its last,
/// keys rising, and the groups in the order of their first rows.
pub fn segments_are_of_a_set()
    ensures { SegmentsAreOfASet }
{}

/// No two lists of rows have one spelling.
pub fn spelling_is_one()
    ensures { SpellingIsOne }
{}

/// The cells of a parameter in the segments of rows, merged by their keys, are its cells in the rows, raw or
/// calibrated.
pub fn segments_make_the_cells()
    ensures cells { SegmentsMakeTheCells }
    ensures raw { SegmentsMakeTheRawCells }
{}

/// The keys of a parameter's cells in one segment rise.
pub fn segment_cells_rise()
    ensures { SegmentCellsRise }
{}

/// Raw cells, calibrated, are the cells.
pub fn raw_cells_make_the_cells()
    ensures { RawCellsMakeTheCells }
{}
