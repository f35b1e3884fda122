//! Laws of runs on a disk, carried by functions that do nothing.

ghost use Rattle.run_files.specs.Laws.{RowsStandOnTheirPage};

/// A row of a run stands on the page that `Run::page_of` gives for its key, and on no other.
pub fn rows_stand_on_their_page()
    ensures { RowsStandOnTheirPage }
{}
