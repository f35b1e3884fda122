//! Laws of what the journals of an image have, carried by functions that do nothing.

ghost use Rattle.sealed_journals.specs.Laws.{LogRowsAreOne};

/// The log of an image has one number of rows.
pub fn log_rows_are_one()
    ensures { LogRowsAreOne }
{}
