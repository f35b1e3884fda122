//! Laws of sound archives and of mismatches, carried by functions that do nothing.

ghost use Rattle.archive_verify.specs.Laws.{FirstMismatchIsOne, LateByFillings, MismatchIsUnsound, SoundImageHoldsRows};

/// An archive with a mismatch isn't sound.
pub fn mismatch_is_unsound()
    ensures { MismatchIsUnsound }
{}

/// An archive has one first mismatch at most.
pub fn first_mismatch_is_one()
    ensures { FirstMismatchIsOne }
{}

/// An image of an archive is sound exactly where each fill that stands for an interval holds what its rows give.
pub fn sound_image_holds_rows()
    ensures { SoundImageHoldsRows }
{}

/// Which intervals of an archive are late follows from its fills alone.
pub fn late_by_fillings()
    ensures { LateByFillings }
{}
