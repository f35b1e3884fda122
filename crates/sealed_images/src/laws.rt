//! Laws of the damage of images, and of what a seal makes, carried by functions that do nothing.

ghost use Rattle.sealed_images.specs.Laws.{LogReads, NoPartsMake, NoneIsNowhereDamaged, ReadImagesStand, RowsAreJudgedAsRead, SealedArchivesAreWhole, SealedDamageIsOne, SealingMakes};

/// An image is damaged at one octet of one file at most.
pub fn sealed_damage_is_one()
    ensures { SealedDamageIsOne }
{}

/// An image that stands for an archive, sealed or not, is damaged nowhere.
pub fn sealed_archives_are_whole()
    ensures { SealedArchivesAreWhole }
{}

/// The log of a sealed archive is read as rows where its entries go on from what the runs make, and only there.
pub fn log_reads()
    ensures { LogReads }
{}

/// The rows of all runs may be judged in the order in which they are read.
pub fn rows_are_judged_as_read()
    ensures { RowsAreJudgedAsRead }
{}

/// A sealed image each file of which is read stands for an archive: that of its runs, and the entries of its log.
pub fn read_images_stand()
    ensures { ReadImagesStand }
{}

/// An image that holds no archive stands for none, sealed or not, and is damaged nowhere.
pub fn none_is_nowhere_damaged()
    ensures { NoneIsNowhereDamaged }
{}

/// Where a log's entries go on from the archive of the parts so far, their rows as runs and their fills make the same.
pub fn sealing_makes()
    ensures { SealingMakes }
{}

/// An archive without rows is made of no parts.
pub fn no_parts_make()
    ensures { NoPartsMake }
{}
