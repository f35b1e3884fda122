//! Laws of what an image of the disk stands for, and of the rows of an archive, carried by functions that do nothing.

ghost use Rattle.archive_images.specs.Laws.{ArchivedRowsHaveClockTimes, ArchivesAreOne, ArchivesAreWhole, DamageIsOne, ExponentsAreOfFormat1, FileDamageIsOne, FileZeroIsAll, FilesAreOne, FilesAreWhole, FillsAreOne, LowerFilesSay, NamedFilesDecide, NoneIsNone, PlainArchivesStand, SealedArchivesAreOne};
ghost use Rattle.archive_images.specs.Moments.{SealLeaves, WorkAboveLeaves};

use arch_disk::Disk;

/// An image stands for one archive at most.
pub fn archives_are_one()
    ensures { ArchivesAreOne }
{}

/// The exponent of its intervals is that of format 1.
pub fn exponents_are_of_format_1()
    ensures { ExponentsAreOfFormat1 }
{}

/// It has one fill at most of each interval.
pub fn fills_are_one()
    ensures { FillsAreOne }
{}

/// It is damaged at one gate at most.
pub fn damage_is_one()
    ensures { DamageIsOne }
{}

/// An image that stands for an archive is not damaged.
pub fn archives_are_whole()
    ensures { ArchivesAreWhole }
{}

/// The records of a file make one archive at most, by those that it begins with and by what its entries go on from.
pub fn files_are_one()
    ensures { FilesAreOne }
{}

/// They are damaged at one gate at most.
pub fn file_damage_is_one()
    ensures { FileDamageIsOne }
{}

/// Where they make an archive they are not damaged.
pub fn files_are_whole()
    ensures { FilesAreWhole }
{}

/// An image stands for the archive that file 0 makes.
pub fn file_zero_is_all()
    ensures { FileZeroIsAll }
{}

/// An image that holds no archive stands for none, and is not damaged.
pub fn none_is_none()
    ensures { NoneIsNone }
{}

/// The time of a row that a store gives is a moment of the clock, so that it fits the texts and the intervals.
pub fn archived_rows_have_clock_times()
    ensures { ArchivedRowsHaveClockTimes }
{}

/// An image stands for one archive at most, sealed or not.
pub fn sealed_archives_are_one()
    ensures { SealedArchivesAreOne }
{}

/// An archive that was never sealed stands as it did before there were seals.
pub fn plain_archives_stand()
    ensures { PlainArchivesStand }
{}

/// What stands below a log is said by the files of lower numbers alone: so what is written above it changes nothing.
pub fn lower_files_say()
    ensures { LowerFilesSay }
{}

/// Two images that agree on file 0 and on each file that it names stand for the same archive.
pub fn named_files_decide()
    ensures { NamedFilesDecide }
{}

/// Work in a file above the log leaves the archive, at whichever moment power is lost.
pub fn work_above_leaves<D: Disk>()
    ensures { WorkAboveLeaves D.device }
{}

/// The append of a seal leaves the archive, at whichever moment power is lost: without the seal and with it.
pub fn seal_leaves<D: Disk>()
    ensures { SealLeaves D.device }
{}
