//! Loads and recoveries over a disk that fails, and what crashes leave of them.

use crate::calls::{Wanted, ends_so, files_alone, none_other};
use crate::faults::failing;
use crate::files::sheets;
use crate::in_a_row::{CREATE, overwritten};
use crate::late_tests::unfilled;
use arch_disk::{Crash, Disk, MemDisk};
use std::alloc::{AllocError, Global};
use std::sync::Wait;
use std::test::Fail;
use std::thread::Threads;

/// 66 packets, which are two batches.
fn two_batches(alloc: Global) -> Result<Vec<u8>, AllocError> {
    let mut dump = Vec::new(alloc);
    for number in 0..66u8 {
        dump.extend_from_slice(&[8, 0x64, 0xC0, number, 0, 6, 0, 0, 0, 1, 0x80, 0, 0x2A])?;
    }
    Ok(dump)
}

/// A call over the sheets and these octets as `batches`, of which two packets are `batch`: its status, the length of the history afterwards, and the disk.
fn call_over<D: Disk + Send, R: Threads + Wait + Sync>(
    rt: &R,
    alloc: Global,
    line: &str,
    batches: &[u8],
    disk: D,
) -> (u8, u64, D) {
    let [parameters, calibrations, containers] = sheets();
    let (batch, _) = batches.split_at(batches.len().min(26));
    let files = [
        parameters,
        calibrations,
        containers,
        ("batches", batches),
        ("batch", batch),
    ];
    let (outcome, disk) = crate::calls::call(rt, alloc, line, &files_alone(&files), disk);
    (outcome.status, outcome.after, disk)
}

/// The same with the two batches. Without memory for these the status is that of the program.
fn call<D: Disk + Send, R: Threads + Wait + Sync>(
    rt: &R,
    alloc: Global,
    line: &str,
    disk: D,
) -> (u8, u64, D) {
    match two_batches(alloc) {
        Ok(batches) => call_over(rt, alloc, line, batches.as_slice(), disk),
        Err(_) => (7, 0, disk),
    }
}

/// A disk that tells how many calls were made, how many of them are kept, and what its crashes leave behind so many of these.
pub(crate) trait Crashing: Disk + Send + Drop {
    fn calls(&self) -> u64;

    fn kept(&self) -> usize;

    fn image_at(&self, moment: usize, crash: Crash) -> Option<MemDisk>;
}

impl Crashing for MemDisk {
    fn calls(&self) -> u64 {
        self.made()
    }

    fn kept(&self) -> usize {
        self.moments()
    }

    fn image_at(&self, moment: usize, crash: Crash) -> Option<MemDisk> {
        if moment > self.moments() {
            return None;
        }
        match self.crashed(moment, crash) {
            Ok(image) => Some(image),
            Err(_) => None,
        }
    }
}

/// The status of a `recover`, and how many rows the archive has then.
fn recovered<D: Disk + Send + Drop, R: Threads + Wait + Sync>(
    rt: &R,
    alloc: Global,
    disk: D,
) -> (u8, u64) {
    let (status, rows, _disk) = call(rt, alloc, "recover", disk);
    (status, rows)
}

/// The same of what a crash leaves.
fn recovered_behind<D: Crashing, R: Threads + Wait + Sync>(
    rt: &R,
    alloc: Global,
    disk: &D,
    crash: Crash,
) -> Option<(u8, u64)> {
    let image = disk.image_at(disk.kept(), crash)?;
    Some(recovered(rt, alloc, image))
}

/// Whether what each kind of crash leaves is an archive that opens and has just these rows.
fn images_hold<D: Crashing, R: Threads + Wait + Sync>(
    rt: &R,
    alloc: Global,
    disk: &D,
    rows: u64,
) -> bool {
    for crash in Crash::ALL {
        if recovered_behind(rt, alloc, disk, crash) != Some((0, rows)) {
            return false;
        }
    }
    true
}

/// Whether none of them is an archive.
fn images_hold_none<D: Crashing, R: Threads + Wait + Sync>(
    rt: &R,
    alloc: Global,
    disk: &D,
) -> bool {
    for crash in Crash::ALL {
        if recovered_behind(rt, alloc, disk, crash) != Some((1, 0)) {
            return false;
        }
    }
    true
}

/// What came of the making of an archive and a load into it.
#[derive(Clone, Copy, PartialEq, Eq)]
enum Made {
    Archive,
    /// No archive, and no image of one.
    None,
    /// Something else than is told.
    Wrong,
}

/// Loads two batches into a new archive on a disk whose call of this number fails. The answer says so, and afterwards the disk has the rows that the
/// report tells, whatever a crash leaves.
fn made_and_loaded<D: Crashing, R: Threads + Wait + Sync>(
    rt: &R,
    alloc: Global,
    fails: u64,
    disk: D,
) -> Made {
    let (status, rows, disk) = call(rt, alloc, "load batches", disk);
    let are_kept = images_hold(rt, alloc, &disk, rows);
    let has_failed = disk.calls() >= fails;
    let is_told = status == if has_failed { 5 } else { 0 };
    let is_whole = rows == 0 || rows == 64 || rows == 66;
    // Where it hasn't, a call of the `recover` would.
    let is_held = !has_failed || recovered(rt, alloc, disk) == (0, rows);
    if is_told && is_whole && are_kept && is_held {
        Made::Archive
    } else {
        Made::Wrong
    }
}

/// The same after a `create` that failed.
fn made_none<D: Crashing, R: Threads + Wait + Sync>(
    rt: &R,
    alloc: Global,
    status: u8,
    disk: &D,
) -> Made {
    if status == 5 && images_hold_none(rt, alloc, disk) {
        Made::None
    } else {
        Made::Wrong
    }
}

/// The same from the making of the archive on.
fn made_on<D: Crashing, R: Threads + Wait + Sync>(
    rt: &R,
    alloc: Global,
    fails: u64,
    disk: D,
) -> Made {
    let (status, _, disk) = call(rt, alloc, CREATE, disk);
    if status == 0 {
        made_and_loaded(rt, alloc, fails, disk)
    } else {
        made_none(rt, alloc, status, &disk)
    }
}

/// The first call that leaves something else where it fails. Most leave an archive: if these are few, it is call 0.
fn wrong_load<R: Threads + Wait + Sync>(rt: &R, alloc: Global) -> Option<u64> {
    let mut made = 0u64;
    for fails in 1..40u64 {
        match made_on(rt, alloc, fails, failing(alloc, &[fails])) {
            Made::Archive => made = made.saturating_add(1),
            Made::None => {}
            Made::Wrong => return Some(fails),
        }
    }
    if made > 20 { None } else { Some(0) }
}

#[test]
fn a_load_on_a_failing_disk(rt: HostRuntime) -> Result<(), Fail> {
    none_other(wrong_load(&rt, rt.alloc()))
}

/// Whether a `make` on a disk of which one call fails says so, and leaves what it reports, whatever a crash leaves: an archive of so many rows, or none.
fn fails_to_make<D: Crashing, R: Threads + Wait + Sync>(rt: &R, alloc: Global, disk: D) -> bool {
    let (status, rows, disk) = call(rt, alloc, "make 7", disk);
    let holds_none = rows == 0 && images_hold_none(rt, alloc, &disk);
    let are_kept = holds_none || images_hold(rt, alloc, &disk, rows);
    let want = if holds_none { (1, 0) } else { (0, rows) };
    status == 5 && are_kept && recovered(rt, alloc, disk) == want
}

/// Calls of a `make`: all of the making of the archive, and some of the batches and fills behind it. It ends soon behind the one that fails.
const CALLS_OF_MAKE: &[u64] = &[1, 2, 3, 4, 5, 6, 7, 8, 9, 10, 11, 12, 14, 17, 40];

fn calls_of_make() -> &'static [u64] {
    CALLS_OF_MAKE
}

/// The first of these that leaves something else where it fails.
fn wrong_make<R: Threads + Wait + Sync>(rt: &R, alloc: Global, calls: &[u64]) -> Option<u64> {
    for fails in calls {
        if !fails_to_make(rt, alloc, failing(alloc, &[*fails])) {
            return Some(*fails);
        }
    }
    None
}

#[test]
fn a_make_on_a_failing_disk(rt: HostRuntime) -> Result<(), Fail> {
    none_other(wrong_make(&rt, rt.alloc(), calls_of_make()))
}

/// How many calls a command makes on a disk that holds no archive.
fn calls_of<D: Crashing, R: Threads + Wait + Sync>(
    rt: &R,
    alloc: Global,
    line: &str,
    disk: D,
) -> u64 {
    let (_, _, disk) = call(rt, alloc, line, disk);
    disk.calls()
}

/// Calls of which a sheet isn't there.
const LACKING: &[&str] = &["create x calibrations containers", "query --ask x"];

fn lacking() -> &'static [&'static str] {
    LACKING
}

/// The place of the first of these that calls the disk.
fn calling<R: Threads + Wait + Sync>(rt: &R, alloc: Global, lines: &[&'static str]) -> Option<u64> {
    let mut place = 0u64;
    for line in lines {
        if calls_of(rt, alloc, line, MemDisk::new(alloc)) != 0 {
            return Some(place);
        }
        place = place.saturating_add(1);
    }
    None
}

#[test]
fn sheets_are_read_before_the_disk(rt: HostRuntime) -> Result<(), Fail> {
    none_other(calling(&rt, rt.alloc(), lacking()))
}

/// How many calls the making of an archive and the load of one batch make: the batch's, and then those of its fill.
fn calls_of_a_load<D: Crashing, R: Threads + Wait + Sync>(rt: &R, alloc: Global, disk: D) -> u64 {
    let (_, _, disk) = call(rt, alloc, CREATE, disk);
    calls_of(rt, alloc, "load batch", disk)
}

/// The number of a call of a load of one batch, counted from its last.
fn call_before_the_last<R: Threads + Wait + Sync>(rt: &R, alloc: Global, behind: u64) -> u64 {
    calls_of_a_load(rt, alloc, MemDisk::new(alloc)).saturating_sub(behind)
}

/// What a `recover` and a second load answer.
fn answers_behind<D: Disk + Send + Drop, R: Threads + Wait + Sync>(
    rt: &R,
    alloc: Global,
    disk: D,
) -> [(u8, u64); 2] {
    let (first, rows, disk) = call(rt, alloc, "recover", disk);
    let (second, more, _disk) = call(rt, alloc, "load batch", disk);
    [(first, rows), (second, more)]
}

/// Whether a load of one batch into a new archive fails and reports so many rows, each crash leaves these, and a second load adds the others.
fn fails_with<D: Crashing, R: Threads + Wait + Sync>(
    rt: &R,
    alloc: Global,
    disk: D,
    rows: u64,
) -> bool {
    let (_, _, disk) = call(rt, alloc, CREATE, disk);
    let (status, told, disk) = call(rt, alloc, "load batch", disk);
    let are_kept = images_hold(rt, alloc, &disk, told);
    let answers = answers_behind(rt, alloc, disk);
    are_kept && (status, told) == (5, rows) && answers == [(0, rows), (0, 2)]
}

/// The same where the call with so many behind it fails.
fn fails_so<R: Threads + Wait + Sync>(rt: &R, alloc: Global, behind: u64, rows: u64) -> bool {
    fails_with(
        rt,
        alloc,
        failing(alloc, &[call_before_the_last(rt, alloc, behind)]),
        rows,
    )
}

/// Whether a call with so many behind it and the next are the last, where both fail.
fn ends_with_both<R: Threads + Wait + Sync>(rt: &R, alloc: Global, behind: u64) -> bool {
    let fails = call_before_the_last(rt, alloc, behind);
    let next = fails.saturating_add(1);
    calls_of_a_load(rt, alloc, failing(alloc, &[fails, next])) == next
}

/// How many calls are behind the one that fails, and how many rows the load reports: the last sync of the fill, and that of the batch, behind which the
/// fill makes four calls.
const LAST_SYNCS: &[(u64, u64)] = &[(0, 2), (4, 0)];

fn last_syncs() -> &'static [(u64, u64)] {
    LAST_SYNCS
}

/// The place of the first of these that goes otherwise.
fn other_sync<R: Threads + Wait + Sync>(
    rt: &R,
    alloc: Global,
    syncs: &[(u64, u64)],
) -> Option<u64> {
    let mut place = 0u64;
    for (behind, rows) in syncs {
        if !fails_so(rt, alloc, *behind, *rows) {
            return Some(place);
        }
        place = place.saturating_add(1);
    }
    None
}

#[test]
fn a_load_whose_last_syncs_fail(rt: HostRuntime) -> Result<(), Fail> {
    none_other(other_sync(&rt, rt.alloc(), last_syncs()))
}

/// The place of the first of these whose write isn't taken back in one try.
fn other_try<R: Threads + Wait + Sync>(rt: &R, alloc: Global, syncs: &[(u64, u64)]) -> Option<u64> {
    let mut place = 0u64;
    for (behind, _) in syncs {
        if !ends_with_both(rt, alloc, *behind) {
            return Some(place);
        }
        place = place.saturating_add(1);
    }
    None
}

#[test]
fn a_failed_write_is_taken_back_in_one_try(rt: HostRuntime) -> Result<(), Fail> {
    none_other(other_try(&rt, rt.alloc(), last_syncs()))
}

const LONGEST_FRONT: &[u8] = &[8, 0x64, 0xC0, 0, 0xFF, 0xFF];

fn longest_front() -> &'static [u8] {
    LONGEST_FRONT
}

/// A packet of the greatest length that there is.
fn longest_packet(alloc: Global) -> Result<Vec<u8>, AllocError> {
    let mut packet = Vec::from_slice(alloc, longest_front())?;
    packet.extend_from_slice(vec![in alloc; 0u8; 65_536]?.as_slice())?;
    Ok(packet)
}

const LONGEST_LOAD: Wanted = (
    0,
    "load packets 1 new 1 duplicates 0 idle 0 rows 1\n",
    "",
    Some((0, 1)),
);

fn longest_load() -> Wanted {
    LONGEST_LOAD
}

/// Whether an archive takes a file `longest`.
fn takes<D: Disk + Send + Drop, R: Threads + Wait + Sync>(
    rt: &R,
    alloc: Global,
    disk: D,
    longest: &[u8],
) -> bool {
    let (_, _, disk) = call(rt, alloc, CREATE, disk);
    let files = [("longest", longest)];
    ends_so(rt, alloc, "load longest", &files, disk, &longest_load())
}

/// Whether it takes the longest packet: 0 where it doesn't.
fn other_longest<R: Threads + Wait + Sync>(
    rt: &R,
    alloc: Global,
) -> Result<Option<u64>, AllocError> {
    let packet = longest_packet(alloc)?;
    let is_taken = takes(rt, alloc, MemDisk::new(alloc), packet.as_slice());
    Ok(if is_taken { None } else { Some(0) })
}

#[test]
fn the_longest_packet_is_loaded(rt: HostRuntime) -> Result<(), Fail> {
    none_other(other_longest(&rt, rt.alloc())?)
}

/// An archive without fills on a new disk, whose rows came as they stand in a record.
fn unfilled_on<D: Disk + Send, R: Threads + Wait + Sync>(rt: &R, alloc: Global, disk: D) -> D {
    let (_, disk) = overwritten(rt, alloc, disk, &unfilled());
    disk
}

/// How many calls that makes.
fn calls_unfilled<D: Crashing, R: Threads + Wait + Sync>(rt: &R, alloc: Global, disk: D) -> u64 {
    unfilled_on(rt, alloc, disk).calls()
}

/// The statuses of a `recover` and a `verify`, and how many rows the first finds.
fn recovered_and_verified<D: Disk + Send + Drop, R: Threads + Wait + Sync>(
    rt: &R,
    alloc: Global,
    disk: D,
) -> (u8, u64, u8) {
    let (status, rows, disk) = call(rt, alloc, "recover", disk);
    let (found, _, _disk) = call(rt, alloc, "verify", disk);
    (status, rows, found)
}

/// Whether a `recover` of an archive without fills, on a disk that fails at one call, answers so, leaves its three rows to each kind of crash, and
/// to a second `recover`, behind which the archive is sound.
fn is_recovered<D: Crashing, R: Threads + Wait + Sync>(rt: &R, alloc: Global, disk: D) -> bool {
    let disk = unfilled_on(rt, alloc, disk);
    let before = disk.faults();
    let (status, _, disk) = call(rt, alloc, "recover", disk);
    let want = if disk.faults() > before { 5 } else { 0 };
    let are_kept = images_hold(rt, alloc, &disk, 3);
    are_kept && status == want && recovered_and_verified(rt, alloc, disk) == (0, 3, 0)
}

/// The first call of a `recover` of which it isn't so. An opening makes four calls, and each of the two fills makes four.
fn other_recover<R: Threads + Wait + Sync>(rt: &R, alloc: Global) -> Option<u64> {
    let made = calls_unfilled(rt, alloc, MemDisk::new(alloc));
    for fails in 1..13u64 {
        if !is_recovered(rt, alloc, failing(alloc, &[made.saturating_add(fails)])) {
            return Some(fails);
        }
    }
    None
}

#[test]
fn a_recover_on_a_failing_disk(rt: HostRuntime) -> Result<(), Fail> {
    none_other(other_recover(&rt, rt.alloc()))
}
