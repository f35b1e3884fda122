// What no clause says: that calls succeed while memory lasts, which device calls are made, and that the images of every
// moment open to the records from before, or with the new one.
//
// What calls the journal is generic in the disk: over a `MemDisk` each clause speaks of its list of calls, and that costs minutes to prove. Where memory
// is wanting for what a row needs, it goes otherwise.
ghost use Rattle.std.specs.Prelude.{◌<◌, ◌^◌, IsTrue, length, IfOk};
ghost use Rattle.disk_journal.specs.State.{IsOnDisk};

use crate::ends::{none_other, other};
use crate::watched::{Watched, calls_since, failing, holds};
use arch_disk::{Crash, Disk, Length, MemDisk, OpaqueDisk, Unsynced};
use disk_journal::{Frame, Journal, JournalFault, Opening};
use std::alloc::Global;
use std::test::Fail;

const FILE: u32 = 0;

// The octets of a file of one record, and of one whose gate is closed.
const OPEN: &[u8] = &[1, 0, 0, 0, 1, 104, 0];

const CLOSED: &[u8] = &[0, 0, 0, 0, 1, 104, 0];

// The octets of a file of one record, and a second one behind a gate that is closed or open.
const SECOND_CLOSED: &[u8] = &[1, 0, 0, 0, 1, 104, 0, 0, 0, 0, 1, 0xAA, 0];

const SECOND_OPEN: &[u8] = &[1, 0, 0, 0, 1, 104, 1, 0, 0, 0, 1, 0xAA, 0];

// They are functions, as the tables below, so that they stand in no goal of their callers.
fn open() -> &'static [u8] {
    OPEN
}

fn second_open() -> &'static [u8] {
    SECOND_OPEN
}

// An image after this call of an append to a file of one record: what it holds where all is written, and how many
// records each kind of crash leaves.
type Appended = (usize, &'static [u8], &'static [u64]);

const APPENDS: &[Appended] = &[
    (1, SECOND_CLOSED, &[1, 1, 1, 1, 1, 1, 1, 1]),
    (2, SECOND_CLOSED, &[1, 1, 1, 1, 1, 1, 1, 1]),
    (3, SECOND_OPEN, &[1, 1, 2, 2, 1, 1, 1, 1]),
    (4, SECOND_OPEN, &[2, 2, 2, 2, 2, 2, 2, 2]),
];

fn appends() -> &'static [Appended] {
    APPENDS
}

const ALL_WRITTEN: Crash = Crash {
    unsynced: Unsynced::Written,
    length: Length::New,
};

// The body that each test appends at a place.
pub(crate) fn body_at(i: u64) -> &'static [u8]
    ensures { length result.now < 2 ^ 32 }
{
    match i {
        0 => b"h",
        1 => b"\xAA",
        2 => b"",
        _ => b"a longer body",
    }
}

// A journal of one record.
fn created<D: Disk>(alloc: Global, disk: &mut D) -> Result<Journal, JournalFault>
    ensures { IsTrue D.device.is_transparent → IfOk result (λ journal. IsOnDisk D.device journal disk.new) }
{
    let first = Frame::of(alloc, body_at(0))?;
    Journal::create(alloc, disk, FILE, &first)
}

// Appends a body.
pub(crate) fn add<D: Disk>(
    alloc: Global,
    journal: &mut Journal,
    disk: &mut D,
    body: &[u8],
) -> Result<u64, JournalFault>
    requires small { length body.now < 2 ^ 32 }
    requires kept { IsTrue D.device.is_transparent → IsOnDisk D.device journal.old disk.old }
    ensures { IsTrue D.device.is_transparent → IsOnDisk D.device journal.new disk.new }
{
    let frame = Frame::of(alloc, body)?;
    journal.reserve()?;
    journal.append(disk, &frame)
}

// Appends a body, and heals where the disk fails.
fn grow<D: Disk>(
    alloc: Global,
    journal: &mut Journal,
    disk: &mut D,
    body: &[u8],
) -> Result<bool, JournalFault>
    requires small { length body.now < 2 ^ 32 }
    requires kept { IsTrue D.device.is_transparent → IsOnDisk D.device journal.old disk.old }
    ensures { IsTrue D.device.is_transparent → IsOnDisk D.device journal.new disk.new }
{
    match add(alloc, journal, disk, body) {
        Ok(_) => Ok(true),
        Err(JournalFault::DiskFault { wrote: true }) => {
            journal.heal(disk)?;
            Ok(false)
        }
        Err(fault) => Err(fault),
    }
}

fn grow_many<D: Disk>(
    alloc: Global,
    journal: &mut Journal,
    disk: &mut D,
    n: u64,
) -> Result<(), JournalFault>
    requires { IsTrue D.device.is_transparent → IsOnDisk D.device journal.old disk.old }
    ensures { IsTrue D.device.is_transparent → IsOnDisk D.device journal.new disk.new }
{
    for i in 0..n {
        grow(alloc, journal, disk, body_at(i))?;
    }
    Ok(())
}

// Whether an image opens to `low` records, or one more, of which the last is right; or holds none where none is to be.
fn opens<D: Disk>(alloc: Global, image: &mut D, low: u64) -> bool {
    match Journal::open(alloc, image, FILE) {
        Ok(found) => {
            let count = found.count();
            if count < low || 1 < count - low {
                return false;
            }
            if count == 0 {
                return true;
            }
            match found.record(alloc, image, count - 1) {
                Ok(last) => last.as_slice() == body_at(count - 1),
                Err(_) => false,
            }
        }
        Err(JournalFault::NoArchive) => low == 0,
        Err(_) => false,
    }
}

// Whether there is an image, and opens so. It is given up.
fn is_opened<D: Disk + Drop>(alloc: Global, image: Option<D>, low: u64) -> bool {
    match image {
        Some(image) => {
            let mut image = image;
            opens(alloc, &mut image, low)
        }
        None => false,
    }
}

// Whether the image that each kind of crash leaves at a moment opens so.
fn open_images<D: Watched>(alloc: Global, disk: &D, moment: usize, low: u64) -> bool {
    for crash in Crash::ALL.iter() {
        if !is_opened(alloc, disk.image(moment, *crash), low) {
            return false;
        }
    }
    true
}

// The same of each moment behind the first `from` kept calls.
fn open_since<D: Watched>(alloc: Global, disk: &D, from: usize, low: u64) -> bool {
    for moment in from..disk.kept() {
        if !open_images(alloc, disk, moment + 1, low) {
            return false;
        }
    }
    true
}

// Appends the body of the next place, and says whether every image that it may have left opens as it should.
fn grow_and_open<D: Watched>(
    alloc: Global,
    journal: &mut Journal,
    disk: &mut D,
) -> Result<bool, JournalFault>
    requires { IsTrue D.device.is_transparent → IsOnDisk D.device journal.old disk.old }
    ensures { IsTrue D.device.is_transparent → IsOnDisk D.device journal.new disk.new }
{
    let from = disk.kept();
    let low = journal.count();
    let is_done = grow(alloc, journal, disk, body_at(low))?;
    let are_right = open_since(alloc, disk, from, low);
    Ok(are_right && is_done == (journal.count() > low))
}

// Whether a `create` makes eight calls and an append four, and what the file holds after each.
fn makes_four_calls<D: Watched>(alloc: Global, disk: &mut D) -> bool {
    let Ok(mut journal) = created(alloc, disk) else {
        return false;
    };
    let is_created = disk.calls() == 8 && disk.octets(FILE) == open();
    let is_second = matches!(add(alloc, &mut journal, disk, body_at(1)), Ok(1));
    is_created && is_second && disk.calls() == 12 && disk.octets(FILE) == second_open()
}

// Appends a body to a new journal, as its second record. Answers how many calls were kept before.
fn kept_before_second<D: Watched>(alloc: Global, disk: &mut D) -> Option<usize> {
    let Ok(mut journal) = created(alloc, disk) else {
        return None;
    };
    let before = disk.kept();
    match add(alloc, &mut journal, disk, body_at(1)) {
        Ok(1) => Some(before),
        _ => None,
    }
}

// Whether there is an image, and has so many records. It is given up.
fn has_records<D: Disk + Drop>(alloc: Global, image: Option<D>, want: u64) -> bool {
    match image {
        Some(image) => {
            let mut image = image;
            matches!(records_of(alloc, &mut image), Some(count) if count == want)
        }
        None => false,
    }
}

// How many records a disk holds, where it can be opened.
fn records_of<D: Disk>(alloc: Global, disk: &mut D) -> Option<u64> {
    match Journal::open(alloc, disk, FILE) {
        Ok(journal) => Some(journal.count()),
        Err(_) => None,
    }
}

// Whether each kind of crash at a moment leaves as many records as are listed for it.
pub(crate) fn leave_records<D: Watched>(
    alloc: Global,
    disk: &D,
    moment: usize,
    counts: &[u64],
) -> bool {
    let mut place = 0usize;
    for crash in Crash::ALL.iter() {
        let Some(count) = counts.get(place) else {
            return false;
        };
        if !has_records(alloc, disk.image(moment, *crash), *count) {
            return false;
        }
        place = place.saturating_add(1);
    }
    true
}

// Whether the calls of an append, which began after so many kept ones, have these images.
fn are_appends<D: Watched>(alloc: Global, disk: &D, before: usize, appends: &[Appended]) -> bool {
    for (call, octets, counts) in appends {
        let moment = before.saturating_add(*call);
        if !holds(disk.image(moment, ALL_WRITTEN), FILE, octets)
            || !leave_records(alloc, disk, moment, counts)
        {
            return false;
        }
    }
    true
}

fn leaves_images<D: Watched>(alloc: Global, disk: &mut D) -> bool {
    match kept_before_second(alloc, disk) {
        Some(before) => are_appends(alloc, disk, before, appends()),
        None => false,
    }
}

// Whether a `create` is refused so.
fn is_refused<D: Disk>(alloc: Global, disk: &mut D, want: JournalFault) -> bool {
    match created(alloc, disk) {
        Ok(_) => false,
        Err(fault) => fault == want,
    }
}

// Whether a `create` succeeds.
pub(crate) fn is_created<D: Disk>(alloc: Global, disk: &mut D) -> bool {
    match created(alloc, disk) {
        Ok(journal) => journal.count() == 1,
        Err(_) => false,
    }
}

// Whether a `create` fails, at a write or at a look, after so many calls and leaves these octets and no archive, and a
// second one succeeds.
fn fails_and_is_made_again<D: Watched>(
    alloc: Global,
    disk: &mut D,
    wrote: bool,
    calls: u64,
    octets: &[u8],
) -> bool {
    is_refused(alloc, disk, JournalFault::DiskFault { wrote })
        && disk.calls() == calls
        && disk.octets(FILE) == octets
        && open_since(alloc, disk, 0, 0)
        && is_created(alloc, disk)
}

// Two failures leave the gate as the last write did.
fn fails_twice<D: Watched>(alloc: Global, disk: &mut D) -> bool {
    is_refused(alloc, disk, JournalFault::DiskFault { wrote: true })
        && disk.faults() == 2
        && disk.octets(FILE) == open()
}

// Whether a second record is appended just where nothing is to be healed, and so many calls heal.
fn is_healed<D: Watched>(alloc: Global, disk: &mut D, calls: u64) -> bool {
    let Ok(mut journal) = created(alloc, disk) else {
        return false;
    };
    let is_done = add(alloc, &mut journal, disk, body_at(1)).is_ok();
    let made = disk.calls();
    let is_healed = journal.heal(disk).is_ok();
    is_healed && is_done == (calls == 0) && disk.calls().saturating_sub(made) == calls
}

// Appends four records to a journal, and says whether all images open as they should.
fn grow_by_four<D: Watched>(
    alloc: Global,
    journal: &mut Journal,
    disk: &mut D,
) -> Result<bool, JournalFault>
    requires { IsTrue D.device.is_transparent → IsOnDisk D.device journal.old disk.old }
{
    let first = grow_and_open(alloc, journal, disk)?;
    let second = grow_and_open(alloc, journal, disk)?;
    let third = grow_and_open(alloc, journal, disk)?;
    let fourth = grow_and_open(alloc, journal, disk)?;
    Ok(first && second && third && fourth)
}

fn is_grown<D: Watched>(alloc: Global, disk: &mut D) -> bool {
    let Ok(mut journal) = created(alloc, disk) else {
        return false;
    };
    let is_grown = matches!(grow_by_four(alloc, &mut journal, disk), Ok(true));
    is_grown && journal.count() >= 4
}

// A file with a journal, and one without.
fn has_one_journal<D: Watched>(alloc: Global, disk: &mut D) -> bool {
    is_created(alloc, disk)
        && is_refused(alloc, disk, JournalFault::Exists)
        && matches!(Journal::open(alloc, disk, 1), Err(JournalFault::NoArchive))
}

// What is looked at on a new disk.
enum Look {
    Calls,
    Images,
    // A `create` that fails at a write, or at a look, after so many calls, and what the file reads as then.
    Created(bool, u64, &'static [u8]),
    FailsTwice,
    // An append that so many calls heal.
    Healed(u64),
    Grown,
    OneJournal,
}

fn is_seen<D: Watched>(alloc: Global, disk: &mut D, look: &Look) -> bool {
    match look {
        Look::Calls => makes_four_calls(alloc, disk),
        Look::Images => leaves_images(alloc, disk),
        Look::Created(wrote, calls, octets) => {
            fails_and_is_made_again(alloc, disk, *wrote, *calls, octets)
        }
        Look::FailsTwice => fails_twice(alloc, disk),
        Look::Healed(calls) => is_healed(alloc, disk, *calls),
        Look::Grown => is_grown(alloc, disk),
        Look::OneJournal => has_one_journal(alloc, disk),
    }
}

// The same of a disk that is given up.
fn is_seen_on<D: Watched + Drop>(alloc: Global, disk: D, look: &Look) -> bool {
    let mut disk = disk;
    is_seen(alloc, &mut disk, look)
}

// The same of a disk whose calls of these numbers fail.
fn is_so(alloc: Global, calls: &[u64], look: &Look) -> bool {
    match failing(alloc, calls) {
        Ok(disk) => is_seen_on(alloc, disk, look),
        Err(_) => false,
    }
}

// The numbers of the calls that fail, and what is looked at.
type Row = (&'static [u64], Look);

const LOOKS: &[Row] = &[
    (&[], Look::Calls),
    (&[], Look::Images),
    (&[], Look::OneJournal),
    (&[8, 9], Look::FailsTwice),
];

// Each call of a `create` fails, of which the second is a look. Up to call 4 the first closed gate isn't durable, from call 7 on the open one is asked for and closed again.
const CREATES: &[Row] = &[
    (&[1], Look::Created(true, 1, &[])),
    (&[2], Look::Created(false, 2, &[])),
    (&[3], Look::Created(true, 3, &[])),
    (&[4], Look::Created(true, 4, &[0])),
    (&[5], Look::Created(true, 6, &[0])),
    (&[6], Look::Created(true, 7, CLOSED)),
    (&[7], Look::Created(true, 9, CLOSED)),
    (&[8], Look::Created(true, 10, CLOSED)),
];

// A call of an append after a `create` of eight calls fails.
const HEALS: &[Row] = &[
    (&[9], Look::Healed(1)),
    (&[10], Look::Healed(1)),
    (&[11], Look::Healed(2)),
    (&[12], Look::Healed(2)),
    (&[13], Look::Healed(0)),
];

fn looks() -> &'static [Row] {
    LOOKS
}

fn creates() -> &'static [Row] {
    CREATES
}

fn heals() -> &'static [Row] {
    HEALS
}

fn are_so(alloc: Global, rows: &[Row]) -> bool {
    for (calls, look) in rows {
        if !is_so(alloc, calls, look) {
            return false;
        }
    }
    true
}

// Four appends, with each device call failing in turn: no image of a moment has anything else than the records from
// before, or with the one in hand.
fn are_grown(alloc: Global) -> bool {
    for fails in 9..24u64 {
        if !is_so(alloc, &[fails], &Look::Grown) {
            return false;
        }
    }
    true
}

#[test]
fn calls_and_images(rt: HostRuntime) -> Result<(), Fail> {
    none_other(other(&[
        ("calls and images", are_so(rt.alloc(), looks())),
        ("a create", are_so(rt.alloc(), creates())),
        ("a heal", are_so(rt.alloc(), heals())),
    ]))
}

#[test]
fn images_of_appends_and_heals(rt: HostRuntime) -> Result<(), Fail> {
    none_other(other(&[("appends", are_grown(rt.alloc()))]))
}

// Whether so many appends to a new journal leave so many records and the first.
fn is_grown_by<D: Disk>(alloc: Global, disk: &mut D, n: u64) -> bool {
    let Ok(mut journal) = created(alloc, disk) else {
        return false;
    };
    let is_grown = grow_many(alloc, &mut journal, disk, n).is_ok();
    is_grown && journal.count() == n.saturating_add(1)
}

// Whether a disk is opened by ten calls to the records of 100,000 appends. It is given up.
fn is_opened_by_ten<D: Watched + Drop>(alloc: Global, disk: D) -> bool {
    let mut disk = disk;
    let made = disk.calls();
    let records = records_of(alloc, &mut disk);
    matches!(records, Some(100_001)) && calls_since(disk, made) == 10
}

// 100,000 appends, over a disk that doesn't tell what it holds. Opening them makes a sync, asks for the length of the
// file, and reads the first gate; the 1.8 MB behind it are seven pieces.
fn many_appends(alloc: Global) -> bool {
    let mut disk = OpaqueDisk::new(MemDisk::new(alloc));
    let is_grown = is_grown_by(alloc, &mut disk, 100_000);
    let is_opened = is_opened_by_ten(alloc, disk.into_inner());
    is_grown && is_opened
}

// Appends a body of so many octets.
fn add_long(
    alloc: Global,
    journal: &mut Journal,
    disk: &mut OpaqueDisk,
    i: u8,
    octets: usize,
) -> bool {
    match vec![in alloc; i; octets] {
        Ok(body) => body.len() < 1_000_000 && add(alloc, journal, disk, &body).is_ok(),
        Err(_) => false,
    }
}

// Appends six bodies of so many octets.
fn add_six(alloc: Global, journal: &mut Journal, disk: &mut OpaqueDisk, octets: usize) -> bool {
    for i in 0..6u8 {
        if !add_long(alloc, journal, disk, i, octets) {
            return false;
        }
    }
    true
}

// The same to a new journal.
fn grow_by_long(alloc: Global, disk: &mut OpaqueDisk, octets: usize) -> bool {
    match created(alloc, disk) {
        Ok(mut journal) => add_six(alloc, &mut journal, disk, octets),
        Err(_) => false,
    }
}

// Whether the next record is this one.
fn next_is(alloc: Global, opening: &mut Opening, disk: &mut OpaqueDisk, body: &[u8]) -> bool {
    match opening.next(alloc, disk) {
        Ok(Some(found)) => found.as_slice() == body,
        _ => false,
    }
}

// Whether the next record is this one of the six bodies.
fn next_is_long(
    alloc: Global,
    opening: &mut Opening,
    disk: &mut OpaqueDisk,
    i: u8,
    octets: usize,
) -> bool {
    match vec![in alloc; i; octets] {
        Ok(body) => next_is(alloc, opening, disk, &body),
        Err(_) => false,
    }
}

// Whether those of the six bodies from one place to another are read in turn.
fn next_are_long(
    alloc: Global,
    opening: &mut Opening,
    disk: &mut OpaqueDisk,
    octets: usize,
    places: (u8, u8),
) -> bool {
    let (from, to) = places;
    for i in from..to {
        if !next_is_long(alloc, opening, disk, i, octets) {
            return false;
        }
    }
    true
}

// Whether a record is asked for, and the disk fails.
fn next_fails(alloc: Global, opening: &mut Opening, disk: &mut OpaqueDisk) -> bool {
    matches!(
        opening.next(alloc, disk),
        Err(JournalFault::DiskFault { wrote: false })
    )
}

// Whether an opening gives the short body, the six long ones, and no more.
fn are_all(alloc: Global, opening: &mut Opening, disk: &mut OpaqueDisk, octets: usize) -> bool {
    next_is(alloc, opening, disk, body_at(0))
        && next_are_long(alloc, opening, disk, octets, (0, 6))
        && matches!(opening.next(alloc, disk), Ok(None))
}

// The same, and it counts seven records.
fn is_read(alloc: Global, disk: &mut OpaqueDisk, octets: usize) -> bool {
    match Opening::begin(alloc, disk, FILE) {
        Ok(mut opening) => {
            let are_all = are_all(alloc, &mut opening, disk, octets);
            let count = opening.finish().count();
            are_all && count == 7
        }
        Err(_) => false,
    }
}

// Six bodies of 100,000 octets behind a short one. The third and the sixth pass the end of a piece, so their rests are
// read alone; the next piece begins at the gate behind them, and the third one is the closed gate at the end.
fn reads_in_pieces(alloc: Global) -> bool {
    let mut disk = OpaqueDisk::new(MemDisk::new(alloc));
    let is_grown = grow_by_long(alloc, &mut disk, 100_000);
    let disk = disk.into_inner();
    let made = disk.made();
    let mut disk = OpaqueDisk::new(disk);
    let is_read = is_read(alloc, &mut disk, 100_000);
    let calls = calls_since(disk.into_inner(), made);
    is_grown && is_read && calls == 8
}

// Whether the read of the second piece fails, at the fourth long body, and made again gives that body and the rest.
fn fails_at_a_piece(
    alloc: Global,
    opening: &mut Opening,
    disk: &mut OpaqueDisk,
    octets: usize,
) -> bool {
    next_is(alloc, opening, disk, body_at(0))
        && next_are_long(alloc, opening, disk, octets, (0, 3))
        && next_fails(alloc, opening, disk)
        && next_are_long(alloc, opening, disk, octets, (3, 6))
}

fn is_read_again(alloc: Global, disk: &mut OpaqueDisk, octets: usize) -> bool {
    match Opening::begin(alloc, disk, FILE) {
        Ok(mut opening) => fails_at_a_piece(alloc, &mut opening, disk, octets),
        Err(_) => false,
    }
}

// A `create` and six appends make 32 calls, the beginning of the opening 3, and the first piece and the rest of the third long body one each. The
// piece that stands is not taken for the one whose read failed.
fn reads_a_piece_again(alloc: Global) -> bool {
    let Ok(disk) = failing(alloc, &[38]) else {
        return false;
    };
    let mut disk = OpaqueDisk::new(disk);
    grow_by_long(alloc, &mut disk, 100_000) && is_read_again(alloc, &mut disk, 100_000)
}

// Whether the first look of an opening fails, and made again gives the first record.
fn is_looked_again(alloc: Global, disk: &mut OpaqueDisk) -> bool {
    match Opening::begin(alloc, disk, FILE) {
        Ok(mut opening) => {
            next_fails(alloc, &mut opening, disk) && next_is(alloc, &mut opening, disk, body_at(0))
        }
        Err(_) => false,
    }
}

// The look that failed is made again: what the failed read left is not taken for a piece.
fn looks_again(alloc: Global) -> bool {
    let Ok(disk) = failing(alloc, &[12]) else {
        return false;
    };
    let mut disk = OpaqueDisk::new(disk);
    is_created(alloc, &mut disk) && is_looked_again(alloc, &mut disk)
}

#[test]
fn openings(rt: HostRuntime) -> Result<(), Fail> {
    none_other(other(&[
        ("many appends", many_appends(rt.alloc())),
        ("pieces", reads_in_pieces(rt.alloc())),
        ("a piece again", reads_a_piece_again(rt.alloc())),
        ("a look again", looks_again(rt.alloc())),
    ]))
}
