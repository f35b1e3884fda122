// The limit that a test can reach: rows of one interval. An archive that has so many is read from records of 1,024 rows.
use crate::journals::{holding_journal, put_record, put_row};
use crate::openings::damage_of;
use crate::parts::{InMemory, head_octets, none_other, untimed};
use crate::steps::{Step, of_opened};
use arch_disk::{Disk, MemDisk};
use arch_types::inserted::Inserted;
use std::alloc::{AllocError, Global};
use std::test::Fail;

/// The number of the first packet in such an archive.
const FIRST: u64 = 8;

/// Adds the entry of so many rows of table `tm` that were received at 9,000 ms.
fn put_rows(out: &mut Vec<u8>, from: u64, count: u16) -> Result<(), AllocError> {
    out.push(2)?;
    out.extend_from_slice(&count.to_be_bytes())?;
    for number in 0..count as u64 {
        put_row(out, 0, 0, &untimed(from.saturating_add(number)))?;
    }
    Ok(())
}

/// Adds the record of so many rows.
fn put_record_of(
    alloc: Global,
    out: &mut Vec<u8>,
    from: u64,
    count: u16,
) -> Result<(), AllocError> {
    let mut body = Vec::new(alloc);
    put_rows(&mut body, from, count)?;
    put_record(out, body.as_slice())
}

/// Adds the records of an archive with a full interval, so many rows behind it, and a closed gate.
fn put_full(alloc: Global, out: &mut Vec<u8>, behind: u16) -> Result<(), AllocError> {
    put_record(out, head_octets())?;
    let mut from = FIRST;
    for _ in 0..256 {
        put_record_of(alloc, out, from, 1_024)?;
        from = from.saturating_add(1_024);
    }
    if behind > 0 {
        put_record_of(alloc, out, from, behind)?;
    }
    out.push(0)?;
    Ok(())
}

/// The octets of such an archive.
fn full_journal(alloc: Global, behind: u16) -> Result<Vec<u8>, AllocError> {
    let mut journal = Vec::new(alloc);
    put_full(alloc, &mut journal, behind)?;
    Ok(journal)
}

/// One row more is refused, and so is one behind a duplicate and rows of the other table.
const FULL: &[Step] = &[
    Step::Refused((9_000, &[262_152], &[0]), "limit IntervalRows 262144"),
    Step::Refused(
        (9_000, &[262_151, 262_152], &[1, 0]),
        "limit IntervalRows 262144",
    ),
];

/// Duplicates, a row of another table and one of another interval aren't.
const NOT_FULL: &[Step] = &[
    Step::Ingest(
        (9_000, &[8, 262_151], &[0]),
        &[Inserted::Duplicate(0), Inserted::Duplicate(262_143)],
    ),
    Step::Ingest((9_000, &[262_152], &[1]), &[Inserted::New(262_144)]),
    Step::Ingest((4_200_000, &[262_152], &[0]), &[Inserted::New(262_145)]),
];

/// They are functions, so that they stand in no goal of their callers.
fn full() -> &'static [Step] {
    FULL
}

fn not_full() -> &'static [Step] {
    NOT_FULL
}

/// The place of the first of these calls of the archive on a disk that is answered otherwise, how many calls they made with its opening, and the disk.
fn calls_made<D: InMemory>(alloc: Global, disk: D, steps: &[Step]) -> (Option<usize>, u64, D) {
    let before = disk.calls();
    let (other, disk) = of_opened(alloc, disk, steps);
    let made = disk.calls().saturating_sub(before);
    (other, made, disk)
}

/// What goes otherwise in an archive with a full interval. A refusal makes no call of the disk: the second opening makes as many calls as the first, and
/// two appends four each.
fn other_when_full<D: InMemory>(alloc: Global, disk: D) -> Option<&'static str> {
    let (refused, first, disk) = calls_made(alloc, disk, full());
    let (taken, second, _disk) = calls_made(alloc, disk, not_full());
    if refused.is_some() {
        Some("a refusal")
    } else if taken.is_some() {
        Some("an ingest")
    } else if second != first.saturating_add(8) {
        Some("calls of the disk")
    } else {
        None
    }
}

/// The same of a disk that holds nothing yet.
fn other_of_full<D: InMemory>(alloc: Global, disk: D) -> Option<&'static str> {
    other_when_full(alloc, holding_journal(disk, &full_journal(alloc, 0)))
}

#[test]
fn an_interval_is_full(rt: HostRuntime) -> Result<(), Fail> {
    none_other(other_of_full(rt.alloc(), MemDisk::new(rt.alloc())))
}

/// The gate at which the opening of an archive with one row more is refused, where it isn't that of the row.
fn other_gate<D: Disk + Drop>(alloc: Global, disk: D) -> Option<u64> {
    match damage_of(alloc, holding_journal(disk, &full_journal(alloc, 1))) {
        Some(4_982_842) => None,
        Some(gate) => Some(gate),
        None => Some(0),
    }
}

#[test]
fn a_record_passes_the_limit(rt: HostRuntime) -> Result<(), Fail> {
    none_other(other_gate(rt.alloc(), MemDisk::new(rt.alloc())))
}
