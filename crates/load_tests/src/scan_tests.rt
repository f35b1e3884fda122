//! Scans of dumps that come an octet at once, or that are larger than what a scan holds of them.

use crate::calls::{Outcome, call_over, none_other};
use crate::repeating::{ReadOrder, Repeated, RepeatingInputs};
use arch_disk::{Disk, MemDisk};
use std::alloc::{AllocError, Global};
use std::sync::Wait;
use std::test::Fail;
use std::thread::Threads;

/// The header of a packet of the greatest length that there is.
const LONGEST: &[u8] = b"\x08\x64\xC0\x00\xFF\xFF";

/// What a read of a dump gives, how many times it comes again, and the status of its scan, its text and its fault.
type Scan<'a> = (&'a [u8], u64, u8, &'static str, &'static str);

/// What comes of a scan of such a dump.
fn scanned<'a, D: Disk + Send + Drop, R: Threads + Wait + Sync>(
    rt: &R,
    alloc: Global,
    dumps: &'a [Repeated<'a>],
    order: &'a ReadOrder,
    disk: D,
) -> Outcome {
    let mut inputs = RepeatingInputs::new(dumps, order);
    let (outcome, _disk) = call_over(rt, alloc, "scan dump", &mut inputs, disk, order);
    outcome
}

/// Whether a dump is scanned as it is to be.
fn is_scanned<D: Disk + Send + Drop, R: Threads + Wait + Sync>(
    rt: &R,
    alloc: Global,
    scan: &Scan<'_>,
    disk: D,
) -> Result<bool, AllocError> {
    let (octets, again, status, text, fault) = *scan;
    let mut dumps: Vec<Repeated<'_>> = Vec::new(alloc);
    dumps.push(("dump", octets, again))?;
    let order = ReadOrder::new();
    let outcome = scanned(rt, alloc, dumps.as_slice(), &order, disk);
    Ok(
        outcome.status == status
            && outcome.text.as_slice() == text.as_bytes()
            && outcome.fault.as_str() == fault,
    )
}

/// The place of the first dump that is scanned otherwise.
fn other_scan<R: Threads + Wait + Sync>(
    rt: &R,
    alloc: Global,
    scans: &[Scan<'_>],
) -> Result<Option<usize>, AllocError> {
    let mut place = 0usize;
    for scan in scans {
        if !is_scanned(rt, alloc, scan, MemDisk::new(alloc))? {
            return Ok(Some(place));
        }
        place = place.saturating_add(1);
    }
    Ok(None)
}

/// Packets of 7 zeros, an octet at once: ten of them, and ten and an octet. Then the longest packet 4,095 times, with
/// which a dump is within the limit, and 4,096 times, with which it isn't, as are octets of another version.
fn other_of_dumps<R: Threads + Wait + Sync>(
    rt: &R,
    alloc: Global,
) -> Result<Option<usize>, AllocError> {
    let mut longest = Vec::from_slice(alloc, LONGEST)?;
    longest.extend_from_slice(vec![in alloc; 0u8; 65_536]?.as_slice())?;
    let packet = longest.as_slice();
    let other = vec![in alloc; 0x28u8; 65_536]?;
    let scans: [Scan<'_>; 5] = [
        (
            b"\0",
            69,
            0,
            "row 9000 0 7\nscan packets 10 rows 1 duplicates 9 idle 0\n",
            "",
        ),
        (
            b"\0",
            70,
            2,
            "row 9000 0 7\n",
            "bad packet at 70: truncated",
        ),
        (
            packet,
            4_094,
            0,
            "row 0 140820480 65542\nscan packets 4095 rows 1 duplicates 4094 idle 0\n",
            "",
        ),
        (packet, 4_095, 2, "", "limit DumpOctets 268435456"),
        (other.as_slice(), 4_096, 2, "", "limit DumpOctets 268435456"),
    ];
    other_scan(rt, alloc, &scans)
}

#[test]
fn scans_in_pieces(rt: HostRuntime) -> Result<(), Fail> {
    none_other(other_of_dumps(&rt, rt.alloc())?)
}
