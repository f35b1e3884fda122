// A journal that was cut at each shorter length: no archive is in it below two octets, and else it is damaged at the gate of the record that the cut
// meets, or of the one before a cut at a record's end.
use crate::journals::holding;
use crate::openings::{Body, damage_of, journal_of};
use crate::parts::none_other;
use arch_disk::{Disk, MemDisk};
use std::alloc::Global;
use std::test::Fail;

const BODIES: &[Body] = &[
    Body::Head,
    Body::Rows(2, &[(0, 0)], 0),
    Body::Rows(2, &[(1, 0)], 0),
    Body::Fill(0, 1, 4),
];

/// A function, so that they stand in no goal of its callers.
fn bodies() -> &'static [Body] {
    BODIES
}

/// The gates of their records. Behind the last of them the closed gate is the octet 150.
const GATES: &[u64] = &[0, 58, 91, 124];

/// A function, as above.
fn gates() -> &'static [u64] {
    GATES
}

/// The gate at which a file of so many octets of the journal is damaged, and no gate at all where it holds no archive.
fn gate_met(gates: &[u64], len: usize) -> u64 {
    let mut met = u64::MAX;
    for gate in gates {
        if len >= 2 && *gate < len as u64 {
            met = *gate;
        }
    }
    met
}

/// The gate at which the opening of a disk is refused that holds these octets.
fn damage_in<D: Disk + Drop>(alloc: Global, disk: D, octets: &[u8]) -> Option<u64> {
    damage_of(alloc, holding(disk, octets))
}

/// The first shorter length that is opened otherwise, or the length of the journal where it isn't opened.
fn other_cut(alloc: Global, journal: &[u8]) -> Option<usize> {
    for len in 0..journal.len() {
        let want = gate_met(gates(), len);
        if damage_in(alloc, MemDisk::new(alloc), &journal[..len]) != Some(want) {
            return Some(len);
        }
    }
    match damage_in(alloc, MemDisk::new(alloc), journal) {
        None => None,
        Some(_) => Some(journal.len()),
    }
}

#[test]
fn cuts_at_each_length(rt: HostRuntime) -> Result<(), Fail> {
    let alloc = rt.alloc();
    let other = match journal_of(alloc, bodies()) {
        Ok(journal) => other_cut(alloc, journal.as_slice()),
        Err(_) => Some(0),
    };
    none_other(other)
}
