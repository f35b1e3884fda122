// What a plan has of intervals: the set of one that isn't late, the packets of one that is.
ghost use Rattle.archive_fills_tests.specs.Growth.{GoesOnFrom};

use crate::calls::are_packets;
use arch_disk::Disk;
use arch_types::direction::Direction;
use arch_types::name::Name;
use arch_types::octets::Octets;
use archive_store::Store;
use asks::Request;
use param_segments::{Part, Plan};
use std::alloc::Global;

/// What a plan has of an interval.
pub enum Over {
    Set(i64),
    /// Its packets in the order of their keys.
    Rows(i64, &'static [usize]),
}

/// The values of a parameter over a range.
pub(crate) fn request(alloc: Global, parameter: &[u8], from: i64, to: i64) -> Option<Request> {
    let Ok(octets) = Octets::from_slice(alloc, parameter) else {
        return None;
    };
    let parameter = Name::of(octets)?;
    Some(Request {
        parameter,
        from,
        to,
        direction: Direction::Ascending,
        limit: None,
    })
}

/// The plan of `v` over a range.
fn planned<D: Disk>(alloc: Global, store: &mut Store<D>, from: i64, to: i64) -> Option<Plan>
    ensures { GoesOnFrom store.old store.new }
{
    let request = request(alloc, b"v", from, to)?;
    let Ok(found) = store.find(request) else {
        return None;
    };
    store.plan(alloc, &found).ok()
}

/// Whether a part is this one.
fn is_part(part: &Part, expected: &Over) -> bool {
    let of = part.interval().0;
    match (part, expected) {
        (Part::Set { .. }, Over::Set(interval)) => of == *interval,
        (Part::Rows { rows, .. }, Over::Rows(interval, packets)) => {
            of == *interval && are_packets(rows.as_slice(), packets)
        }
        _ => false,
    }
}

/// Whether parts are these.
fn are_parts(parts: &[Part], expected: &[Over]) -> bool {
    for (part, expected) in parts.iter().zip(expected) {
        if !is_part(part, expected) {
            return false;
        }
    }
    parts.len() == expected.len()
}

/// Whether a plan has this front and these parts.
fn is_plan(plan: &Plan, front: u64, parts: &[Over]) -> bool {
    plan.front == front && are_parts(plan.parts.as_slice(), parts)
}

/// Whether a plan over a range has this front and these parts.
pub(crate) fn shows<D: Disk>(
    alloc: Global,
    store: &mut Store<D>,
    from: i64,
    to: i64,
    front: u64,
    parts: &[Over],
) -> bool
    ensures { GoesOnFrom store.old store.new }
{
    match planned(alloc, store, from, to) {
        Some(plan) => is_plan(&plan, front, parts),
        None => false,
    }
}
