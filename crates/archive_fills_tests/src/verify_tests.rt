// What verifying archives answers: of those whose fills are right, and of each way in which one isn't.
use crate::journals::holding;
use crate::parts::{none_other, opened};
use crate::verify_cases::{Answer, Case, cases};
use crate::verify_journals::{Record, journal_of};
use arch_disk::{Disk, MemDisk};
use arch_types::key::Key;
use arch_types::name::Name;
use archive_store::Store;
use archive_verify::{Sound, verify};
use refusals::Refusal;
use std::alloc::Global;
use std::test::Fail;

/// The name of a parameter of these archives.
fn known(name: &Name) -> &'static str {
    match name.as_slice() {
        b"apid" => "apid",
        b"v" => "v",
        _ => "another",
    }
}

fn of_key(key: Key) -> (i64, u32) {
    (key.time, key.seq)
}

fn of_answer(answer: Result<Sound, Refusal>) -> Answer {
    match answer {
        Ok(
            Sound {
                rows,
                intervals,
                late,
            },
        ) => Answer::Sound(rows, intervals, late),
        Err(
            Refusal::Mismatch {
                interval,
                parameter,
                key,
                stored,
                replayed,
            },
        ) => Answer::Mismatch(interval.0, known(&parameter), of_key(key), stored, replayed),
        Err(_) => Answer::Another,
    }
}

/// What verifying a store answers that is given up, and its disk.
pub(crate) fn answer_of<D: Disk>(alloc: Global, store: Result<Store<D>, D>) -> (Answer, D) {
    match store {
        Ok(mut store) => {
            let answer = of_answer(verify(alloc, &mut store));
            (answer, store.into_disk())
        }
        Err(disk) => (Answer::Another, disk),
    }
}

/// Whether verifying the archive of these records answers so.
fn is_answered<D: Disk + Drop>(
    alloc: Global,
    disk: D,
    records: &[Record],
    expected: Answer,
) -> bool {
    let disk = holding(disk, journal_of(alloc, records));
    let (answer, _disk) = answer_of(alloc, opened(alloc, disk));
    answer == expected
}

/// The first of these whose answer is another.
fn other(alloc: Global, cases: &[Case]) -> Option<&'static str> {
    for (what, records, expected) in cases {
        if !is_answered(alloc, MemDisk::new(alloc), records, *expected) {
            return Some(*what);
        }
    }
    None
}

#[test]
fn archives_and_their_first_mismatches(rt: HostRuntime) -> Result<(), Fail> {
    none_other(other(rt.alloc(), cases()))
}
