// What plans over ranges have of late intervals, and why there is no plan.
use crate::calls::Call;
use crate::parts::{created, none_other};
use crate::plans::{Over, request};
use crate::steps::{Step, other_step};
use arch_disk::{Disk, MemDisk};
use arch_types::inserted::Inserted;
use archive_store::Store;
use refusals::Refusal;
use std::alloc::Global;
use std::test::Fail;

/// Packets of three intervals, which come out of order. Some come into both tables, one of interval 1 into the second
/// alone. A plan has all packets of `tm` of each interval that its range meets.
const PLANS: &[Step] = &[Step::Calls(&[
    Call::Plan(0, 10_000_000, 0, &[]),
    Call::Ingest((1, 0), Inserted::New(0)),
    Call::Ingest((1, 1), Inserted::New(1)),
    Call::Ingest((0, 1), Inserted::New(2)),
    Call::Ingest((0, 0), Inserted::New(3)),
    Call::Ingest((9, 1), Inserted::New(4)),
    Call::Ingest((9, 0), Inserted::New(5)),
    Call::Ingest((8, 0), Inserted::New(6)),
    Call::Ingest((7, 0), Inserted::New(7)),
    Call::Ingest((6, 1), Inserted::New(8)),
    Call::Plan(
        0,
        10_000_000,
        9,
        &[
            Over::Rows(0, &[0, 1]),
            Over::Rows(1, &[7, 8]),
            Over::Rows(2, &[9]),
        ],
    ),
    Call::Plan(1_500, 1_501, 9, &[Over::Rows(0, &[0, 1])]),
    Call::Plan(
        1_501,
        9_000_000,
        9,
        &[
            Over::Rows(0, &[0, 1]),
            Over::Rows(1, &[7, 8]),
            Over::Rows(2, &[9]),
        ],
    ),
    Call::Plan(4_194_303, 4_194_304, 9, &[Over::Rows(0, &[0, 1])]),
    Call::Plan(4_194_304, 4_194_305, 9, &[Over::Rows(1, &[7, 8])]),
    Call::Plan(5_000_000, 5_000_000, 9, &[]),
])];

/// A function, so that they stand in no goal of its callers.
fn plans() -> &'static [Step] {
    PLANS
}

/// A parameter and a range, and what a plan of them answers.
type Answered = (&'static [u8], i64, i64, &'static str);

const ANSWERED: &[Answered] = &[
    (b"zz", 5, 4, "unknown parameter"),
    (b"v", 5, 4, "bad range 5 4"),
    (b"v", 4, 4, "a plan"),
];

/// A function, as above.
fn answered() -> &'static [Answered] {
    ANSWERED
}

/// The refusals of these.
fn words_of(refusal: &Refusal) -> &'static str {
    match refusal {
        Refusal::UnknownParameter => "unknown parameter",
        Refusal::BadRange { from: 5, to: 4 } => "bad range 5 4",
        _ => "another",
    }
}

/// What a plan of a parameter over a range answers.
fn plan_answer<D: Disk>(
    alloc: Global,
    store: &mut Store<D>,
    parameter: &[u8],
    from: i64,
    to: i64,
) -> &'static str {
    let Some(request) = request(alloc, parameter, from, to) else {
        return "no request";
    };
    let found = match store.find(request) {
        Ok(found) => found,
        Err(refusal) => return words_of(&refusal),
    };
    match store.plan(alloc, &found) {
        Ok(_plan) => "a plan",
        Err(_) => "no memory",
    }
}

/// The answer of the first of these that is another.
fn other_answer<D: Disk>(
    alloc: Global,
    store: &mut Store<D>,
    all: &[Answered],
) -> Option<&'static str> {
    for (parameter, from, to, expected) in all {
        let answer = plan_answer(alloc, store, parameter, *from, *to);
        if answer != *expected {
            return Some(answer);
        }
    }
    None
}

/// What goes otherwise in an archive.
fn other_of<D: Disk>(alloc: Global, store: &mut Store<D>) -> Option<&'static str> {
    if other_step(alloc, store, plans()).is_some() {
        return Some("plans");
    }
    other_answer(alloc, store, answered())
}

/// The same of a new archive, and its disk.
fn of_new<D: Disk>(alloc: Global, disk: D) -> (Option<&'static str>, D) {
    match created(alloc, disk) {
        Ok(mut store) => {
            let other = other_of(alloc, &mut store);
            (other, store.into_disk())
        }
        Err(disk) => (Some("no archive"), disk),
    }
}

/// The same, and the disk is given up.
fn other_of_new<D: Disk + Drop>(alloc: Global, disk: D) -> Option<&'static str> {
    let (other, _disk) = of_new(alloc, disk);
    other
}

#[test]
fn plans_over_ranges(rt: HostRuntime) -> Result<(), Fail> {
    none_other(other_of_new(rt.alloc(), MemDisk::new(rt.alloc())))
}
