// What a crash leaves of a fill that is installed, at each moment and of each kind, on a disk that works and on one that fails at any of its calls: an
// archive of the rows, whose interval is filled where the gate of the fill's record is open, and else late.
use crate::calls::{Call, are_answered};
use crate::faults::failing_behind;
use crate::parts::{InMemory, created, none_other};
use crate::plans::Over;
use crate::steps::{Step, other_of_opened, other_step};
use arch_disk::{Crash, Disk};
use arch_types::inserted::{Inserted, Installed};
use archive_store::Store;
use std::alloc::Global;
use std::test::Fail;

/// A fill of interval 0, and what is seen before it and behind it.
#[derive(Clone, Copy)]
struct Case {
    before: &'static [Step],
    fill: &'static [Call],
    late: &'static [Step],
    filled: &'static [Step],
}

/// The first fill of two packets.
const FIRST: Case = Case {
    before: &[Step::Calls(&[
        Call::Ingest((0, 0), Inserted::New(0)),
        Call::Ingest((1, 0), Inserted::New(1)),
    ])],
    fill: &[Call::Fill((0, 2, &[0, 1]), Ok(Installed::Done))],
    late: &[Step::Calls(&[
        Call::Late(0, true),
        Call::NoSet(0),
        Call::Plan(0, 2_000, 2, &[Over::Rows(0, &[0, 1])]),
    ])],
    filled: &[Step::Calls(&[
        Call::Late(0, false),
        Call::Set(0, 1, &[42, 7]),
        Call::Plan(0, 2_000, 2, &[Over::Set(0)]),
    ])],
};

/// One in place of another, between the fills of another interval and a packet that came late.
const ANEW: Case = Case {
    before: &[Step::Calls(&[
        Call::Ingest((0, 0), Inserted::New(0)),
        Call::Ingest((7, 0), Inserted::New(1)),
        Call::Fill((0, 2, &[0]), Ok(Installed::Done)),
        Call::Fill((1, 2, &[7]), Ok(Installed::Done)),
        Call::Ingest((1, 0), Inserted::New(2)),
    ])],
    fill: &[Call::Fill((0, 3, &[0, 1]), Ok(Installed::Done))],
    late: &[Step::Calls(&[
        Call::Late(0, true),
        Call::NoSet(0),
        Call::Set(1, 1, &[5]),
        Call::Plan(0, 9_000_000, 3, &[Over::Rows(0, &[0, 1]), Over::Set(1)]),
    ])],
    filled: &[Step::Calls(&[
        Call::Late(0, false),
        Call::Set(0, 1, &[42, 7]),
        Call::Set(1, 1, &[5]),
        Call::Plan(0, 9_000_000, 3, &[Over::Set(0), Over::Set(1)]),
    ])],
};

/// They are functions, so that they stand in no goal of their callers.
fn first() -> Case {
    FIRST
}

fn anew() -> Case {
    ANEW
}

const REOPEN: &[Call] = &[Call::Reopen];

/// What is done with the archive: `f` the fill and `r` a reopen. Where one call fails, or two do, the last fill is there.
const CALLS: &[u8] = b"ffrrfr";

impl Case {
    /// What is seen where the interval is filled or late.
    fn seen(&self, is_filled: bool) -> &'static [Step] {
        if is_filled { self.filled } else { self.late }
    }

    /// The call of a letter.
    fn call(&self, letter: u8) -> &'static [Call] {
        if letter == b'f' { self.fill } else { REOPEN }
    }
}

/// How many images were seen of each kind.
#[derive(Clone, Copy, Debug, PartialEq, Eq)]
struct Images {
    late: u64,
    filled: u64,
    /// Those that are neither, as their gate says.
    wrong: u64,
}

/// Before any.
const NO_IMAGES: Images = Images {
    late: 0,
    filled: 0,
    wrong: 0,
};

/// One image more: late or filled, or neither.
fn with_image(images: Images, found: Option<bool>) -> Images {
    let mut images = images;
    match found {
        Some(true) => images.filled = images.filled.saturating_add(1),
        Some(false) => images.late = images.late.saturating_add(1),
        None => images.wrong = images.wrong.saturating_add(1),
    }
    images
}

/// Whether an image is filled, where it is as its gate says.
fn found_in<D: InMemory>(alloc: Global, image: D, case: &Case, gate: usize) -> Option<bool> {
    let is_filled = image.is_open(gate);
    match other_of_opened(alloc, image, case.seen(is_filled)) {
        None => Some(is_filled),
        Some(_) => None,
    }
}

/// The same of what a crash leaves of a disk.
fn found_behind<D: InMemory>(
    alloc: Global,
    disk: &D,
    case: &Case,
    gate: usize,
    moment: usize,
    crash: Crash,
) -> Option<bool> {
    let image = disk.image(moment, crash)?;
    found_in(alloc, image, case, gate)
}

/// The images of a moment beside others, one for each kind of crash.
fn images_of<D: InMemory>(
    alloc: Global,
    disk: &D,
    case: &Case,
    gate: usize,
    moment: usize,
    images: Images,
) -> Images {
    let mut images = images;
    for crash in Crash::ALL {
        let found = found_behind(alloc, disk, case, gate, moment, crash);
        images = with_image(images, found);
    }
    images
}

/// The same of each moment behind the first `from` kept calls.
fn images_since<D: InMemory>(
    alloc: Global,
    disk: &D,
    case: &Case,
    gate: usize,
    from: usize,
) -> Images {
    let mut images = NO_IMAGES;
    for moment in from..disk.kept() {
        images = images_of(alloc, disk, case, gate, moment + 1, images);
    }
    images
}

/// Makes the calls of a case.
fn make_calls<D: Disk>(alloc: Global, store: &mut Store<D>, case: &Case) {
    for letter in CALLS {
        let _ = are_answered(alloc, store, case.call(*letter));
    }
}

/// Whether images are as their gates say, some late and some filled.
fn are_right(images: &Images) -> bool {
    images.wrong == 0 && images.late > 0 && images.filled > 0
}

/// Whether the images of all moments of a case are, and the interval is filled in the end. The gate that ends file 0 before the fill is that of its record.
fn goes_so<D: InMemory>(alloc: Global, store: &mut Store<D>, case: &Case) -> bool {
    let _ = other_step(alloc, store, case.before);
    let from = store.disk().kept();
    let gate = store.disk().octets().saturating_sub(1);
    make_calls(alloc, store, case);
    let images = images_since(alloc, store.disk(), case, gate, from);
    other_step(alloc, store, case.seen(true)).is_none() && are_right(&images)
}

/// The same of a new archive, which is given up, and the disk too.
fn goes_so_on<D: InMemory>(alloc: Global, disk: D, case: &Case) -> bool {
    match created(alloc, disk) {
        Ok(mut store) => {
            let is_so = goes_so(alloc, &mut store, case);
            let _ = store.into_disk();
            is_so
        }
        Err(_) => false,
    }
}

/// The same on a disk whose calls of these numbers fail, counted from the fill.
fn is_right(alloc: Global, case: &Case, failing: &[u64]) -> bool {
    match failing_behind(alloc, case.before, failing) {
        Some(disk) => goes_so_on(alloc, disk, case),
        None => false,
    }
}

/// The same where a call fails, alone and with the one that follows it.
fn are_right_behind(alloc: Global, case: &Case, call: u64) -> bool {
    is_right(alloc, case, &[call]) && is_right(alloc, case, &[call, call.saturating_add(1)])
}

/// The same where no call fails, and where each does in turn: of the fill, of the reopens behind it, and of the fill behind those. Gives the first call
/// of which it isn't so.
fn wrong_call(alloc: Global, case: &Case) -> Option<u64> {
    if !is_right(alloc, case, &[]) {
        return Some(0);
    }
    for call in 1..10u64 {
        if !are_right_behind(alloc, case, call) {
            return Some(call);
        }
    }
    None
}

#[test]
fn images_of_a_first_fill(rt: HostRuntime) -> Result<(), Fail> {
    none_other(wrong_call(rt.alloc(), &first()))
}

#[test]
fn images_of_a_fill_in_place_of_another(rt: HostRuntime) -> Result<(), Fail> {
    none_other(wrong_call(rt.alloc(), &anew()))
}
