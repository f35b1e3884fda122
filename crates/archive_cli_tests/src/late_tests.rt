//! Packets that come late, and archives with rows that no fill has seen: what `load` and `recover` fill, what `verify` finds, and that a query answers
//! the same before a fill and behind it. Also a fill that doesn't hold what its rows give, which is answered until a row makes it late.

use crate::archive_tests::{loaded, routed};
use crate::calls::{Wanted, none_other_of};
use crate::in_a_row::{CREATE, CREATED, Call, Overwritten, other_overwritten};
use std::test::Fail;

const AT_TWO: &str = "ask 1 front 2\ncell 1500 140886016 7 7\nend 1\n";

const AT_FOUR: &str = "ask 1 front 4\ncell 1500 140951552 8 8\nend 1\n";

/// Loads leave no interval late, where a packet of an interval that is filled comes, of another one, or before octets that are no packet.
const LATE_PACKETS: &[Call] = &[
    (CREATE, (0, CREATED, "", Some((0, 0)))),
    (
        "recover",
        (0, "recovered rows 0 filled 0\n", "", Some((0, 0))),
    ),
    (
        "load twice",
        (
            0,
            "load packets 3 new 2 duplicates 1 idle 0 rows 2\n",
            "",
            Some((0, 2)),
        ),
    ),
    (
        "verify",
        (0, "sound rows 2 intervals 1 late 0\n", "", Some((2, 2))),
    ),
    ("query --ask asks", (0, AT_TWO, "", Some((2, 2)))),
    (
        "load later",
        (
            0,
            "load packets 1 new 1 duplicates 0 idle 0 rows 3\n",
            "",
            Some((2, 3)),
        ),
    ),
    (
        "verify",
        (0, "sound rows 3 intervals 2 late 0\n", "", Some((3, 3))),
    ),
    (
        "load third",
        (
            0,
            "load packets 1 new 1 duplicates 0 idle 0 rows 4\n",
            "",
            Some((3, 4)),
        ),
    ),
    (
        "recover",
        (0, "recovered rows 4 filled 0\n", "", Some((4, 4))),
    ),
    (
        "verify",
        (0, "sound rows 4 intervals 2 late 0\n", "", Some((4, 4))),
    ),
    ("query --ask asks", (0, AT_FOUR, "", Some((4, 4)))),
    (
        "load late_broken",
        (2, "", "bad packet at 26: version", Some((4, 6))),
    ),
    (
        "verify",
        (0, "sound rows 6 intervals 3 late 0\n", "", Some((6, 6))),
    ),
    (
        "recover",
        (0, "recovered rows 6 filled 0\n", "", Some((6, 6))),
    ),
];

/// A function, as each table below is, so that they stand in no goal of its callers.
pub(crate) fn late_packets() -> &'static [Call] {
    LATE_PACKETS
}

/// The record of three packets of table 0, received at 9 s by link 1, two at 1.5 s and one in the interval behind, and a closed gate.
const THREE_ROWS: &[u8] =
    b"\x01\x00\x00\x00\x4E\x02\x00\x03\x00\x00\x00\x00\x00\x00\x00\x23\x28\x01\x00\x00\x08\x64\xC0\x00\x00\x06\x00\x00\x00\x01\x80\x00\x2A\x00\x00\x00\x00\x00\x00\x00\x23\x28\x01\x00\x00\x08\x65\xC0\x00\x00\x06\x00\x00\x00\x01\x80\x00\x07\x00\x00\x00\x00\x00\x00\x00\x23\x28\x01\x00\x00\x08\x64\xC0\x00\x00\x06\x00\x00\x13\x88\x00\x00\x05\x00";

const CREATION: &[Call] = &[(CREATE, (0, CREATED, "", Some((0, 0))))];

const AT_THREE: &str = "ask 1 front 3\ncell 1500 140886016 7 7\nend 1\n";

const SELECTED: &str = "140820480\n140886016\n140820480\nselect 3\n";

/// What an archive of these answers whose fills are wanting: the same before `recover` and behind it.
const UNFILLED: &[Call] = &[
    (
        "verify",
        (0, "sound rows 3 intervals 2 late 2\n", "", Some((3, 3))),
    ),
    ("query --ask asks", (0, AT_THREE, "", Some((3, 3)))),
    ("query --sql script", (0, SELECTED, "", Some((3, 3)))),
    (
        "recover",
        (0, "recovered rows 3 filled 2\n", "", Some((3, 3))),
    ),
    (
        "verify",
        (0, "sound rows 3 intervals 2 late 0\n", "", Some((3, 3))),
    ),
    ("query --ask asks", (0, AT_THREE, "", Some((3, 3)))),
    ("query --sql script", (0, SELECTED, "", Some((3, 3)))),
    (
        "recover",
        (0, "recovered rows 3 filled 0\n", "", Some((3, 3))),
    ),
];

/// A load without a new packet fills it too.
const LOADED_AGAIN: &[Call] = &[
    (
        "load --ask asks twice",
        (
            0,
            "ask 1 front 3\ncell 1500 140886016 7 7\nend 1\nload packets 3 new 0 duplicates 3 idle 0 rows 3\n",
            "",
            Some((3, 3)),
        ),
    ),
    (
        "verify",
        (0, "sound rows 3 intervals 2 late 0\n", "", Some((3, 3))),
    ),
    ("query --ask asks", (0, AT_THREE, "", Some((3, 3)))),
];

/// Neither an ask that is refused nor a link that there isn't fills anything.
const REFUSED_FIRST: &[Call] = &[
    (
        "load --ask unknown twice",
        (1, "", "unknown parameter", Some((3, 3))),
    ),
    (
        "load --link 256 twice",
        (2, "", "limit Links 255", Some((3, 3))),
    ),
    (
        "query --ask unknown",
        (1, "", "unknown parameter", Some((3, 3))),
    ),
    (
        "verify",
        (0, "sound rows 3 intervals 2 late 2\n", "", Some((3, 3))),
    ),
];

const ONE_PACKET: &[Call] = &[
    (CREATE, (0, CREATED, "", Some((0, 0)))),
    (
        "load third",
        (
            0,
            "load packets 1 new 1 duplicates 0 idle 0 rows 1\n",
            "",
            Some((0, 1)),
        ),
    ),
    (
        "query --ask asks",
        (
            0,
            "ask 1 front 1\ncell 1500 140951552 8 8\nend 1\n",
            "",
            Some((1, 1)),
        ),
    ),
];

/// The fill of its interval has 43 for 8. It is answered and not filled anew, until a packet comes to the interval.
const WRONG_VALUE: &[Call] = &[
    ("verify", (6, "", "mismatch in interval 0", Some((1, 1)))),
    (
        "query --ask asks",
        (
            0,
            "ask 1 front 1\ncell 1500 140951552 43 43\nend 1\n",
            "",
            Some((1, 1)),
        ),
    ),
    (
        "recover",
        (0, "recovered rows 1 filled 0\n", "", Some((1, 1))),
    ),
    (
        "load third",
        (
            0,
            "load packets 1 new 0 duplicates 1 idle 0 rows 1\n",
            "",
            Some((1, 1)),
        ),
    ),
    ("verify", (6, "", "mismatch in interval 0", Some((1, 1)))),
    (
        "load twice",
        (
            0,
            "load packets 3 new 2 duplicates 1 idle 0 rows 3\n",
            "",
            Some((1, 3)),
        ),
    ),
    (
        "verify",
        (0, "sound rows 3 intervals 1 late 0\n", "", Some((3, 3))),
    ),
    (
        "query --ask asks",
        (
            0,
            "ask 1 front 3\ncell 1500 140951552 8 8\nend 1\n",
            "",
            Some((3, 3)),
        ),
    ),
];

const RECOVERED_THREE: &[Call] = &[
    (
        "recover",
        (0, "recovered rows 3 filled 0\n", "", Some((3, 3))),
    ),
    (
        "verify",
        (0, "sound rows 3 intervals 1 late 0\n", "", Some((3, 3))),
    ),
];

/// A record behind which the file ends: a fill of interval 0 over two items, whose set has no segment.
const EMPTY_FILL: &[u8] =
    b"\x01\x00\x00\x00\x15\x03\x00\x00\x00\x00\x00\x00\x00\x00\x00\x00\x00\x00\x00\x00\x00\x02\x00\x00\x00\x00\x00";

/// A record behind which the file ends: the first packet in `tm`, received at 9 s by link 1.
const ONE_ROW: &[u8] =
    b"\x01\x00\x00\x00\x1C\x02\x00\x01\x00\x00\x00\x00\x00\x00\x00\x23\x28\x01\x00\x00\x08\x64\xC0\x00\x00\x06\x00\x00\x00\x01\x80\x00\x2A\x00";

const ONE_CELL: Wanted = (
    0,
    "ask 1 front 1\ncell 1500 140820480 42 42\nend 1\n",
    "",
    Some((1, 1)),
);

/// Calls on an archive of that row.
const OVER_THE_ROW: &[Call] = &[
    ("query --ask asks", ONE_CELL),
    (
        "verify",
        (0, "sound rows 1 intervals 1 late 1\n", "", Some((1, 1))),
    ),
    (
        "recover",
        (0, "recovered rows 1 filled 1\n", "", Some((1, 1))),
    ),
    ("query --ask asks", ONE_CELL),
    (
        "verify",
        (0, "sound rows 1 intervals 1 late 0\n", "", Some((1, 1))),
    ),
    (
        "recover",
        (0, "recovered rows 1 filled 0\n", "", Some((1, 1))),
    ),
];

/// Calls on an archive of two rows in interval 0 and that fill of it; the load's row is in that interval too.
const OVER_THE_FILL: &[Call] = &[
    (
        "query --ask asks",
        (0, "ask 1 front 2\nend 0\n", "", Some((2, 2))),
    ),
    ("verify", (6, "", "mismatch in interval 0", Some((2, 2)))),
    (
        "recover",
        (0, "recovered rows 2 filled 0\n", "", Some((2, 2))),
    ),
    (
        "load third",
        (
            0,
            "load packets 1 new 1 duplicates 0 idle 0 rows 3\n",
            "",
            Some((2, 3)),
        ),
    ),
    (
        "query --ask asks",
        (
            0,
            "ask 1 front 3\ncell 1500 140951552 8 8\nend 1\n",
            "",
            Some((3, 3)),
        ),
    ),
    (
        "verify",
        (0, "sound rows 3 intervals 1 late 0\n", "", Some((3, 3))),
    ),
];

const RECOVERED: &[Call] = &[(
    "recover",
    (0, "recovered rows 2 filled 0\n", "", Some((2, 2))),
)];

fn creation() -> &'static [Call] {
    CREATION
}

fn unfilled_calls() -> &'static [Call] {
    UNFILLED
}

fn loaded_again() -> &'static [Call] {
    LOADED_AGAIN
}

fn refused_first() -> &'static [Call] {
    REFUSED_FIRST
}

fn one_packet() -> &'static [Call] {
    ONE_PACKET
}

fn wrong_value() -> &'static [Call] {
    WRONG_VALUE
}

fn recovered_three() -> &'static [Call] {
    RECOVERED_THREE
}

fn over_the_row() -> &'static [Call] {
    OVER_THE_ROW
}

fn over_the_fill() -> &'static [Call] {
    OVER_THE_FILL
}

fn recovered() -> &'static [Call] {
    RECOVERED
}

fn three_rows() -> &'static [u8] {
    THREE_ROWS
}

fn empty_fill() -> &'static [u8] {
    EMPTY_FILL
}

fn one_row() -> &'static [u8] {
    ONE_ROW
}

/// An archive without fills, whose rows came as they stand in a record.
pub(crate) fn unfilled() -> Overwritten {
    (
        "an archive without fills",
        creation(),
        1,
        three_rows(),
        unfilled_calls(),
    )
}

/// Any gate but 1 is closed. The record of a fill ends with the octet of `v`, and a closed gate stands behind it.
fn cases() -> [Overwritten; 8] {
    [
        (
            "what an append may leave",
            loaded(),
            1,
            b"\x07 left over",
            recovered(),
        ),
        unfilled(),
        (
            "a load into an archive without fills",
            creation(),
            1,
            three_rows(),
            loaded_again(),
        ),
        (
            "what is refused there",
            creation(),
            1,
            three_rows(),
            refused_first(),
        ),
        (
            "a fill with another value",
            one_packet(),
            2,
            &[43],
            wrong_value(),
        ),
        ("another closed gate", routed(), 1, &[7], recovered_three()),
        (
            "a fill that holds nothing",
            loaded(),
            1,
            empty_fill(),
            over_the_fill(),
        ),
        (
            "a row without a fill",
            creation(),
            1,
            one_row(),
            over_the_row(),
        ),
    ]
}

#[test]
fn octets_over_the_end_of_an_archive(rt: HostRuntime) -> Result<(), Fail> {
    none_other_of(other_overwritten(&rt, rt.alloc(), &cases()))
}
