//! Archives of made packets.

use crate::calls::none_other;
use crate::in_a_row::{CREATE, Call, other_on};
use arch_disk::MemDisk;
use std::test::Fail;

const MADE: &[Call] = &[
    ("make 4294967296", (1, "", "usage", None)),
    ("verify", (1, "", "no archive", None)),
    (
        "make 7",
        (
            0,
            "make 7 packets 40000 rows 30800 duplicates 9200 intervals 15 late 0\ncells apid 30800\ncells temp 15400\ncells level 15400\n\
             histogram HK 1704067200000 1704128758000 15400\nhistogram SCI 1704067240000 1704128798000 15400\n\
             sound rows 30800 intervals 15 late 0\n",
            "",
            Some((0, 30_800)),
        ),
    ),
    ("make 7", (1, "", "archive exists", None)),
    (CREATE, (1, "", "archive exists", None)),
    (
        "recover",
        (
            0,
            "recovered rows 30800 filled 0\n",
            "",
            Some((30_800, 30_800)),
        ),
    ),
    (
        "verify",
        (
            0,
            "sound rows 30800 intervals 15 late 0\n",
            "",
            Some((30_800, 30_800)),
        ),
    ),
];

/// A function, so that the table stands in no goal of its callers.
fn made() -> &'static [Call] {
    MADE
}

#[test]
fn makes_an_archive(rt: HostRuntime) -> Result<(), Fail> {
    none_other(other_on(&rt, rt.alloc(), MemDisk::new(rt.alloc()), made()))
}
