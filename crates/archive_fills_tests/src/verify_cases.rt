// Archives, and what verifying them answers. Their rows are of the packets of `parts`: two of 1,500 ms, of which `apid` is 100 and 101 and `v` 42 and 7,
// and packet 10, of which `apid` is 100.
use crate::verify_journals::Record;

/// What verifying an archive answers.
#[derive(Clone, Copy, PartialEq, Eq)]
pub(crate) enum Answer {
    /// Rows, intervals with rows of `tm`, and late ones.
    Sound(u64, u64, u64),
    /// The interval, the parameter's name, the key, and the raw numbers that are stored and that rows give.
    Mismatch(i64, &'static str, (i64, u32), Option<i128>, Option<i128>),
    /// Anything else.
    Another,
}

/// What it is, the archive, and the answer.
pub(crate) type Case = (&'static str, &'static [Record], Answer);

/// The keys of the packets: two in interval 0, and the third received at 9,000 ms, in interval 0 too.
const FIRST: (i64, u32) = (1500, 140_820_480);

const SECOND: (i64, u32) = (1500, 140_886_016);

const SHORT: (i64, u32) = (9000, 6_602_753);

const CASES: &[Case] = &[
    ("no row", &[], Answer::Sound(0, 0, 0)),
    ("no fill", &[Record::Row(9000, 0)], Answer::Sound(1, 1, 1)),
    (
        "a fill that is right",
        &[
            Record::Row(9000, 0),
            Record::Fill(0, 1, &[(FIRST, &[100, 42])]),
        ],
        Answer::Sound(1, 1, 0),
    ),
    (
        "43 for 42",
        &[
            Record::Row(9000, 0),
            Record::Fill(0, 1, &[(FIRST, &[100, 43])]),
        ],
        Answer::Mismatch(0, "v", FIRST, Some(43), Some(42)),
    ),
    (
        "no value stored where rows give one",
        &[Record::Row(9000, 0), Record::Fill(0, 1, &[(FIRST, &[100])])],
        Answer::Mismatch(0, "v", FIRST, None, Some(42)),
    ),
    (
        "a value stored where rows give none",
        &[
            Record::Row(9000, 10),
            Record::Fill(0, 1, &[(SHORT, &[100, 5])]),
        ],
        Answer::Mismatch(0, "v", SHORT, Some(5), None),
    ),
    (
        "the least parameter: an empty set",
        &[Record::Row(9000, 0), Record::Fill(0, 1, &[])],
        Answer::Mismatch(0, "apid", FIRST, None, Some(100)),
    ),
    (
        "the least key: both values of v are other than the rows give",
        &[
            Record::Row(9000, 0),
            Record::Row(9000, 1),
            Record::Fill(0, 2, &[(FIRST, &[100, 41]), (SECOND, &[101])]),
        ],
        Answer::Mismatch(0, "v", FIRST, Some(41), Some(42)),
    ),
    (
        "a higher key: the first value of v is right",
        &[
            Record::Row(9000, 0),
            Record::Row(9000, 1),
            Record::Fill(0, 2, &[(FIRST, &[100, 42]), (SECOND, &[101])]),
        ],
        Answer::Mismatch(0, "v", SECOND, None, Some(7)),
    ),
    (
        "the least interval: one behind it differs in a lower parameter",
        &[
            Record::Row(9000, 0),
            Record::Row(4_200_000, 10),
            Record::Fill(1, 2, &[]),
            Record::Fill(0, 1, &[(FIRST, &[100, 43])]),
        ],
        Answer::Mismatch(0, "v", FIRST, Some(43), Some(42)),
    ),
    (
        "a late interval isn't compared",
        &[
            Record::Row(9000, 0),
            Record::Fill(0, 1, &[(FIRST, &[100, 43])]),
            Record::Row(9000, 1),
        ],
        Answer::Sound(2, 1, 1),
    ),
    (
        "the last fill stands for an interval",
        &[
            Record::Row(9000, 0),
            Record::Fill(0, 1, &[(FIRST, &[100, 43])]),
            Record::Fill(0, 1, &[(FIRST, &[100, 42])]),
        ],
        Answer::Sound(1, 1, 0),
    ),
];

/// A function, so that they stand in no goal of its callers.
pub(crate) fn cases() -> &'static [Case] {
    CASES
}
