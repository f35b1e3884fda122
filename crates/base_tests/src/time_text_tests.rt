//! Vectors from outside: GNU date's seconds and days.

use crate::ends::none_other;
use std::alloc::Global;
use std::test::Fail;
use time_text::{BadTime, day_name, day_octets, day_of, read_time, time_octets, write_time};

const LAST: i64 = 253_402_300_799_999;

/// A text and its milliseconds, with what is written for them again.
type Time = (&'static str, i64, &'static str);

const TIMES: &[Time] = &[
    ("1970-01-01T00:00:01.5Z", 1_500, "1970-01-01T00:00:01.500"),
    ("1970-01-01T00:00:00.05", 50, "1970-01-01T00:00:00.050"),
    ("1970-01-01T00:00:00.005", 5, "1970-01-01T00:00:00.005"),
    ("0", 0, "1970-01-01T00:00:00.000"),
    ("-0", 0, "1970-01-01T00:00:00.000"),
    ("000000000001500", 1_500, "1970-01-01T00:00:01.500"),
    (
        "2024-01-01T00:00:00",
        1_704_067_200_000,
        "2024-01-01T00:00:00.000",
    ),
    (
        "2000-02-29T12:34:56Z",
        951_827_696_000,
        "2000-02-29T12:34:56.000",
    ),
    (
        "2100-02-28T23:59:59.999",
        4_107_542_399_999,
        "2100-02-28T23:59:59.999",
    ),
    (
        "2100-03-01T00:00:00",
        4_107_542_400_000,
        "2100-03-01T00:00:00.000",
    ),
    (
        "2400-02-29T00:00:00",
        13_574_563_200_000,
        "2400-02-29T00:00:00.000",
    ),
    ("9999-12-31T23:59:59.999Z", LAST, "9999-12-31T23:59:59.999"),
];

/// They are functions, as the tables below, so that they stand in no goal of their callers.
fn times() -> &'static [Time] {
    TIMES
}

/// Texts that are no time texts.
const BAD: &[&str] = &[
    "",
    "-",
    "+5",
    "1500Z",
    "15.5",
    "1000000000000000",
    "1970-02-30T00:00:00",
    "2100-02-29T00:00:00",
    "2023-02-29T00:00:00",
    "2024-13-01T00:00:00",
    "2024-00-01T00:00:00",
    "2024-01-00T00:00:00",
    "1969-12-31T23:59:59",
    "2016-12-31T23:59:60",
    "2024-01-01T24:00:00",
    "2024-01-01T00:60:00",
    "2024-01-01T00:00:00.",
    "2024-01-01T00:00:00.0000",
    "2024-01-01T00:00:00z",
    "2024-01-01 00:00:00",
];

fn bad() -> &'static [&'static str] {
    BAD
}

fn is_read(text: &str, want: i64) -> bool {
    read_time(text) == Ok(want)
}

fn is_written(alloc: Global, time: i64, text: &[u8]) -> bool {
    if time < 0 || time > LAST {
        return false;
    }
    match write_time(alloc, time) {
        Ok(octets) => octets.as_slice() == text && time_octets(time).as_slice() == text,
        Err(_) => false,
    }
}

/// The first of these texts that is read or written otherwise.
fn other_time(alloc: Global, times: &[Time]) -> Option<&'static str> {
    for (text, time, written) in times {
        if !is_read(text, *time) || !is_written(alloc, *time, written.as_bytes()) {
            return Some(*text);
        }
    }
    None
}

/// The first of these texts that is read.
fn other_bad(texts: &[&'static str]) -> Option<&'static str> {
    for text in texts {
        if read_time(text) != Err(BadTime) {
            return Some(*text);
        }
    }
    None
}

/// A time before the first that is written.
fn other_early() -> Option<&'static str> {
    if is_read("-1500", -1_500) {
        None
    } else {
        Some("-1500")
    }
}

#[test]
fn texts_of_times(rt: HostRuntime) -> Result<(), Fail> {
    none_other(
        other_time(rt.alloc(), times())
            .or(other_bad(bad()))
            .or(other_early()),
    )
}

/// Times, and their days.
const DAYS: &[(i64, i64)] = &[
    (0, 0),
    (86_399_999, 0),
    (86_400_000, 1),
    (-1, -1),
    (-86_400_000, -1),
];

fn days() -> &'static [(i64, i64)] {
    DAYS
}

/// The first of these times whose day is another.
fn other_day(days: &[(i64, i64)]) -> Option<i64> {
    for (time, day) in days {
        if day_of(*time) != *day {
            return Some(*time);
        }
    }
    None
}

#[test]
fn days_of_times() -> Result<(), Fail> {
    none_other(other_day(days()))
}

/// Days, and their names.
const NAMES: &[(i64, &str)] = &[
    (0, "1970/001"),
    (364, "1970/365"),
    (19_723, "2024/001"),
    (20_088, "2024/366"),
    (2_932_896, "9999/365"),
];

fn names() -> &'static [(i64, &'static str)] {
    NAMES
}

fn is_named(alloc: Global, day: i64, text: &[u8]) -> bool {
    if day < 0 || day > 2_932_896 {
        return false;
    }
    match day_name(alloc, day) {
        Ok(name) => name.as_slice() == text && day_octets(day).as_slice() == text,
        Err(_) => false,
    }
}

/// The first of these days that has another name.
fn other_name(alloc: Global, names: &[(i64, &str)]) -> Option<i64> {
    for (day, name) in names {
        if !is_named(alloc, *day, name.as_bytes()) {
            return Some(*day);
        }
    }
    None
}

#[test]
fn names_of_days(rt: HostRuntime) -> Result<(), Fail> {
    none_other(other_name(rt.alloc(), names()))
}
