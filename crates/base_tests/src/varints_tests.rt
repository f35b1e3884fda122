//! Varints of one to nine octets, read in one word: the least and the greatest of each length, the same once more and with another octet,
//! what ends needlessly, and others beside a reader that takes one octet after the other.

use crate::ends::{Check, none_other, other};
use std::alloc::{AllocError, Global};
use std::test::Fail;
use varints::{Spelling, put_word, varint_at, word_at};

/// A length, and the least and the greatest number that take so many octets.
const LENGTHS: [(usize, u64, u64); 9] = [
    (1, 0, (1 << 7) - 1),
    (2, 1 << 7, (1 << 14) - 1),
    (3, 1 << 14, (1 << 21) - 1),
    (4, 1 << 21, (1 << 28) - 1),
    (5, 1 << 28, (1 << 35) - 1),
    (6, 1 << 35, (1 << 42) - 1),
    (7, 1 << 42, (1 << 49) - 1),
    (8, 1 << 49, (1 << 56) - 1),
    (9, 1 << 56, (1 << 63) - 1),
];

/// Whether a number takes so many octets, and is read in one word where they are no more than eight, whatever stands behind them.
fn is_read(alloc: Global, n: u64, length: usize) -> Result<bool, AllocError> {
    for behind in [0u8, 1, 127, 128, 255] {
        let mut out = Vec::new(alloc);
        put_word(&mut out, n)?;
        let is_so_long = out.len() == length;
        out.extend_from_slice(&[behind; 9])?;
        let is_same = match word_at(&out) {
            Ok((m, rest)) => length <= 8 && m == n && rest == [behind; 9].as_slice(),
            Err(_) => length > 8,
        };
        if !is_so_long || !is_same {
            return Ok(false);
        }
    }
    Ok(true)
}

/// Whether the least and the greatest number of each length are.
fn are_read(alloc: Global) -> Result<bool, AllocError> {
    for (length, least, greatest) in LENGTHS {
        if !is_read(alloc, least, length)? || !is_read(alloc, greatest, length)? {
            return Ok(false);
        }
    }
    Ok(true)
}

/// Whether none is read that ends with a needless zero, of any length.
fn are_refused(first: u8) -> bool {
    let mut octets = [255u8; 17];
    for i in 0..8usize {
        octets[i] = first;
        octets[i + 1] = 0;
        if word_at(&octets).is_ok() || varint_at(&octets).is_ok() {
            return false;
        }
    }
    true
}

/// Whether what's found behind a spelling is what's found of octets alone.
fn is_next(spelling: Spelling, octets: &[u8]) -> bool {
    match (spelling.next_at(octets), word_at(octets)) {
        (Ok((found, rest)), Ok((n, behind))) => found.number == n && rest == behind,
        (Err(_), Ok((n, _))) => n == 0,
        (Ok(_), Err(_)) => false,
        (Err(_), Err(_)) => true,
    }
}

/// Whether that is so where one octet is another.
fn is_next_changed(
    alloc: Global,
    spelling: Spelling,
    octets: &[u8],
    place: usize,
) -> Result<bool, AllocError> {
    let mut changed = Vec::from_slice(alloc, octets)?;
    if place < changed.len() {
        changed[place] ^= 1;
    }
    Ok(is_next(spelling, &changed))
}

/// Whether it's so behind the spelling of a number where that stands once more, and with any octet of it another.
fn is_found(alloc: Global, n: u64, length: usize) -> Result<bool, AllocError> {
    let mut out = Vec::new(alloc);
    put_word(&mut out, n)?;
    out.extend_from_slice(&[255; 8])?;
    let Ok((spelling, _)) = Spelling::of_zero().next_at(&out) else {
        return Ok(length > 8);
    };
    for place in 0..length {
        if !is_next_changed(alloc, spelling, &out, place)? {
            return Ok(false);
        }
    }
    Ok(spelling.number == n && is_next(spelling, &out))
}

/// Whether the spellings of the least and the greatest number of each length are.
fn are_found(alloc: Global) -> Result<bool, AllocError> {
    for (length, least, greatest) in LENGTHS {
        if !is_found(alloc, least, length)? || !is_found(alloc, greatest, length)? {
            return Ok(false);
        }
    }
    Ok(true)
}

/// Whether a spelling is found again where eight octets are left, and not looked for where seven are.
fn is_found_in_eight() -> bool {
    match Spelling::of_zero().next_at(&[5; 9]) {
        Ok((five, rest)) => is_next(five, rest) && is_next(five, &[5; 7]),
        Err(_) => false,
    }
}

/// The number at the front of octets, taken one after the other, and how many it takes.
fn plainly(octets: &[u8; 16]) -> Option<(u64, usize)> {
    let mut value = 0u64;
    for i in 0..8usize {
        let octet = octets[i];
        value |= u64::from(octet & 127) << (7 * i);
        if octet < 128 {
            return if octet == 0 && i > 0 {
                None
            } else {
                Some((value, i + 1))
            };
        }
    }
    None
}

/// Whether octets are read as they are one after the other.
fn is_as_plain(octets: &[u8; 16]) -> bool {
    match (word_at(octets), plainly(octets)) {
        (Ok((n, rest)), Some((m, length))) => n == m
            && 16usize.checked_sub(length) == Some(rest.len()),
        (Err(_), None) => true,
        _ => false,
    }
}

/// The next of numbers that look random.
fn next(n: u64) -> u64 {
    n.wrapping_mul(6_364_136_223_846_793_005)
        .wrapping_add(1_442_695_040_888_963_407)
}

/// Whether octets that look random are, where three of four have the top bit.
fn are_as_plain() -> bool {
    let mut n = 1u64;
    for _ in 0..2_000u32 {
        let mut octets = [0u8; 16];
        for i in 0..16usize {
            n = next(n);
            let octet = (n >> 56) as u8;
            octets[i] = if n >> 40 & 1 == 0 { octet } else { octet | 128 };
        }
        if !is_as_plain(&octets) {
            return false;
        }
    }
    true
}

/// What is looked at of varints in one word.
fn other_words(alloc: Global) -> Result<Option<&'static str>, AllocError> {
    let checks: &[Check] = &[
        ("each length", are_read(alloc)?),
        ("each length once more", are_found(alloc)?),
        ("eight octets left", is_found_in_eight()),
        ("zero behind zero", is_next(Spelling::of_zero(), &[0; 8])),
        (
            "a needless zero",
            is_next(Spelling::of_zero(), &[128, 0, 0, 0, 0, 0, 0, 0]),
        ),
        ("a needless zero behind zeros", are_refused(128)),
        ("a needless zero behind others", are_refused(255)),
        ("no end", word_at(&[255; 16]).is_err()),
        ("octets that look random", are_as_plain()),
    ];
    Ok(other(checks))
}

#[test]
fn varints_in_one_word(rt: HostRuntime) -> Result<(), Fail> {
    let Ok(words) = other_words(rt.alloc()) else {
        return Err(Fail::new("memory"));
    };
    none_other(words)
}
