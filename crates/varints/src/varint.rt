//! Unsigned varints: seven bits an octet from the lowest on. They're written from 64 bits and read in 64 bits, as most
//! numbers have no more.

ghost use Rattle.std.specs.Prelude.{◌≡◌, ◌≤◌, ◌+◌, ◌*◌, ◌^◌, ◌++◌, ◌∷◌, [], length, Some, IfOk, IfSome, OnOk, MatchResult};
ghost use Rattle.octet_fields.specs.Answers.{Answers};
ghost use Rattle.varints.specs.Varint.{short_varint_at, varint};
ghost use Rattle.varints.specs.Words.{ends, fourteens, joined, little_endian, octets_of, sevens};

use octet_fields::Short;
use std::alloc::AllocError;
use std::simd::prelude::*;

/// Adds the varint of a number to a buffer.
pub fn put_varint(out: &mut Vec<u8>, n: u128) -> Result<(), AllocError>
    ensures { OnOk result (out.new.items ≡ out.old.items ++ varint n) }
{
    let mut rest = n;
    while rest >= 0x1_0000_0000_0000_0000 {
        out.push((rest % 128) as u8 + 128)?;
        rest /= 128;
    }
    put_word(out, rest as u64)
}

/// The octets that the varint of a number of 64 bits has at most.
const MOST_OCTETS: usize = 10;

/// Adds the varint of a number of 64 bits to a buffer.
pub fn put_word(out: &mut Vec<u8>, n: u64) -> Result<(), AllocError>
    ensures { OnOk result (out.new.items ≡ out.old.items ++ varint n) }
{
    // room for all octets, so that none asks for more
    out.reserve(MOST_OCTETS)?;
    let mut rest = n;
    while rest >= 128 {
        out.push_reserved((rest % 128) as u8 + 128);
        rest /= 128;
    }
    out.push_reserved(rest as u8);
    Ok(())
}

/// One octet, and the octets after it.
fn octet_at(octets: &[u8]) -> Result<(u8, &[u8]), Short>
    ensures { MatchResult result (λ x. octets.now ≡ x.0 ∷ x.1.now) (λ _. octets.now ≡ []) }
{
    if octets.is_empty() {
        return Err(Short);
    }
    let (front, rest) = octets.split_at(1);
    Ok((front[0], rest))
}

/// The top bit of each of eight octets that ends a varint.
#[inline(always)]
fn ends(word: u64) -> u64
    ensures { result ≡ ends 8 word }
{
    !word & 0x8080_8080_8080_8080
}

/// The lowest seven bits of each 16.
#[inline(always)]
fn sevens(word: u64) -> u64
    ensures { result ≡ sevens word }
{
    word & 0x007f_007f_007f_007f
}

/// The lowest 14 bits of each 32.
#[inline(always)]
fn fourteens(word: u64) -> u64
    ensures { result ≡ fourteens word }
{
    word & 0x0000_3fff_0000_3fff
}

/// The lowest seven bits of each octet, one after the other: of two octets, of four, of eight.
#[inline(always)]
fn joined(word: u64) -> u64
    ensures { result ≡ joined 8 word }
{
    let of_two = sevens(word) + sevens(word / 0x100) * 0x80;
    let of_four = fourteens(of_two) + fourteens(of_two / 0x1_0000) * 0x4000;
    of_four % 0x1_0000_0000 + of_four / 0x1_0000_0000 * 0x1000_0000
}

/// Eight octets as a number, from the lowest on.
#[inline(always)]
fn word_of(octets: u8x8) -> u64
    ensures { result ≡ little_endian 8 octets }
{
    u64::from_le_bytes(octets.to_array())
}

/// The first eight octets as a number, where so many are left.
#[inline(always)]
fn front_word(octets: &[u8]) -> Option<u64>
    ensures enough { IfSome result (λ _. 8 ≤ length octets.now) }
    ensures word { IfSome result (λ word. word ≡ little_endian 8 octets.now) }
{
    if octets.len() < 8 {
        return None;
    }
    Some(word_of(u8x8::from_slice(octets)))
}

/// A number, and the at most eight octets of its varint: where they stand once more, one compare of words tells it.
#[derive(Clone, Copy, Debug)]
pub struct Spelling {
    pub number: u64,
    /// The octets, the first of them lowest, and zeros behind.
    word: u64,
    /// The bits of the word that they take.
    mask: u64,
    /// How many they are.
    len: usize,
    ghost short: { len ≤ 8 },
    ghost whole: { mask + 1 ≡ 2 ^ (8 * len) },
    ghost spelled: { varint number ≡ octets_of len word },
}

impl Spelling {
    /// That of zero.
    pub fn of_zero() -> Spelling
        ensures { result.number ≡ 0 }
    {
        Spelling {
            number: 0,
            word: 0,
            mask: 0xff,
            len: 1,
        }
    }

    /// The octets behind its own, where these stand at the front and eight or more are left.
    #[inline(always)]
    fn behind<'a>(self, octets: &'a [u8]) -> Option<&'a [u8]>
        ensures { IfSome result (λ rest. short_varint_at octets.now ≡ Some (self.number, rest.now)) }
    {
        let front = front_word(octets)?;
        if front & self.mask != self.word {
            return None;
        }
        let (_, rest) = octets.split_at(self.len);
        Some(rest)
    }

    /// The varint that stands at the front, behind one with this spelling, and the octets after it, where `word_at` finds
    /// it, and zero only behind zero: one with the same spelling isn't decoded.
    #[inline(always)]
    pub fn next_at<'a>(self, octets: &'a [u8]) -> Result<(Spelling, &'a [u8]), Short>
        ensures { IfOk result (λ x. short_varint_at octets.now ≡ Some (x.0.number, x.1.now)) }
    {
        match self.behind(octets) {
            Some(rest) => Ok((self, rest)),
            None => spelled_word_at(octets),
        }
    }
}

/// The spelling of the varint that stands at the front, and the octets after it, where `word_at` finds it, but of zero.
#[inline(always)]
fn spelled_word_at(octets: &[u8]) -> Result<(Spelling, &[u8]), Short>
    ensures { IfOk result (λ x. short_varint_at octets.now ≡ Some (x.0.number, x.1.now)) }
{
    let Some(front) = front_word(octets) else {
        return Err(Short);
    };
    let found = ends(front);
    if found == 0 {
        return Err(Short);
    }
    // the lowest of the bits found, and all below it
    let mask = found ^ (found - 1);
    let word = front & mask;
    // the last octet is zero
    if word <= mask / 0x100 {
        return Err(Short);
    }
    let len = found.trailing_zeros() as usize / 8 + 1;
    let (_, rest) = octets.split_at(len);
    let number = joined(word);
    Ok((
        Spelling {
            number,
            word,
            mask,
            len,
        },
        rest,
    ))
}

/// The number whose varint stands at the front, and the octets after it, where it has at most eight octets and eight or more
/// are left: so none of them is looked for past the end. They're taken as one word, so their number costs nothing.
#[inline(always)]
pub fn word_at(octets: &[u8]) -> Result<(u64, &[u8]), Short>
    ensures { IfOk result (λ x. short_varint_at octets.now ≡ Some (x.0, x.1.now)) }
{
    if octets.len() >= 8 && octets[0] < 128 {
        let (_, rest) = octets.split_at(1);
        return Ok((u64::from(octets[0]), rest));
    }
    let (spelling, rest) = spelled_word_at(octets)?;
    Ok((spelling.number, rest))
}

/// The same for a varint of any length, of which no more than 14 octets are looked at.
#[inline(never)]
fn wide_varint_at(octets: &[u8]) -> Result<(u128, &[u8]), Short>
    ensures { Answers (λ x. (x.0, x.1.now)) result (short_varint_at octets.now) }
{
    let (first, after_first) = octet_at(octets)?;
    if first < 128 {
        return Ok((u128::from(first), after_first));
    }
    let mut value = u128::from(first - 128);
    let mut weight: u128 = 128;
    let mut rest = after_first;
    for _ in 1u32..14 {
        let (octet, after) = octet_at(rest)?;
        if octet == 0 {
            return Err(Short);
        }
        if octet < 128 {
            return Ok((value + u128::from(octet) * weight, after));
        }
        value += u128::from(octet - 128) * weight;
        weight *= 128;
        rest = after;
    }
    Err(Short)
}

/// The number whose varint of at most 14 octets stands at the front, and the octets after it: one of eight octets, which
/// the gap of two keys has within weeks, is read in 64 bits, where it takes half the time.
pub fn varint_at(octets: &[u8]) -> Result<(u128, &[u8]), Short>
    ensures { Answers (λ x. (x.0, x.1.now)) result (short_varint_at octets.now) }
{
    match word_at(octets) {
        Ok((word, rest)) => Ok((u128::from(word), rest)),
        Err(_) => wide_varint_at(octets),
    }
}
