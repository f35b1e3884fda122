//! Cells at the end of a buffer that has room for them.

ghost use Rattle.std.specs.Prelude.{◌≡◌, ◌<◌, ◌^◌, ◌++◌, ◌-ℤ◌, IfSome, pos, true, vec_capacity};
ghost use Rattle.std.specs.Int.{w8, w64, w128};
ghost use Rattle.std.specs.Int.RustNames.{FitsSigned};
ghost use Rattle.packed_cells.specs.Kept.{HasRoomFor, IsSizedCell, IsSizedEng};
ghost use Rattle.packed_cells.specs.Packed.{cell_octets, eng_kind, eng_octets, is_raw_near, is_small, key_octets, packed_kind_of, raw_octets, step, value_octets, zigzag};
ghost use Rattle.octet_fields.specs.Spelling.{number, signed};
ghost use Rattle.varints.specs.Varint.{varint};

use crate::reading::Before;
use crate::zigzag::{zigzag, zigzag_word};
use arch_types::cell::{Cell, Eng};

/// The octets that a cell takes at most.
pub(crate) const LONGEST: usize = 64;

/// Adds octets.
fn put_octets(out: &mut Vec<u8>, octets: &[u8])
    requires { HasRoomFor octets.now out.old }
    ensures octets { out.new.items ≡ out.old.items ++ octets.now }
    ensures room { vec_capacity out.new ≡ vec_capacity out.old }
{
    for octet in octets {
        out.push_reserved(*octet);
    }
}

/// Adds the varint of a number of 64 bits.
#[inline(always)]
fn put_word(out: &mut Vec<u8>, n: u64)
    requires { HasRoomFor (varint n) out.old }
    ensures octets { out.new.items ≡ out.old.items ++ varint n }
    ensures room { vec_capacity out.new ≡ vec_capacity out.old }
{
    let mut rest = n;
    while rest >= 128 {
        out.push_reserved((rest % 128) as u8 + 128);
        rest /= 128;
    }
    out.push_reserved(rest as u8);
}

/// The same of any number.
#[inline(never)]
fn put_wide(out: &mut Vec<u8>, n: u128)
    requires { HasRoomFor (varint n) out.old }
    ensures octets { out.new.items ≡ out.old.items ++ varint n }
    ensures room { vec_capacity out.new ≡ vec_capacity out.old }
{
    let mut rest = n;
    while rest >= 128 {
        out.push_reserved((rest % 128) as u8 + 128);
        rest /= 128;
    }
    out.push_reserved(rest as u8);
}

/// How a number differs from one before, where that takes 64 bits.
#[inline(always)]
fn near_step(before: i64, x: i64) -> Option<u64>
    ensures { IfSome result (λ n. n ≡ zigzag (x -ℤ before)) }
{
    Some(zigzag_word(x.checked_sub(before)?))
}

/// Adds a number of 64 bits by its difference to one before.
#[inline(always)]
fn put_step(out: &mut Vec<u8>, before: i64, x: i64)
    requires { HasRoomFor (step before x) out.old }
    ensures octets { out.new.items ≡ out.old.items ++ step before x }
    ensures room { vec_capacity out.new ≡ vec_capacity out.old }
{
    match near_step(before, x) {
        Some(n) => put_word(out, n),
        None => put_wide(out, zigzag(i128::from(x) - i128::from(before))),
    }
}

/// The same of 32 bits without a sign.
#[inline(always)]
fn put_u32_step(out: &mut Vec<u8>, before: u32, x: u32)
    requires { HasRoomFor (step (pos before) (pos x)) out.old }
    ensures octets { out.new.items ≡ out.old.items ++ step (pos before) (pos x) }
    ensures room { vec_capacity out.new ≡ vec_capacity out.old }
{
    put_word(out, zigzag_word(i64::from(x) - i64::from(before)));
}

/// Whether a number is so small that a difference of two such takes at most 14 octets.
fn is_small(n: i128) -> bool
    ensures { result ≡ is_small n }
{
    n >= -(1 << 96) && n < 1 << 96
}

/// Whether a raw number is spelled by its difference to the one before.
fn is_near(before: i128, raw: i128) -> bool
    ensures { result ≡ is_raw_near before raw }
{
    is_small(before) && is_small(raw)
}

/// How a raw number differs from the one before, where all that takes 64 bits.
#[inline(always)]
fn near_raw(before: i128, raw: i128) -> Option<u64>
    ensures step { IfSome result (λ n. n ≡ zigzag (raw -ℤ before)) }
    ensures near { IfSome result (λ _. is_raw_near before raw ≡ true) }
{
    match (i64::try_from(before), i64::try_from(raw)) {
        (Ok(before), Ok(raw)) => near_step(before, raw),
        _ => None,
    }
}

/// Adds a raw number whole.
#[tactic(auto, unfolding(octet_fields::specs::Spelling::number, octet_fields::specs::Spelling::signed))]
fn put_whole(out: &mut Vec<u8>, raw: i128)
    requires { HasRoomFor (signed w128 raw) out.old }
    ensures octets { out.new.items ≡ out.old.items ++ signed w128 raw }
    ensures room { vec_capacity out.new ≡ vec_capacity out.old }
{
    put_octets(out, &raw.to_be_bytes());
}

/// Adds a raw number, by its difference to the one before, or whole.
#[inline(never)]
fn put_wide_raw(out: &mut Vec<u8>, before: i128, raw: i128)
    requires { HasRoomFor (raw_octets before raw) out.old }
    ensures octets { out.new.items ≡ out.old.items ++ raw_octets before raw }
    ensures room { vec_capacity out.new ≡ vec_capacity out.old }
{
    if is_near(before, raw) {
        put_wide(out, zigzag(raw - before));
    } else {
        put_whole(out, raw);
    }
}

/// The same, in 64 bits where they serve.
#[inline(always)]
fn put_raw(out: &mut Vec<u8>, before: i128, raw: i128)
    requires { HasRoomFor (raw_octets before raw) out.old }
    ensures octets { out.new.items ≡ out.old.items ++ raw_octets before raw }
    ensures room { vec_capacity out.new ≡ vec_capacity out.old }
{
    match near_raw(before, raw) {
        Some(n) => put_word(out, n),
        None => put_wide_raw(out, before, raw),
    }
}

/// The kind of an engineering value.
fn eng_kind(eng: Eng) -> u8
    ensures kind { result ≡ eng_kind eng }
    ensures few { result < 4 }
{
    match eng {
        Eng::Whole => 0,
        Eng::Undef => 1,
        Eng::Fixed(_) => 2,
        Eng::Label(_) => 3,
    }
}

/// Adds an engineering value.
fn put_eng(out: &mut Vec<u8>, before: i64, eng: Eng)
    requires { HasRoomFor (eng_octets before eng) out.old }
    ensures octets { out.new.items ≡ out.old.items ++ eng_octets before eng }
    ensures room { vec_capacity out.new ≡ vec_capacity out.old }
{
    match eng {
        Eng::Whole | Eng::Undef => {}
        Eng::Fixed(millionths) => put_step(out, before, millionths),
        Eng::Label(row) => put_word(out, u64::from(row)),
    }
}

/// The kind of a cell.
fn kind_of(before: &Before, cell: &Cell) -> u8
    ensures { result ≡ packed_kind_of before.now cell.now }
{
    let whole = if is_near(before.raw, cell.raw) { 0 } else { 4 };
    eng_kind(cell.eng) + whole
}

/// Adds the kind of a cell.
#[tactic(auto, unfolding(octet_fields::specs::Spelling::number))]
fn put_kind(out: &mut Vec<u8>, kind: u8)
    requires { HasRoomFor (number w8 kind) out.old }
    ensures octets { out.new.items ≡ out.old.items ++ number w8 kind }
    ensures room { vec_capacity out.new ≡ vec_capacity out.old }
{
    out.push_reserved(kind);
}

/// Adds the kind and the key of a cell, behind what stands before it.
fn put_key(out: &mut Vec<u8>, before: &Before, cell: &Cell)
    requires { HasRoomFor (key_octets before.now cell.now) out.old }
    ensures octets { out.new.items ≡ out.old.items ++ key_octets before.now cell.now }
    ensures room { vec_capacity out.new ≡ vec_capacity out.old }
{
    put_kind(out, kind_of(before, cell));
    put_step(out, before.time, cell.key.time);
    put_u32_step(out, before.seq, cell.key.seq);
}

/// Adds its values.
fn put_value(out: &mut Vec<u8>, before: &Before, cell: &Cell)
    requires { HasRoomFor (value_octets before.now cell.now) out.old }
    ensures octets { out.new.items ≡ out.old.items ++ value_octets before.now cell.now }
    ensures room { vec_capacity out.new ≡ vec_capacity out.old }
{
    put_raw(out, before.raw, cell.raw);
    put_eng(out, before.fixed, cell.eng);
}

/// Adds a cell, behind what stands before it.
#[tactic(auto, unfolding(crate::specs::Packed::cell_octets))]
pub(crate) fn put_cell(out: &mut Vec<u8>, before: &Before, cell: &Cell)
    requires { HasRoomFor (cell_octets before.now cell.now) out.old }
    ensures { out.new.items ≡ out.old.items ++ cell_octets before.now cell.now }
{
    put_key(out, before, cell);
    put_value(out, before, cell);
}

/// A number of each width has it.
fn are_sized(time: i64, seq: u32, raw: i128)
    ensures time { FitsSigned w64 time }
    ensures seq { seq < 2 ^ 32 }
    ensures raw { FitsSigned w128 raw }
{}

/// An engineering value has its widths.
fn is_sized_eng(eng: Eng)
    ensures { IsSizedEng eng }
{
    match eng {
        Eng::Whole | Eng::Undef => {}
        Eng::Fixed(millionths) => are_sized(millionths, 0, 0),
        Eng::Label(row) => are_sized(0, u32::from(row), 0),
    }
}

/// The numbers of a cell have their widths.
pub(crate) fn is_sized(cell: &Cell)
    ensures { IsSizedCell cell.now }
{
    are_sized(cell.key.time, cell.key.seq, cell.raw);
    is_sized_eng(cell.eng);
}
