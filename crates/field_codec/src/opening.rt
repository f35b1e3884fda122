//! The opening of a head as octets, both ways: the format's number, the interval exponent, and the names of the tables.

ghost use Rattle.std.specs.Prelude.{◌≡◌, ◌+◌, ◌*◌, ◌<◌, ◌≤◌, ◌^◌, ◌++◌, length, drop, true, IfOk, OnOk, ◌∷◌};
ghost use Rattle.std.specs.Int.{w8};
ghost use Rattle.std.specs.List.{AllByRecursion, flat_map, list_any};
ghost use Rattle.std.specs.Str.{bytes_eq};
ghost use Rattle.text_forms.specs.Names.{is_name};
ghost use Rattle.octet_fields.specs.Answers.{Gives};
ghost use Rattle.octet_fields.specs.Reading.{counted_at};
ghost use Rattle.octet_fields.specs.Spelling.{counted, name, number};
ghost use Rattle.field_codec.specs.Entries.{AreTables};
ghost use Rattle.field_codec.specs.Spelling.{opening_octets};
ghost use Rattle.field_codec.specs.Reading.{are_tables, begins_with_tm, is_distinct, opening_at, table_name_at, tables_at, this_at};

use arch_types::name::{Name, Names};
use arch_types::octets::Octets;
use octet_fields::{
    Decode, DecodeError, Encode, each_at, name_at, put_each, put_name, put_u8, u8_at,
};
use std::alloc::{AllocError, Global};

/// The number of the format.
const FORMAT: u8 = 1;

/// An interval is 2 to this power milliseconds.
const EXPONENT: u8 = 22;

/// The number of tables that an archive has at most.
const MOST_TABLES: usize = 16;

/// Whether a name is among others.
fn is_among(name: &Name, others: &[Name]) -> bool
    ensures { result ≡ list_any (bytes_eq name.now) others.now }
{
    for other in others {
        if name.as_slice() == other.as_slice() {
            return true;
        }
    }
    false
}

/// Whether no two names are the same.
fn is_distinct(names: &[Name]) -> bool
    ensures { result ≡ is_distinct names.now }
{
    for i in 0..names.len() {
        if is_among(&names[i], &names[i + 1..]) {
            return false;
        }
    }
    true
}

/// Whether the first name is `tm`.
fn begins_with_tm(names: &[Name]) -> bool
    ensures { result ≡ begins_with_tm names.now }
{
    match names {
        [first, ..] => first.as_slice() == b"tm".as_slice(),
        [] => false,
    }
}

/// Whether names are those of an archive's tables.
#[tactic(auto, unfolding(crate::specs::Reading::are_tables))]
fn are_tables(names: &[Name]) -> bool
    ensures { result ≡ are_tables names.now }
{
    begins_with_tm(names) && names.len() <= MOST_TABLES && is_distinct(names)
}

/// The number at the front, which has to be this one.
#[tactic(auto, unfolding(crate::specs::Reading::this_at))]
fn this_at(number: u8, octets: &[u8]) -> Result<(u8, &[u8]), DecodeError>
    ensures { Gives (λ x. (x.0, x.1.now)) result (this_at number octets.now) }
{
    let (found, rest) = u8_at(octets)?;
    if found != number {
        return Err(DecodeError::Malformed);
    }
    Ok((found, rest))
}

/// How the name of a table is spelled.
struct TableCodec;

impl Decode for TableCodec {
    type Value = Name;

    const LEAST_OCTETS: usize = 2;

    ghost read = { table_name_at };

    #[tactic(auto, unfolding(crate::specs::Reading::table_name_at))]
    fn at(alloc: Global, octets: &[u8]) -> Result<(Name, &[u8]), DecodeError> {
        let (name, rest) = name_at(octets)?;
        match Name::of(Octets::from_slice(alloc, name)?) {
            Some(name) => Ok((name, rest)),
            None => Err(DecodeError::Malformed),
        }
    }
}

impl Encode for TableCodec {
    type Value = Name;

    ghost fits = { λ _. Unit {0} };

    ghost spell = { name };

    fn put(out: &mut Vec<u8>, table: &Name) -> Result<(), AllocError> {
        put_name(out, table.as_slice())
    }
}

#[tactic(auto, unfolding(crate::specs::Reading::tables_at, octet_fields::specs::Reading::counted_at))]
fn tables_at(alloc: Global, octets: &[u8]) -> Result<(Names, &[u8]), DecodeError>
    ensures { Gives (λ x. (x.0, x.1.now)) result (tables_at octets.now) }
{
    let (count, rest) = u8_at(octets)?;
    let (tables, rest) = each_at::<TableCodec>(alloc, usize::from(count), rest)?;
    let tables = Names::from_vec(tables);
    if !are_tables(tables.as_slice()) {
        return Err(DecodeError::Malformed);
    }
    Ok((tables, rest))
}

/// The tables that stand at the front of a head, and the octets of its database.
#[tactic(auto, unfolding(crate::specs::Reading::opening_at))]
pub(crate) fn opening_at(alloc: Global, octets: &[u8]) -> Result<(Names, &[u8]), DecodeError>
    ensures { Gives (λ x. (x.0, x.1.now)) result (opening_at octets.now) }
{
    let (_, rest) = this_at(FORMAT, octets)?;
    let (_, rest) = this_at(EXPONENT, rest)?;
    tables_at(alloc, rest)
}

/// How many octets the names of tables are spelled in.
fn names_size(names: &[Name]) -> usize
    requires { length names.now ≤ 16 }
    ensures size { result ≡ length (flat_map name names.now) }
    ensures small { result ≤ 16 * 65 }
{
    let mut size = 0usize;
    for table in names {
        size += 1 + table.as_slice().len();
    }
    size
}

/// How many octets the opening of a head is spelled in.
pub(crate) fn opening_size(tables: &[Name]) -> usize
    requires { length tables.now ≤ 16 }
    ensures { result ≡ 3 + length (flat_map name tables.now) }
{
    3 + names_size(tables)
}

#[tactic(auto, unfolding(crate::specs::Spelling::opening_octets, octet_fields::specs::Spelling::counted))]
pub(crate) fn put_opening(out: &mut Vec<u8>, tables: &[Name]) -> Result<(), AllocError>
    requires { length tables.now ≤ 16 }
    ensures { OnOk result (out.new.items ≡ out.old.items ++ opening_octets tables.now) }
{
    put_u8(out, FORMAT)?;
    put_u8(out, EXPONENT)?;
    put_u8(out, tables.len() as u8)?;
    put_each::<TableCodec>(out, tables)
}
