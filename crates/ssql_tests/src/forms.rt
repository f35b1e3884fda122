//! What the tests type scripts with, the rows that conditions and routes are asked of, and how a refusal is looked at.

ghost use Rattle.std.specs.Prelude.{◌≤◌, length, IfOk, IfSome};
ghost use Rattle.arch_types.specs.Packet.{IsPacket};

use arch_types::key::Key;
use arch_types::name::{Name, Names};
use arch_types::octets::Octets;
use arch_types::row::Row;
use space_packet::dump::first_packet;
use ssql_parse::{NotAScript, parse};
use ssql_types::not_typed::NotTyped;
use ssql_types::place::ScriptPlace;
use ssql_types::query::TypedSelect;
use ssql_types::script::{TypedScript, typed};
use ssql_types::statement::TypedStatement;
use std::alloc::{AllocError, Global};

/// Why a text stands for nothing in a place.
#[derive(Debug, Drop)]
pub(crate) enum Fault {
    /// It is no script.
    Script(NotAScript),
    /// Something is wrong with a token.
    Token(NotTyped),
}

impl From<NotAScript> for Fault {
    fn from(fault: NotAScript) -> Fault {
        Fault::Script(fault)
    }
}

impl From<NotTyped> for Fault {
    fn from(fault: NotTyped) -> Fault {
        Fault::Token(fault)
    }
}

impl From<AllocError> for Fault {
    fn from(error: AllocError) -> Fault {
        Fault::Script(NotAScript::from(error))
    }
}

/// Whether a text is no script from this octet on, by this rule.
pub(crate) fn is_no_script(fault: &NotAScript, at: u64, rule: u8) -> bool {
    match fault {
        NotAScript::BadSql {
            at: found,
            rule: broken,
        } => *found == at && *broken == rule,
        _ => false,
    }
}

/// Whether a script is wrong at this octet, against this rule.
pub(crate) fn is_fault(fault: &Fault, at: u64, rule: u8) -> bool {
    match fault {
        Fault::Script(fault) => is_no_script(fault, at, rule),
        Fault::Token(
            NotTyped::BadSql {
                at: found,
                rule: broken,
            },
        ) => *found == at && *broken == rule,
        Fault::Token(_) => false,
    }
}

/// Names with these texts; a text that is none is left out.
fn names_of(alloc: Global, texts: &[&[u8]]) -> Result<Names, AllocError>
    ensures { IfOk result (λ names. length names ≤ length texts.now) }
{
    let mut names = Names::new(alloc);
    for text in texts {
        if let Some(name) = Name::of(Octets::from_slice(alloc, text)?) {
            names.push(name)?;
        }
    }
    Ok(names)
}

/// The tables `tm` and, but for `create`, `copy`.
fn tables_of(alloc: Global, place: ScriptPlace) -> Result<Names, AllocError>
    ensures { IfOk result (λ tables. length tables ≤ 16) }
{
    match place {
        ScriptPlace::Create => names_of(alloc, &[b"tm"]),
        ScriptPlace::Route | ScriptPlace::Sql => names_of(alloc, &[b"tm", b"copy"]),
    }
}

/// A script beside these tables and packet names.
fn typed_beside(
    alloc: Global,
    place: ScriptPlace,
    text: &[u8],
    tables: &Names,
    names: &Names,
) -> Result<TypedScript, Fault>
    requires tables { length tables.now ≤ 16 }
    requires names { length names.now ≤ 2 }
{
    let script = parse(alloc, text)?;
    Ok(typed(alloc, &script, place, tables, names)?)
}

/// A script beside these tables and the packet names A and B.
fn typed_of(
    alloc: Global,
    place: ScriptPlace,
    text: &[u8],
    tables: &Names,
) -> Result<TypedScript, Fault>
    requires { length tables.now ≤ 16 }
{
    let names = names_of(alloc, &[b"A", b"B"])?;
    typed_beside(alloc, place, text, tables, &names)
}

/// A script beside the tables of its place and the packet names A and B.
pub(crate) fn typed_text(
    alloc: Global,
    place: ScriptPlace,
    text: &[u8],
) -> Result<TypedScript, Fault> {
    let tables = tables_of(alloc, place)?;
    typed_of(alloc, place, text, &tables)
}

/// The query that is the last statement of a script.
pub(crate) fn last_select(script: &TypedScript) -> Option<&TypedSelect> {
    match script.as_slice() {
        [.., TypedStatement::Select(select)] => Some(select),
        _ => None,
    }
}

/// The row of table 0, which came at 9000, of the packet that these octets begin with.
fn row_of(alloc: Global, key: Key, link: u16, pname: u16, octets: &[u8]) -> Option<Row>
    ensures { IfSome result (λ row. IsPacket row.packet) }
{
    let Ok(length) = first_packet(octets) else {
        return None;
    };
    match Octets::from_slice(alloc, &octets[..length]) {
        Ok(packet) => Some(Row {
            key,
            rectime: 9_000,
            packet,
            link,
            pname,
            table: 0,
        }),
        Err(_) => None,
    }
}

/// A packet with APID 100 and 14 octets.
fn packet_of_a() -> &'static [u8] {
    &[0x08, 0x64, 0xC0, 0, 0, 7, 0, 0, 0, 1, 0x80, 0, 0x2A, 0xFE]
}

/// A packet with APID 101 and 13 octets.
fn packet_of_b() -> &'static [u8] {
    &[0x08, 0x65, 0xC0, 0, 0, 6, 0, 0, 0, 1, 0x80, 0, 7]
}

/// The row of A at 1500 on link 1.
pub(crate) fn row_of_a(alloc: Global) -> Option<Row>
    ensures { IfSome result (λ row. IsPacket row.packet) }
{
    let key = Key {
        time: 1_500,
        seq: 140_820_480,
    };
    row_of(alloc, key, 1, 0, packet_of_a())
}

/// The row of B at 2500 on link 2.
pub(crate) fn row_of_b(alloc: Global) -> Option<Row>
    ensures { IfSome result (λ row. IsPacket row.packet) }
{
    let key = Key {
        time: 2_500,
        seq: 140_820_481,
    };
    row_of(alloc, key, 2, 1, packet_of_b())
}
