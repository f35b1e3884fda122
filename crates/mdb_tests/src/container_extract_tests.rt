//! Worked packets and fields, and that each call succeeds with ample memory.

ghost use Rattle.std.specs.Prelude.{◌≡◌, ◌<◌};

use crate::given::{database, none_other, octets_of};
use arch_types::cell::Eng;
use arch_types::steps::Steps;
use container_extract::chain::Chain;
use container_extract::values::{ParameterValue, Values};
use container_extract::{Extracted, Extractor, bits, eng_of, extract, packet_name};
use mdb_model::{Coding, Mdb, MdbFault};
use std::alloc::{AllocError, Global};
use std::marker::Brand;
use std::sync::ledger::{Blank, Ledger};
use std::test::*;

/// The sheets of parameters, calibrations and containers, of which strokes part the records, and packets with what they say, one a line:
/// the octets, the packet name, the chain, and each value.
type Worked = (&'static str, &'static str, &'static str, &'static str);

const FLIGHT: Worked = (
    "name,coding,bits,calibration|apid,uint,11,|v,uint,8,|w,int,8,",
    "name,kind,x,y",
    "container,parent,condition,archive,entry,position|HDR,,,,apid,5|A,HDR,apid==100,yes,v,96|,,,,w,|B,HDR,apid==101,yes,v,96",
    "0864c0000006000000018000 2a: 1: 0 1: 0=100 1=42
0864c0000007000000018000 2afe: 1: 0 1: 0=100 1=42 2=-2
0865c0000006000000018000 07: 2: 0 2: 0=101 1=7
0866c0000006000000018000 07: 0: 0: 0=102
0864c0000006000000018000: 1: 0 1: 0=100
08: 0: 0:",
);

fn flight() -> Worked {
    FLIGHT
}

const WIDE: Worked = (
    "name,coding,bits,calibration|big,uint,60,k",
    "name,kind,x,y|k,poly,1,0.000007",
    "container,parent,condition,archive,entry,position|R,,,,big,100",
    "0864c000000d000000018000 0fffffffffffffff: 0: 0: 0=1152921504606846975~8070450532247928825
0864c000000d000000018000 0000000000000000: 0: 0: 0=0~0",
);

fn widest() -> Worked {
    WIDE
}

const CALIBRATED: Worked = (
    "name,coding,bits,calibration|p,int,8,line|e,uint,8,switch",
    "name,kind,x,y|line,points,0,0|line,points,3,-1|switch,enum,0,OFF|switch,enum,1,ON",
    "container,parent,condition,archive,entry,position|R,,,,p,0|,,,,e,",
    "fb00: 0: 0: 0=-5~0 1=0@0
0001: 0: 0: 0=0~0 1=1@1
0102: 0: 0: 0=1~-333334 1=2?
03: 0: 0: 0=3~-1000000
09: 0: 0: 0=9~-1000000",
);

fn calibrated() -> Worked {
    CALIBRATED
}

// A child for each operator; `LE` has no flag, and a child of its own.
const COMPARED: Worked = (
    "name,coding,bits,calibration|a,int,8,|b,intLE,16,",
    "name,kind,x,y",
    "container,parent,condition,archive,entry,position|R,,,yes,a,0|LT,R,a<-3,yes,,|EQ,R,a==3,yes,,|LE,R,a<=4,no,b,|GE,R,a>=9,yes,,|GT,R,a>7,yes,,|NE,R,a!=5,yes,,|LOW,LE,b<-1;a>=0,yes,,",
    "fc: 1: 0 1: 0=-4
03: 2: 0 2: 0=3
04feff: 7: 0 3 7: 0=4 1=-2
04ffff: 0: 0 3: 0=4 1=-1
fffeff: 0: 0 3: 0=-1 1=-2
09: 4: 0 4: 0=9
08: 5: 0 5: 0=8
06: 6: 0 6: 0=6
05: 0: 0: 0=5",
);

fn compared() -> Worked {
    COMPARED
}

// Children that begin by asking `a` for a number, two for one and two for another, among others.
const NUMBERED: Worked = (
    "name,coding,bits,calibration|a,uint,8,|b,uint,8,",
    "name,kind,x,y",
    "container,parent,condition,archive,entry,position|R,,,,a,0|,,,,b,|P,R,a==1;b==2,yes,,|Q,R,b==5,yes,,|S,R,a==1,yes,,|U,R,a==2;b>3,yes,,|V,R,a>1,yes,,|W,R,a==2,yes,,",
    "0102: 1: 0 1: 0=1 1=2
0105: 2: 0 2: 0=1 1=5
0107: 3: 0 3: 0=1 1=7
0205: 2: 0 2: 0=2 1=5
0204: 4: 0 4: 0=2 1=4
0201: 5: 0 5: 0=2 1=1
0300: 5: 0 5: 0=3 1=0
0009: 0: 0: 0=0 1=9
01: 0: 0: 0=1",
);

fn numbered() -> Worked {
    NUMBERED
}

// A flag on each container of a chain.
const FLAGGED: Worked = (
    "name,coding,bits,calibration|a,uint,8,",
    "name,kind,x,y",
    "container,parent,condition,archive,entry,position|R,,,yes,a,0|A,R,a<9,yes,,|B,A,a<5,yes,,|C,B,a<3,no,,",
    "09: 0: 0: 0=9
08: 1: 0 1: 0=8
04: 2: 0 1 2: 0=4
02: 2: 0 1 2 3: 0=2",
);

fn flagged() -> Worked {
    FLAGGED
}

// An entry of 9 bits of which a packet of one octet lacks the last, and a comparison with the last parameter of a path.
const NINE_BITS: Worked = (
    "name,coding,bits,calibration|a,uint,9,|b,uint,8,|c,uint,8,",
    "name,kind,x,y",
    "container,parent,condition,archive,entry,position|R,,,,a,0|S,R,a==3,,b,|,,,,c,|T,S,c==7,yes,,",
    "0180: 0: 0 1: 0=3
01: 0: 0:
01828380: 2: 0 1 2: 0=3 1=5 2=7
01838280: 0: 0 1: 0=3 1=7 2=5",
);

fn nine_bits() -> Worked {
    NINE_BITS
}

// A constant, a line and a square together.
const SQUARE: Worked = (
    "name,coding,bits,calibration|a,int,8,square",
    "name,kind,x,y|square,poly,0,1|square,poly,1,-2|square,poly,2,0.5",
    "container,parent,condition,archive,entry,position|R,,,,a,0",
    "03: 0: 0: 0=3~-500000
fd: 0: 0: 0=-3~11500000",
);

fn square() -> Worked {
    SQUARE
}

/// The extraction of a packet, with a counter of its own.
fn extracted<L: Ledger>(
    alloc: Global,
    blank: Blank,
    mdb: &Mdb,
    packet: &[u8],
) -> Result<Extracted, AllocError>
    requires name { blank.name ≡ L.name }
    requires parts { blank.parts ≡ L.parts }
    requires some { 0 < blank.parts }
{
    let (book, share) = blank.open::<L>();
    let mut steps = Steps::new(book, share);
    extract(alloc, mdb, packet, &mut steps)
}

fn value_text(alloc: Global, value: ParameterValue) -> Result<String, AllocError> {
    let ParameterValue {
        parameter,
        raw,
        eng,
    } = value;
    match eng {
        Eng::Whole => format!(in alloc; " {parameter}={raw}"),
        Eng::Fixed(millionths) => format!(in alloc; " {parameter}={raw}~{millionths}"),
        Eng::Label(row) => format!(in alloc; " {parameter}={raw}@{row}"),
        Eng::Undef => format!(in alloc; " {parameter}={raw}?"),
    }
}

/// The numbers of a chain, each behind a blank.
fn put_chain(alloc: Global, text: &mut String, chain: &Chain) -> Result<(), AllocError> {
    for number in chain.as_slice() {
        text.push_str(format!(in alloc; " {number}")?.as_str())?;
    }
    Ok(())
}

fn put_values(alloc: Global, text: &mut String, values: &Values) -> Result<(), AllocError> {
    for value in values.as_slice() {
        text.push_str(value_text(alloc, *value)?.as_str())?;
    }
    Ok(())
}

fn extracted_text(alloc: Global, name: u16, found: &Extracted) -> Result<String, AllocError> {
    let mut text = format!(in alloc; " {name}:")?;
    put_chain(alloc, &mut text, &found.chain)?;
    text.push_str(":")?;
    put_values(alloc, &mut text, &found.values)?;
    Ok(text)
}

/// What a packet says, as text.
fn said(alloc: Global, mdb: &Mdb, packet: &[u8]) -> Result<String, AllocError> {
    let name = packet_name(alloc, mdb, packet)?;
    let found = extracted::<Brand>(alloc, Blank::new(1), mdb, packet)?;
    extracted_text(alloc, name, &found)
}

/// Whether a packet says so.
fn says(alloc: Global, mdb: &Mdb, packet: &[u8], want: &str) -> bool {
    match said(alloc, mdb, packet) {
        Ok(text) => text.as_str() == want,
        Err(_) => false,
    }
}

/// Whether a packet that hexadecimal digits spell says what its line has behind it.
fn is_line(alloc: Global, mdb: &Mdb, line: &str) -> bool {
    let (digits, want) = line.split_once(':').unwrap_or(("", ""));
    match octets_of(alloc, digits) {
        Ok(packet) => says(alloc, mdb, packet.as_slice(), want),
        Err(_) => false,
    }
}

/// The first line that says something else than its packet.
fn other_line(alloc: Global, mdb: &Mdb, lines: &'static str) -> Option<&'static str> {
    for line in lines.split('\n') {
        if !is_line(alloc, mdb, line) {
            return Some(line);
        }
    }
    None
}

/// The database of a table.
fn database_of(alloc: Global, worked: Worked) -> Result<Mdb, MdbFault> {
    database(alloc, (worked.0, worked.1, worked.2))
}

/// The first line of a table that says something else than its packet, or all lines, where there is no database.
fn other(alloc: Global, worked: Worked) -> Option<&'static str> {
    match database_of(alloc, worked) {
        Ok(mdb) => other_line(alloc, &mdb, worked.3),
        Err(_) => Some(worked.3),
    }
}

fn other_of_all(alloc: Global, tables: &[Worked]) -> Option<&'static str> {
    for worked in tables {
        let line = other(alloc, *worked);
        if line.is_some() {
            return line;
        }
    }
    None
}

/// Each is a call, so that no table stands in a goal.
fn tables() -> [Worked; 8] {
    [
        flight(),
        widest(),
        calibrated(),
        compared(),
        numbered(),
        flagged(),
        nine_bits(),
        square(),
    ]
}

#[test]
fn worked_packets(rt: HostRuntime) -> Result<(), Fail> {
    none_other(other_of_all(rt.alloc(), &tables()))
}

/// The packet name and the number of values of a packet, by an extractor that may have had others before.
fn named_by<L: Ledger>(
    extractor: &mut Extractor,
    blank: Blank,
    mdb: &Mdb,
    packet: &[u8],
) -> (u16, usize)
    requires name { blank.name ≡ L.name }
    requires parts { blank.parts ≡ L.parts }
    requires some { 0 < blank.parts }
{
    let (book, share) = blank.open::<L>();
    let mut steps = Steps::new(book, share);
    let name = extractor.packet_name(mdb, packet);
    let found = extractor.extract(mdb, packet, &mut steps);
    (name, found.values.len())
}

/// The same with a counter of its own.
fn named(extractor: &mut Extractor, mdb: &Mdb, packet: &[u8]) -> (u16, usize) {
    named_by::<Brand>(extractor, Blank::new(1), mdb, packet)
}

/// A packet in hexadecimal digits, and its name and the number of its values.
type Named = (&'static str, (u16, usize));

const NAMED: &[Named] = &[
    ("0864c00000070000000180002afe", (1, 3)),
    ("0866c000000600000001800007", (0, 1)),
    ("0865c000000600000001800007", (2, 2)),
];

fn packets_named() -> &'static [Named] {
    NAMED
}

fn is_named(alloc: Global, extractor: &mut Extractor, mdb: &Mdb, row: &Named) -> bool {
    let (digits, want) = *row;
    match octets_of(alloc, digits) {
        Ok(packet) => named(extractor, mdb, packet.as_slice()) == want,
        Err(_) => false,
    }
}

/// The first packet that has another name or number of values.
fn other_named(
    alloc: Global,
    extractor: &mut Extractor,
    mdb: &Mdb,
    all: &[Named],
) -> Option<&'static str> {
    for row in all {
        if !is_named(alloc, extractor, mdb, row) {
            return Some(row.0);
        }
    }
    None
}

/// The engineering value of a parameter in a packet, by an extractor that may have had others before.
fn eng_by<L: Ledger>(
    extractor: &mut Extractor,
    blank: Blank,
    mdb: &Mdb,
    packet: &[u8],
    parameter: u16,
) -> Option<Eng>
    requires name { blank.name ≡ L.name }
    requires parts { blank.parts ≡ L.parts }
    requires some { 0 < blank.parts }
{
    let (book, share) = blank.open::<L>();
    let mut steps = Steps::new(book, share);
    mdb.is_sound();
    let found = extractor.extract(mdb, packet, &mut steps);
    match found.value(parameter) {
        None => None,
        Some(value) => Some(eng_of(mdb, *value)),
    }
}

/// The same of the parameter 1, with a counter of its own.
fn eng_said(extractor: &mut Extractor, mdb: &Mdb, packet: &[u8]) -> Option<Eng> {
    eng_by::<Brand>(extractor, Blank::new(1), mdb, packet, 1)
}

/// A packet in hexadecimal digits, and the engineering value.
type Said = (&'static str, Option<Eng>);

const SAID: &[Said] = &[
    ("fb00", Some(Eng::Label(0))),
    ("0102", Some(Eng::Undef)),
    ("03", None),
    ("0001", Some(Eng::Label(1))),
];

fn packets_said() -> &'static [Said] {
    SAID
}

fn is_said(alloc: Global, extractor: &mut Extractor, mdb: &Mdb, row: &Said) -> bool {
    let (digits, want) = *row;
    match octets_of(alloc, digits) {
        Ok(packet) => eng_said(extractor, mdb, packet.as_slice()) == want,
        Err(_) => false,
    }
}

/// The first packet that has another engineering value.
fn other_said(
    alloc: Global,
    extractor: &mut Extractor,
    mdb: &Mdb,
    all: &[Said],
) -> Option<&'static str> {
    for row in all {
        if !is_said(alloc, extractor, mdb, row) {
            return Some(row.0);
        }
    }
    None
}

/// What is otherwise of packets that one extractor takes one after the other, by each of two databases.
fn other_by(
    alloc: Global,
    extractor: Result<Extractor, AllocError>,
    flight: &Mdb,
    calibrated: &Mdb,
) -> Option<&'static str> {
    match extractor {
        Ok(mut extractor) => other_named(alloc, &mut extractor, flight, packets_named()).or(
            other_said(alloc, &mut extractor, calibrated, packets_said()),
        ),
        Err(_) => Some("an extractor"),
    }
}

/// The same by databases that sheets have.
fn other_in_turn(
    alloc: Global,
    flight: Result<Mdb, MdbFault>,
    calibrated: Result<Mdb, MdbFault>,
) -> Option<&'static str> {
    match (&flight, &calibrated) {
        (Ok(flight), Ok(calibrated)) => other_by(alloc, Extractor::new(alloc), flight, calibrated),
        _ => Some("a database"),
    }
}

#[test]
fn packets_one_after_the_other(rt: HostRuntime) -> Result<(), Fail> {
    let flight = database_of(rt.alloc(), flight());
    let calibrated = database_of(rt.alloc(), calibrated());
    none_other(other_in_turn(rt.alloc(), flight, calibrated))
}

/// Fields of three octets.
fn three(octets: &[u8]) -> Option<[i128; 3]> {
    if octets.len() < 3 {
        return None;
    }
    Some([
        bits(octets, 4, 12, Coding::Uint),
        bits(octets, 4, 16, Coding::UintLe),
        bits(octets, 11, 3, Coding::Int),
    ])
}

#[test]
fn short_fields(rt: HostRuntime) {
    assert!(rt; three(&[0x12, 0x34, 0x56]) == Some([0x234, 0x4523, -3]));
}

/// Fields of 64 bits of nine octets.
fn wide(octets: &[u8]) -> Option<[i128; 3]> {
    if octets.len() < 9 {
        return None;
    }
    Some([
        bits(octets, 3, 64, Coding::Int),
        bits(octets, 8, 64, Coding::UintLe),
        bits(octets, 8, 64, Coding::IntLe),
    ])
}

/// Whether the little-endian fields of octets are these.
fn are_little_endian(octets: &[u8], unsigned: i128, signed: i128) -> bool {
    let [_, first, second] = wide(octets).unwrap_or([0, 0, 0]);
    (first, second) == (unsigned, signed)
}

#[test]
fn wide_fields(rt: HostRuntime) {
    assert!(rt; wide(&[0xFF; 9]) == Some([-1, 18446744073709551615, -1]));
    let least: [u8; 9] = [1, 0, 0, 0, 0, 0, 0, 0, 0x80];
    assert!(rt; are_little_endian(&least, 9223372036854775808, -9223372036854775808));
}

/// A chain of one number, made again of its vector.
fn chain_of(alloc: Global, number: u16) -> Result<Chain, AllocError> {
    let mut chain = Chain::new(alloc);
    chain.push(number)?;
    Ok(Chain::from_vec(chain.into_vec()))
}

/// Values of one, made again of their vector.
fn values_of(alloc: Global, value: ParameterValue) -> Result<Values, AllocError> {
    let mut values = Values::new(alloc);
    values.push(value)?;
    Ok(Values::from_vec(values.into_vec()))
}

fn is_chain(alloc: Global, number: u16) -> bool {
    match chain_of(alloc, number) {
        Ok(chain) => chain.as_slice() == [number].as_slice(),
        Err(_) => false,
    }
}

fn are_values(alloc: Global, value: ParameterValue) -> bool {
    match values_of(alloc, value) {
        Ok(values) => values.as_slice() == [value].as_slice(),
        Err(_) => false,
    }
}

#[test]
fn lists(rt: HostRuntime) {
    assert!(rt; is_chain(rt.alloc(), 7));
    let value = ParameterValue {
        parameter: 1,
        raw: -2,
        eng: Eng::Undef,
    };
    assert!(rt; are_values(rt.alloc(), value));
}
