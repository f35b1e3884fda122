//! Each field once at its extremes, and the worked format of stations.

use crate::ends::{none_other, other};
use octet_fields::example::{Band, Station, read_stations, write_stations};
use octet_fields::*;
use std::alloc::{AllocError, Global};
use std::test::Fail;

/// Each field at its extremes, as the format spells it.
const FIELDS: &[u8] = &[
    7, 1, 2, 0xfe, 0xdc, 0xba, 0x98, 1, 2, 3, 4, 5, 6, 7, 8, // 7, 258, 0xfedcba98, 0x0102030405060708
    0xff, 0xff, 0xff, 0xff, 0xff, 0xff, 0xff, 0xfe, // -2 as i64
    0x80, 0, 0, 0, 0, 0, 0, 0, 0, 0, 0, 0, 0, 0, 0, 0, // -2^127
    0, 0, 0, 0, 0, 0, 0, 0, 0, 0, 0, 0, 0, 0, 1, 0, // 256 as i128
    1, 65, // the name A
];

/// They are functions, as the stations below, so that they stand in no goal of their callers.
fn fields() -> &'static [u8] {
    FIELDS
}

type Unsigned = (u8, u16, u32, u64);

type Signed = (i64, i128, i128);

fn unsigned() -> Unsigned {
    (7, 258, 0xfedc_ba98, 0x0102_0304_0506_0708)
}

fn signed() -> Signed {
    (-2, i128::MIN, 256)
}

/// Two stations: DSS14 on X with a delay of -1, and A on S with 258.
const STATIONS: &[u8] = &[
    0, 2, // count
    5, 68, 83, 83, 49, 52, 1, 255, 255, 255, 255, 255, 255, 255, 255, // DSS14
    1, 65, 0, 0, 0, 0, 0, 0, 0, 1, 2, // A
];

fn stations() -> &'static [u8] {
    STATIONS
}

/// The last of them alone.
const STATION: &[u8] = &[0, 1, 1, 65, 0, 0, 0, 0, 0, 0, 0, 1, 2];

fn station() -> &'static [u8] {
    STATION
}

fn put_unsigned(out: &mut Vec<u8>, (n8, n16, n32, n64): Unsigned) -> Result<(), AllocError> {
    put_u8(out, n8)?;
    put_u16(out, n16)?;
    put_u32(out, n32)?;
    put_u64(out, n64)
}

fn put_signed(out: &mut Vec<u8>, (signed, least, wide): Signed) -> Result<(), AllocError> {
    put_i64(out, signed)?;
    put_i128(out, least)?;
    put_i128(out, wide)
}

fn put_fields(out: &mut Vec<u8>) -> Result<(), AllocError> {
    put_unsigned(out, unsigned())?;
    put_signed(out, signed())?;
    put_name(out, b"A")
}

fn writes_fields(alloc: Global) -> bool {
    let mut out = Vec::new(alloc);
    put_fields(&mut out).is_ok() && out.as_slice() == fields()
}

fn unsigned_at(octets: &[u8]) -> Result<(Unsigned, &[u8]), Short> {
    let (n8, rest) = u8_at(octets)?;
    let (n16, rest) = u16_at(rest)?;
    let (n32, rest) = u32_at(rest)?;
    let (n64, rest) = u64_at(rest)?;
    Ok(((n8, n16, n32, n64), rest))
}

fn signed_at(octets: &[u8]) -> Result<(Signed, &[u8]), Short> {
    let (signed, rest) = i64_at(octets)?;
    let (least, rest) = i128_at(rest)?;
    let (wide, rest) = i128_at(rest)?;
    Ok(((signed, least, wide), rest))
}

fn is_name_at_the_end(octets: &[u8]) -> bool {
    match name_at(octets) {
        Ok((name, rest)) => name == b"A".as_slice() && rest.is_empty(),
        Err(_) => false,
    }
}

fn are_signed(octets: &[u8]) -> bool {
    match signed_at(octets) {
        Ok((numbers, rest)) => numbers == signed() && is_name_at_the_end(rest),
        Err(_) => false,
    }
}

fn reads_fields() -> bool {
    match unsigned_at(fields()) {
        Ok((numbers, rest)) => numbers == unsigned() && are_signed(rest),
        Err(_) => false,
    }
}

fn is_station(station: &Station, name: &[u8], band: Band, delay: i64) -> bool {
    station.name.as_slice() == name && station.band == band && station.delay == delay
}

fn reads_stations(alloc: Global) -> bool {
    match read_stations(alloc, stations()) {
        Ok(read) => match read.as_slice() {
            [first, last] => {
                is_station(first, b"DSS14", Band::X, -1) && is_station(last, b"A", Band::S, 258)
            }
            _ => false,
        },
        Err(_) => false,
    }
}

fn is_malformed(alloc: Global, octets: &[u8]) -> bool {
    matches!(read_stations(alloc, octets), Err(DecodeError::Malformed))
}

/// Whether each front of octets is malformed.
fn are_fronts_malformed(alloc: Global, octets: &[u8]) -> bool {
    for cut in 0..octets.len() {
        if !is_malformed(alloc, &octets[..cut]) {
            return false;
        }
    }
    true
}

fn writes_a_station(alloc: Global) -> bool {
    let Ok(name) = vec![in alloc; 65] else {
        return false;
    };
    let last = Station {
        name,
        band: Band::S,
        delay: 258,
    };
    match write_stations(alloc, &[last]) {
        Ok(out) => out.as_slice() == station(),
        Err(_) => false,
    }
}

#[test]
fn fields_and_stations(rt: HostRuntime) -> Result<(), Fail> {
    none_other(other(&[
        ("writes fields", writes_fields(rt.alloc())),
        ("reads fields", reads_fields()),
        ("no more room than octets", room_for(9, fields(), 8) == 7),
        ("reads stations", reads_stations(rt.alloc())),
        (
            "refuses fronts",
            are_fronts_malformed(rt.alloc(), stations()),
        ),
        ("writes a station", writes_a_station(rt.alloc())),
    ]))
}
