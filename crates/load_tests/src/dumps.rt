//! The files that calls find: sheets of three parameters in three containers, a sheet of two asks, and dumps of one packet a second.

use crate::calls::NamedFile;
use std::alloc::{AllocError, Global};

const SHEETS: [NamedFile<'static>; 4] = [
    (
        "parameters",
        b"name,coding,bits,calibration\napid,uint,11,\nv,uint,8,\nw,int,8,\n",
    ),
    ("calibrations", b"name,kind,x,y\n"),
    (
        "containers",
        b"container,parent,condition,archive,entry,position\nHDR,,,,apid,5\nA,HDR,apid==100,yes,v,96\n,,,,w,\nB,HDR,apid==101,yes,v,96\n",
    ),
    (
        "asks",
        b"kind,name,from,to,order,limit,names\nvalues,v,0,86400000,,,\nreplay,tm,0,86400000,,,\n",
    ),
];

/// A function, as each table of these tests is, so that they stand in no goal of its callers.
pub(crate) fn sheets() -> [NamedFile<'static>; 4] {
    SHEETS
}

pub(crate) const CREATE: &str = "create parameters calibrations containers";

/// A packet of APID 100 at so many seconds, of which `v` is the last octet.
fn packet_at(second: u64) -> [u8; 13] {
    let octets = second.to_be_bytes();
    [
        8, 100, 0xC0, 0, 0, 6, octets[4], octets[5], octets[6], octets[7], 0, 0, octets[7],
    ]
}

/// A dump of so many packets, one a second from a first one on.
pub(crate) fn dump(alloc: Global, first: u64, count: u64) -> Result<Vec<u8>, AllocError> {
    let mut octets = Vec::new(alloc);
    for number in 0..count {
        octets.extend_from_slice(&packet_at(first.saturating_add(number)))?;
    }
    Ok(octets)
}

/// Such a dump, and an octet that begins no packet.
pub(crate) fn broken_dump(alloc: Global, first: u64, count: u64) -> Result<Vec<u8>, AllocError> {
    let mut octets = dump(alloc, first, count)?;
    octets.push(0x28)?;
    Ok(octets)
}
