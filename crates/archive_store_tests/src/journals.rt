// Journals of records, and the disks that hold them.
use arch_disk::Disk;
use std::alloc::AllocError;

/// Adds the record of a body: an open gate, the body's length, and the body.
pub(crate) fn put_record(out: &mut Vec<u8>, body: &[u8]) -> Result<(), AllocError> {
    out.push(1)?;
    out.extend_from_slice(&(body.len() as u64).to_be_bytes()[4..])?;
    out.extend_from_slice(body)?;
    Ok(())
}

/// A time of reception of 9,000 ms, link 1, and the first octet of a packet name.
const RECEIVED: &[u8] = b"\x00\x00\x00\x00\x00\x00\x23\x28\x01\x00";

/// A function, so that they stand in no goal of its callers.
fn received() -> &'static [u8] {
    RECEIVED
}

/// Adds a row of a packet that was received so, in a table and with a packet name.
pub(crate) fn put_row(
    out: &mut Vec<u8>,
    table: u8,
    name: u8,
    packet: &[u8],
) -> Result<(), AllocError> {
    out.push(table)?;
    out.extend_from_slice(received())?;
    out.push(name)?;
    out.extend_from_slice(packet)?;
    Ok(())
}

/// A disk whose file 0 is to hold octets, and does where memory is there.
pub(crate) fn holding<D: Disk>(disk: D, octets: &[u8]) -> D {
    let mut disk = disk;
    let _ = disk.write_at(0, 0, octets);
    disk
}

/// The same of a journal, where there was room for it.
pub(crate) fn holding_journal<D: Disk>(disk: D, journal: &Result<Vec<u8>, AllocError>) -> D {
    match journal {
        Ok(octets) => holding(disk, octets.as_slice()),
        Err(_) => disk,
    }
}
