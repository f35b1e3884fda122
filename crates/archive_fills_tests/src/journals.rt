// The octets of file 0: rows, the fronts of fills, and the records that they stand in.
use crate::parts::packet_octets;
use arch_disk::Disk;
use std::alloc::AllocError;

/// A packet of link 1 in a table, received at a time in milliseconds.
pub(crate) fn put_row(
    out: &mut Vec<u8>,
    time: i64,
    packet: usize,
    table: u8,
) -> Result<(), AllocError> {
    out.extend_from_slice(&[2, 0, 1, table])?;
    out.extend_from_slice(&time.to_be_bytes())?;
    out.extend_from_slice(&[1, 0, 0])?;
    out.extend_from_slice(packet_octets(packet))?;
    Ok(())
}

/// What stands in a fill before its set.
pub(crate) fn put_fill_front(
    out: &mut Vec<u8>,
    interval: i64,
    base: u64,
) -> Result<(), AllocError> {
    out.push(3)?;
    out.extend_from_slice(&interval.to_be_bytes())?;
    out.extend_from_slice(&base.to_be_bytes())?;
    Ok(())
}

/// A length of four octets.
pub(crate) fn put_length(out: &mut Vec<u8>, length: usize) -> Result<(), AllocError> {
    out.extend_from_slice(&(length as u64).to_be_bytes()[4..])?;
    Ok(())
}

/// Adds an open gate, a length and octets.
pub(crate) fn put_frame(out: &mut Vec<u8>, octets: &[u8]) -> Result<(), AllocError> {
    out.push(1)?;
    put_length(out, octets.len())?;
    out.extend_from_slice(octets)?;
    Ok(())
}

/// A disk whose file 0 is to hold a journal, and does where memory was there for it.
pub(crate) fn holding<D: Disk>(disk: D, journal: Result<Vec<u8>, AllocError>) -> D {
    let mut disk = disk;
    if let Ok(journal) = journal {
        let _ = disk.write_at(0, 0, journal.as_slice());
    }
    disk
}
