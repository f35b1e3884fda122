// A file that is read front to back in pieces, so that a call of the disk is paid once a piece and not for each look.
ghost use Rattle.std.specs.Prelude.{◌≡◌, ◌+◌, ◌^◌, ◌<◌, ◌≤◌, ◌⊎◌, None, IsTrue, false, length, take, drop, get_or, OnOk, IfOk, IfErr, IfSome};
ghost use Rattle.std.specs.Int.{w32, from_be_bytes, to_be_bytes};
ghost use Rattle.arch_disk.specs.Disk.{OnlyReads, raised};
ghost use Rattle.disk_journal.specs.Faults.{TellsFaults};
ghost use Rattle.disk_journal.specs.declared.fault.JournalFault.TheVariants.{DiskFault, OutOfMemory};

use crate::JournalFault;
use crate::steps::{number_of, read_at};
use arch_disk::Disk;
use arch_types::octets::Octets;
use std::alloc::{AllocError, Global};

// The most octets that a piece has (D-115).
const PIECE_LEN: u64 = 256 * 1024;

/// A reading of a file in pieces. Who asks for rising places reads each octet once, but for up to three of a number that
/// passes the end of a piece.
#[derive(Drop)]
pub struct PieceReader {
    pub(crate) file: u32,
    /// The length of the file.
    pub(crate) len: u64,
    /// The place in the file at which the piece begins.
    at: u64,
    /// The last piece that was read. What was cut out of it shares its memory.
    piece: Option<Octets>,
    alloc: Global,
}

impl PieceReader {
    ghost use Rattle.disk_journal.specs.PieceReader.{held_from, IsPieceOf, IsReading};

    /// Nothing is read yet.
    pub fn new(alloc: Global, file: u32, len: u64) -> PieceReader
        ensures file { (result.file ≡ file) × (result.len ≡ len) }
        ensures piece { result.piece ≡ None }
    {
        PieceReader {
            file,
            len,
            at: 0,
            piece: None,
            alloc,
        }
    }

    // The octets of the piece from a place of the file on; none where it doesn't hold the one there.
    fn held(&self, at: u64) -> &[u8]
        ensures { result.now ≡ held_from self.now at }
    {
        match &self.piece {
            Some(piece) if at >= self.at && at - self.at < piece.len() as u64 => {
                &piece.as_slice()[(at - self.at) as usize..]
            }
            _ => &[],
        }
    }

    // This many octets of the piece, as a slice of it; None where it doesn't hold them all.
    fn part_held(&self, at: u64, size: usize) -> Result<Option<Octets>, AllocError>
        ensures some { IfOk result (λ part. IfSome part (λ octets. (octets ≡ take size (held_from self.now at)) ×
            (size ≤ length (held_from self.now at)))) }
        ensures none { IfOk result (λ part. part ≡ None → length (held_from self.now at) ≤ size) }
    {
        match &self.piece {
            Some(piece) if at >= self.at && at - self.at <= piece.len() as u64 => {
                let from = (at - self.at) as usize;
                if size > piece.len() - from {
                    return Ok(None);
                }
                Ok(Some(piece.slice(from, from + size)?))
            }
            _ => Ok(None),
        }
    }

    // Has the piece hold this many octets from a place on. Where it doesn't, the next piece begins there.
    fn hold<D: Disk>(&mut self, disk: &mut D, at: u64, size: usize) -> Result<(), JournalFault>
        requires { IsTrue D.device.is_transparent →
            IsReading self.old (D.device.reads disk.old self.old.file) × (at + size ≤ self.old.len) }
        ensures held { OnOk result (size ≤ length (held_from self.new at)) }
        ensures piece { IsTrue D.device.is_transparent →
            IsPieceOf self.new (D.device.reads disk.old self.old.file) }
        ensures file { (self.new.file ≡ self.old.file) × (self.new.len ≡ self.old.len) }
        ensures looked { OnlyReads D.device disk.old disk.new }
        ensures only { IfErr result (λ e. (e ≡ DiskFault false) ⊎ (e ≡ OutOfMemory)) }
        ensures cause { result ≡ Err (DiskFault false) →
            raised (D.device.fault_count disk.old) ≤ D.device.fault_count disk.new }
        ensures told { TellsFaults D.device disk.old disk.new result }
    {
        if self.held(at).len() >= size {
            return Ok(());
        }
        let left = self.len.saturating_sub(at).min(PIECE_LEN);
        let mut octets = Vec::new(self.alloc);
        octets.resize((left as usize).max(size), 0)?;
        read_at(disk, self.file, at, &mut octets)?;
        self.piece = Some(Octets::from_vec(self.alloc, octets)?);
        self.at = at;
        Ok(())
    }

    /// One octet.
    pub fn octet<D: Disk>(&mut self, disk: &mut D, at: u64) -> Result<u8, JournalFault>
        requires { IsTrue D.device.is_transparent →
            IsReading self.old (D.device.reads disk.old self.old.file) × (at < self.old.len) }
        ensures octet { IsTrue D.device.is_transparent →
            IfOk result (λ octet. octet ≡ get_or (D.device.reads disk.old self.old.file) at 0) }
        ensures piece { IsTrue D.device.is_transparent →
            IsPieceOf self.new (D.device.reads disk.old self.old.file) }
        ensures file { (self.new.file ≡ self.old.file) × (self.new.len ≡ self.old.len) }
        ensures looked { OnlyReads D.device disk.old disk.new }
        ensures only { IfErr result (λ e. (e ≡ DiskFault false) ⊎ (e ≡ OutOfMemory)) }
        ensures cause { result ≡ Err (DiskFault false) →
            raised (D.device.fault_count disk.old) ≤ D.device.fault_count disk.new }
        ensures told { TellsFaults D.device disk.old disk.new result }
    {
        self.hold(disk, at, 1)?;
        Ok(self.held(at)[0])
    }

    /// A number of four octets.
    pub fn number<D: Disk>(&mut self, disk: &mut D, at: u64) -> Result<u32, JournalFault>
        requires { IsTrue D.device.is_transparent →
            IsReading self.old (D.device.reads disk.old self.old.file) × (at + 4 ≤ self.old.len) }
        ensures number { IsTrue D.device.is_transparent → IfOk result (λ number.
            (number ≡ from_be_bytes w32 (take 4 (drop at (D.device.reads disk.old self.old.file))))
            × (to_be_bytes w32 number ≡ take 4 (drop at (D.device.reads disk.old self.old.file)))) }
        ensures piece { IsTrue D.device.is_transparent →
            IsPieceOf self.new (D.device.reads disk.old self.old.file) }
        ensures file { (self.new.file ≡ self.old.file) × (self.new.len ≡ self.old.len) }
        ensures looked { OnlyReads D.device disk.old disk.new }
        ensures only { IfErr result (λ e. (e ≡ DiskFault false) ⊎ (e ≡ OutOfMemory)) }
        ensures cause { result ≡ Err (DiskFault false) →
            raised (D.device.fault_count disk.old) ≤ D.device.fault_count disk.new }
        ensures told { TellsFaults D.device disk.old disk.new result }
    {
        self.hold(disk, at, 4)?;
        Ok(number_of(&self.held(at)[..4]))
    }

    /// A run of octets: a slice of the piece that holds it, or what the piece holds of it and the rest straight from the
    /// disk, which a next piece need not hold.
    pub fn octets<D: Disk>(
        &self,
        alloc: Global,
        disk: &mut D,
        at: u64,
        size: u32,
    ) -> Result<Octets, JournalFault>
        requires inside { at + size < 2 ^ 64 }
        requires reading { IsTrue D.device.is_transparent →
            IsReading self.now (D.device.reads disk.old self.now.file) × (at + size ≤ self.now.len) }
        ensures octets { IsTrue D.device.is_transparent → IfOk result (λ octets.
            octets ≡ take size (drop at (D.device.reads disk.old self.now.file))) }
        ensures long { IfOk result (λ octets. length octets ≡ size) }
        ensures looked { OnlyReads D.device disk.old disk.new }
        ensures only { IfErr result (λ e. (e ≡ DiskFault false) ⊎ (e ≡ OutOfMemory)) }
        ensures cause { result ≡ Err (DiskFault false) →
            raised (D.device.fault_count disk.old) ≤ D.device.fault_count disk.new }
        ensures told { TellsFaults D.device disk.old disk.new result }
    {
        let size = size as usize;
        match self.part_held(at, size)? {
            Some(part) => return Ok(part),
            None => {}
        }
        let held = self.held(at);
        let mut octets = Vec::new(alloc);
        octets.reserve(size)?;
        octets.extend_from_slice(held)?;
        octets.resize(size, 0)?;
        let rest = held.len();
        read_at(disk, self.file, at + rest as u64, &mut octets[rest..])?;
        Ok(Octets::from_vec(alloc, octets)?)
    }
}
