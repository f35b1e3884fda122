//! What the records of file 0 say, one after the other.

ghost use Rattle.std.specs.Prelude.{◌≡◌, ◌++◌, [], ◌∷◌, true, false, is_some, IsTrue, IfOk, IfSome, IfNone};
ghost use Rattle.seal_codec.specs.declared.seal.Seal.{Seal as ASeal};
ghost use Rattle.seal_codec.specs.Seals.{IsSeal};
ghost use Rattle.archive_images.specs.Moments.{MayFollow};
ghost use Rattle.archive_images.specs.SealFiles.{seal_record};
ghost use Rattle.sealed_images.specs.Damage.{FollowsInZero};
ghost use Rattle.sealed_images.specs.Records.{CanFollow};
ghost use Rattle.sealed_opening.specs.Zero.{IsEntryTaken, IsLastOf, IsSealTaken, IsTakenInZero, IsZeroKept, zero_said};

use crate::records::RecordRules;
use arch_types::octets::Octets;
use archive_reading::{PartialArchive, take_in};
use field_codec::{Entry, NotAnEntry, read_shared};
use seal_codec::{Seal, names_above};
use std::alloc::{AllocError, Global};

/// The octet with which the record of a seal begins.
const SEAL_KIND: u8 = 4;

/// What the records of file 0 have said so far.
#[derive(Drop)]
pub(crate) struct ZeroRecords {
    pub(crate) made: Option<PartialArchive>,
    pub(crate) seals: Vec<Seal>,
}

/// Whether octets begin as the record of a seal does.
fn begin_as_seal(octets: &[u8]) -> bool
    ensures { result ≡ false → (seal : ASeal) → octets.now ≡ seal_record seal → ⊥ }
{
    match octets.first() {
        Some(kind) => *kind == SEAL_KIND,
        None => false,
    }
}

/// The seal that all of the octets spell, if they spell one. The one error is want of memory.
fn seal_of(alloc: Global, body: &Octets) -> Result<Option<Seal>, AllocError>
    ensures some { IfOk result (λ found. IfSome found (λ seal. IsSeal seal × (body.now ≡ seal_record seal))) }
    ensures none { IfOk result (λ found. IfNone found
        ((seal : ASeal) → IsSeal seal → body.now ≡ seal_record seal → ⊥)) }
{
    if !begin_as_seal(body.as_slice()) {
        return Ok(None);
    }
    let entry = match read_shared(alloc, body) {
        Ok(entry) => entry,
        Err(NotAnEntry::Malformed) => return Ok(None),
        Err(NotAnEntry::OutOfMemory) => return Err(AllocError),
    };
    match entry {
        Entry::Seal(seal) => Ok(Some(seal)),
        _ => Ok(None),
    }
}

/// The log of the last of seals, and how many rows it seals; 0 for each where there is none.
fn last_of(seals: &[Seal]) -> (u32, u64)
    ensures { IsLastOf seals.now result.0 result.1 }
{
    match seals.last() {
        Some(last) => (last.log, last.rows),
        None => (0, 0),
    }
}

impl ZeroRecords {
    /// Whether a seal may stand behind these records.
    fn may_stand(&self, seal: &Seal) -> bool
        requires kept { IsZeroKept self.now }
        requires fits { IsSeal seal.now }
        ensures made { IsTrue result → is_some self.now.made ≡ true }
        ensures follows { IsTrue result → MayFollow (self.now.seals.items ++ seal.now ∷ []) }
        ensures no { is_some self.now.made ≡ true → MayFollow (self.now.seals.items ++ seal.now ∷ []) → IsTrue result }
    {
        if self.made.is_none() {
            return false;
        }
        let (file, rows) = last_of(self.seals.as_slice());
        let is_grown = rows <= seal.rows;
        is_grown && names_above(seal, file)
    }

    /// With a seal more, where it may stand there; else none. The one error is want of memory.
    fn with_seal(self, seal: Seal) -> Result<Option<Self>, AllocError>
        requires kept { IsZeroKept self }
        requires fits { IsSeal seal }
        ensures taken { IfOk result (λ next. IfSome next (IsSealTaken self (seal_record seal))) }
        ensures kept { IfOk result (λ next. IfSome next IsZeroKept) }
        ensures none { IfOk result (λ next. IfNone next
            (CanFollow FollowsInZero (zero_said self) (seal_record seal) → ⊥)) }
    {
        if !self.may_stand(&seal) {
            return Ok(None);
        }
        let ZeroRecords { made, mut seals } = self;
        seals.push(seal)?;
        Ok(Some(ZeroRecords { made, seals }))
    }

    /// With an entry more, where the body is one and it may stand there; else none. The one error is want of memory.
    fn with_entry(self, alloc: Global, body: &Octets) -> Result<Option<Self>, AllocError>
        requires kept { IsZeroKept self }
        requires no_seal { (seal : ASeal) → IsSeal seal → body.now ≡ seal_record seal → ⊥ }
        ensures taken { IfOk result (λ next. IfSome next (IsEntryTaken self body.now)) }
        ensures kept { IfOk result (λ next. IfSome next IsZeroKept) }
        ensures none { IfOk result (λ next. IfNone next
            (CanFollow FollowsInZero (zero_said self) body.now → ⊥)) }
    {
        if !self.seals.as_slice().is_empty() {
            return Ok(None);
        }
        let ZeroRecords { mut made, seals } = self;
        let is_taken = take_in(alloc, &mut made, body)?;
        if !is_taken {
            return Ok(None);
        }
        Ok(Some(ZeroRecords { made, seals }))
    }
}

impl RecordRules for ZeroRecords {
    ghost is_kept = { IsZeroKept };

    ghost may_follow = { λ was body. CanFollow FollowsInZero (zero_said was) body };

    ghost follows = { IsTakenInZero };

    fn take(self, alloc: Global, body: &Octets) -> Result<Option<Self>, AllocError> {
        let found = seal_of(alloc, body)?;
        match found {
            Some(seal) => self.with_seal(seal),
            None => self.with_entry(alloc, body),
        }
    }
}
