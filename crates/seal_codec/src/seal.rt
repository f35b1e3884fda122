//! What a seal says, as octets.

ghost use Rattle.std.specs.Prelude.{◌≡◌, ◌++◌, ◌≤◌, length, OnOk};
ghost use Rattle.octet_fields.specs.declared.fault.DecodeError.TheVariants.{OutOfMemory};
ghost use Rattle.octet_fields.specs.Answers.{Gives, ReadsEach, ReadsOnly};
ghost use Rattle.octet_fields.specs.Reading.{whole};
ghost use Rattle.seal_codec.specs.Files.{are_rising, files_named};
ghost use Rattle.seal_codec.specs.Seals.{IsSeal, IsSealedRun, is_run_count, runs_at, seal_at, seal_octets, sealed_run_at, sealed_run_octets};

use item_list::Items;
use octet_fields::{
    Decode, DecodeError, Encode, each_at, put_each, put_u8, put_u32, put_u64, u8_at, u32_at, u64_at,
};
use std::alloc::{AllocError, Global};

/// The rows of a table stand in a run.
#[derive(Clone, Copy, Debug, PartialEq, Eq)]
pub struct SealedRun {
    pub table: u8,
    /// The run's file.
    pub file: u32,
}

/// At most one for each table.
pub type SealedRuns = Items<SealedRun>;

/// The most runs that a seal names.
const MOST_RUNS: usize = 16;

/// From a seal on the first rows of the history stand in the runs of this and of earlier seals.
#[derive(Drop)]
pub struct Seal {
    /// How many rows these are.
    pub rows: u64,
    /// The file of the log that goes on from there.
    pub log: u32,
    /// The file of the fills that the log before had.
    pub fills: u32,
    /// Where the rows stand that came since the seal before.
    pub runs: SealedRuns,
}

/// How a seal's run is spelled.
struct RunCodec;

impl Decode for RunCodec {
    type Value = SealedRun;

    const LEAST_OCTETS: usize = 5;

    ghost read = { sealed_run_at };

    #[tactic(auto, unfolding(crate::specs::Seals::sealed_run_at))]
    fn at(_alloc: Global, octets: &[u8]) -> Result<(SealedRun, &[u8]), DecodeError> {
        let (table, rest) = u8_at(octets)?;
        let (file, rest) = u32_at(rest)?;
        Ok((SealedRun { table, file }, rest))
    }
}

impl Encode for RunCodec {
    type Value = SealedRun;

    ghost fits = { IsSealedRun };

    ghost spell = { sealed_run_octets };

    #[tactic(auto, unfolding(crate::specs::Seals::sealed_run_octets))]
    fn put(out: &mut Vec<u8>, run: &SealedRun) -> Result<(), AllocError> {
        put_u8(out, run.table)?;
        put_u32(out, run.file)
    }
}

/// The runs at the front, behind their count.
#[tactic(auto, unfolding(crate::specs::Seals::runs_at))]
fn runs_at(alloc: Global, octets: &[u8]) -> Result<(SealedRuns, &[u8]), DecodeError>
    ensures { Gives (λ x. (x.0, x.1.now)) result (runs_at octets.now) }
{
    let (count, rest) = u8_at(octets)?;
    if usize::from(count) > MOST_RUNS {
        return Err(DecodeError::Malformed);
    }
    let (runs, rest) = each_at::<RunCodec>(alloc, usize::from(count), rest)?;
    Ok((SealedRuns::from_vec(runs), rest))
}

/// The seal whose fields stand at the front.
#[tactic(auto, unfolding(crate::specs::Seals::seal_at))]
fn seal_at(alloc: Global, octets: &[u8]) -> Result<(Seal, &[u8]), DecodeError>
    ensures { Gives (λ x. (x.0, x.1.now)) result (seal_at octets.now) }
{
    let (rows, rest) = u64_at(octets)?;
    let (log, rest) = u32_at(rest)?;
    let (fills, rest) = u32_at(rest)?;
    let (runs, rest) = runs_at(alloc, rest)?;
    let seal = Seal {
        rows,
        log,
        fills,
        runs,
    };
    Ok((seal, rest))
}

/// The seal that all of the octets are.
fn whole_seal(alloc: Global, octets: &[u8]) -> Result<Seal, DecodeError>
    ensures { Gives (λ seal. seal) result (whole seal_at octets.now) }
{
    let (seal, rest) = seal_at(alloc, octets)?;
    if !rest.is_empty() {
        return Err(DecodeError::Malformed);
    }
    Ok(seal)
}

/// The seal whose fields all of the octets spell. Memory is wanting for its runs alone.
pub fn read_seal(alloc: Global, octets: &[u8]) -> Result<Seal, DecodeError>
    // Ok: the octets are the one spelling of this seal.
    ensures spelled { ReadsOnly IsSeal seal_octets (λ seal. seal) octets.now result }

    // Octets that spell a seal give it, unless memory is wanting.
    ensures each { ReadsEach IsSeal seal_octets (λ seal. seal) (λ e. e ≡ OutOfMemory) octets.now result }
{
    whole_seal(alloc, octets)
}

/// Adds the one spelling of a seal's fields to a buffer: 17 octets, and 5 for each run.
#[tactic(auto, unfolding(crate::specs::Seals::seal_octets, octet_fields::specs::Spelling::counted))]
pub fn put_seal(out: &mut Vec<u8>, seal: &Seal) -> Result<(), AllocError>
    requires { IsSeal seal.now }
    ensures { OnOk result (out.new.items ≡ out.old.items ++ seal_octets seal.now) }
{
    put_u64(out, seal.rows)?;
    put_u32(out, seal.log)?;
    put_u32(out, seal.fills)?;
    put_u8(out, seal.runs.len() as u8)?;
    put_each::<RunCodec>(out, seal.runs.as_slice())
}

/// Whether the files that a seal names rise, its runs' first, then that of its fills, then its log, all above this one.
pub fn names_above(seal: &Seal, file: u32) -> bool
    ensures { result ≡ are_rising file (files_named seal.now) }
{
    let mut last = file;
    for run in seal.runs.as_slice() {
        if run.file <= last {
            return false;
        }
        last = run.file;
    }
    last < seal.fills && seal.fills < seal.log
}
