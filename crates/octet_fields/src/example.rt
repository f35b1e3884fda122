//! A worked example, for those who write a format upon this crate: a list of ground stations.
//!
//! The octets are a u16 count, and for each station a name, a u8 band (0 S, 1 X) and the signal's
//! delay in microseconds as i64. The type's `specs/Example.antt` has the spelling and the reader as
//! compositions, `proofs/Stations.antt` the one term that makes the reader exact.

ghost use Rattle.std.specs.Prelude.{◌≡◌, IfOk};
ghost use Rattle.std.specs.Int.{w16};
ghost use Rattle.octet_fields.specs.declared.fault.DecodeError.TheVariants.{OutOfMemory};
ghost use Rattle.octet_fields.specs.Answers.{Gives, ReadsEach, ReadsOnly};
ghost use Rattle.octet_fields.specs.Reading.{counted_at, whole};
ghost use Rattle.octet_fields.specs.Example.{AreStations, IsStation, band_at, spelling, station, station_at};

use crate::codec::{Decode, Encode, each_at, put_each};
use crate::fault::DecodeError;
use crate::reading::{i64_at, name_at, u8_at, u16_at};
use crate::writing::{put_i64, put_name, put_u8, put_u16};
use std::alloc::{AllocError, Global};
use std::marker::Model;

#[derive(Clone, Copy, Debug, PartialEq, Eq)]
pub enum Band {
    S,
    X,
}

#[derive(Debug, Drop)]
pub struct Station {
    pub name: Vec<u8>,
    pub band: Band,
    pub delay: i64,
}

impl Model for Station {
    ghost use Rattle.octet_fields.specs.Example.{Seen};

    ghost Value = { Seen };

    ghost view = { λ s. record { name = s.name.items; band = s.band; delay = s.delay } };
}

#[tactic(auto, unfolding(crate::specs::Example::band_at))]
fn band_at(octets: &[u8]) -> Result<(Band, &[u8]), DecodeError>
    ensures { Gives (λ x. (x.0, x.1.now)) result (band_at octets.now) }
{
    let (code, rest) = u8_at(octets)?;
    match code {
        0 => Ok((Band::S, rest)),
        1 => Ok((Band::X, rest)),
        _ => Err(DecodeError::Malformed),
    }
}

/// How a station is spelled.
struct StationCodec;

impl Decode for StationCodec {
    type Value = Station;

    const LEAST_OCTETS: usize = 10;

    ghost read = { station_at };

    #[tactic(auto, unfolding(crate::specs::Example::station_at))]
    fn at(alloc: Global, octets: &[u8]) -> Result<(Station, &[u8]), DecodeError> {
        let (name, rest) = name_at(octets)?;
        let (band, rest) = band_at(rest)?;
        let (delay, rest) = i64_at(rest)?;
        let name = Vec::from_slice(alloc, name)?;
        Ok((Station { name, band, delay }, rest))
    }
}

impl Encode for StationCodec {
    type Value = Station;

    ghost fits = { IsStation };

    ghost spell = { station };

    #[tactic(auto, unfolding(crate::specs::Example::station))]
    fn put(out: &mut Vec<u8>, s: &Station) -> Result<(), AllocError> {
        put_name(out, &s.name)?;
        let code = match s.band {
            Band::S => 0,
            Band::X => 1,
        };
        put_u8(out, code)?;
        put_i64(out, s.delay)
    }
}

#[tactic(auto, unfolding(crate::specs::Reading::counted_at))]
fn whole(alloc: Global, octets: &[u8]) -> Result<Vec<Station>, DecodeError>
    ensures { Gives (λ v. v.items) result (whole (counted_at w16 station_at) octets.now) }
{
    let (count, rest) = u16_at(octets)?;
    let (stations, rest) = each_at::<StationCodec>(alloc, usize::from(count), rest)?;
    if !rest.is_empty() {
        return Err(DecodeError::Malformed);
    }
    Ok(stations)
}

/// The stations that all of the octets spell.
pub fn read_stations(alloc: Global, octets: &[u8]) -> Result<Vec<Station>, DecodeError>
    ensures spelled { ReadsOnly AreStations spelling (λ v. v.items) octets.now result }
    ensures each { ReadsEach AreStations spelling (λ v. v.items) (λ e. e ≡ OutOfMemory) octets.now result }
{
    whole(alloc, octets)
}

/// The one spelling of the stations.
#[tactic(auto, unfolding(crate::specs::Spelling::counted))]
pub fn write_stations(alloc: Global, stations: &[Station]) -> Result<Vec<u8>, AllocError>
    requires { AreStations stations.now }
    ensures { IfOk result (λ v. v.items ≡ spelling stations.now) }
{
    let mut out = Vec::new(alloc);
    put_u16(&mut out, stations.len() as u16)?;
    put_each::<StationCodec>(&mut out, stations)?;
    Ok(out)
}
