//! Reading a mission database from its octets, item by item; whether it breaks a rule isn't asked here.

ghost use Rattle.std.specs.Prelude.{◌≡◌, length};
ghost use Rattle.std.specs.Int.{w8, w16, w32};
ghost use Rattle.octet_fields.specs.Answers.{Answers, Gives};
ghost use Rattle.octet_fields.specs.Reading.{counted_at, whole};
ghost use Rattle.mdb_octets.specs.Reading.{archive_at, calibration_at, coding_at, comparison_at, container_at, database_at, entry_at, enum_at, from_link, link_at, operator_at, parameter_at, points_at, poly_at, calibrator_at};

use crate::codec::{
    CalibrationCodec, ComparisonCodec, ContainerCodec, EntryCodec, EnumRowCodec, ParameterCodec,
    PointsRowCodec, PolyRowCodec,
};
use item_list::items::Items;
use mdb_items::calibration::{Calibration, Calibrator, EnumRow, PointsRow, PolyRow};
use mdb_items::container::{Comparison, Container, Operator, ParameterEntry};
use mdb_items::name::MdbName;
use mdb_items::parameter::{Coding, Parameter};
use octet_fields::{
    Decode, DecodeError, Short, each_at, i64_at, i128_at, name_at, u8_at, u16_at, u32_at,
};
use std::alloc::Global;

/// The number of an item, where there is one.
#[tactic(auto, unfolding(crate::specs::Reading::link_at))]
fn link_at(octets: &[u8]) -> Result<(Option<usize>, &[u8]), Short>
    ensures { Answers (λ x. (x.0, x.1.now)) result (link_at octets.now) }
{
    let (link, rest) = u16_at(octets)?;
    let number = if link == 0 {
        None
    } else {
        Some(link as usize - 1)
    };
    Ok((number, rest))
}

#[tactic(auto, unfolding(crate::specs::Reading::coding_at))]
fn coding_at(octets: &[u8]) -> Result<(Coding, &[u8]), DecodeError>
    ensures { Gives (λ x. (x.0, x.1.now)) result (coding_at octets.now) }
{
    let (code, rest) = u8_at(octets)?;
    match code {
        0 => Ok((Coding::Uint, rest)),
        1 => Ok((Coding::Int, rest)),
        2 => Ok((Coding::UintLe, rest)),
        3 => Ok((Coding::IntLe, rest)),
        _ => Err(DecodeError::Malformed),
    }
}

impl Decode for ParameterCodec {
    type Value = Parameter;

    const LEAST_OCTETS: usize = 5;

    ghost read = { parameter_at };

    #[tactic(auto, unfolding(crate::specs::Reading::parameter_at))]
    fn at(alloc: Global, octets: &[u8]) -> Result<(Parameter, &[u8]), DecodeError> {
        let (name, rest) = name_at(octets)?;
        let (coding, rest) = coding_at(rest)?;
        let (bits, rest) = u8_at(rest)?;
        let (calibration, rest) = link_at(rest)?;
        let name = MdbName::from_slice(alloc, name)?;
        Ok((
            Parameter {
                name,
                coding,
                bits,
                calibration,
            },
            rest,
        ))
    }
}

impl Decode for PolyRowCodec {
    type Value = PolyRow;

    const LEAST_OCTETS: usize = 9;

    ghost read = { poly_at };

    #[tactic(auto, unfolding(crate::specs::Reading::poly_at))]
    fn at(_alloc: Global, octets: &[u8]) -> Result<(PolyRow, &[u8]), DecodeError> {
        let (exponent, rest) = u8_at(octets)?;
        let (millionths, rest) = i64_at(rest)?;
        Ok((
            PolyRow {
                exponent,
                millionths,
            },
            rest,
        ))
    }
}

impl Decode for PointsRowCodec {
    type Value = PointsRow;

    const LEAST_OCTETS: usize = 24;

    ghost read = { points_at };

    #[tactic(auto, unfolding(crate::specs::Reading::points_at))]
    fn at(_alloc: Global, octets: &[u8]) -> Result<(PointsRow, &[u8]), DecodeError> {
        let (x, rest) = i128_at(octets)?;
        let (millionths, rest) = i64_at(rest)?;
        Ok((PointsRow { x, millionths }, rest))
    }
}

impl Decode for EnumRowCodec {
    type Value = EnumRow;

    const LEAST_OCTETS: usize = 17;

    ghost read = { enum_at };

    #[tactic(auto, unfolding(crate::specs::Reading::enum_at))]
    fn at(alloc: Global, octets: &[u8]) -> Result<(EnumRow, &[u8]), DecodeError> {
        let (x, rest) = i128_at(octets)?;
        let (label, rest) = name_at(rest)?;
        let label = MdbName::from_slice(alloc, label)?;
        Ok((EnumRow { x, label }, rest))
    }
}

/// The kind, and the rows.
#[tactic(auto, unfolding(crate::specs::Reading::calibrator_at, octet_fields::specs::Reading::counted_at))]
fn calibrator_at(alloc: Global, octets: &[u8]) -> Result<(Calibrator, &[u8]), DecodeError>
    ensures { Gives (λ x. (x.0, x.1.now)) result (calibrator_at octets.now) }
{
    let (kind, rest) = u8_at(octets)?;
    if kind > 2 {
        return Err(DecodeError::Malformed);
    }
    let (count, rest) = u32_at(rest)?;
    match kind {
        0 => {
            let (rows, rest) = each_at::<PolyRowCodec>(alloc, count as usize, rest)?;
            Ok((Calibrator::Poly(Items::from_vec(rows)), rest))
        }
        1 => {
            let (rows, rest) = each_at::<PointsRowCodec>(alloc, count as usize, rest)?;
            Ok((Calibrator::Points(Items::from_vec(rows)), rest))
        }
        _ => {
            let (rows, rest) = each_at::<EnumRowCodec>(alloc, count as usize, rest)?;
            Ok((Calibrator::Enum(Items::from_vec(rows)), rest))
        }
    }
}

impl Decode for CalibrationCodec {
    type Value = Calibration;

    const LEAST_OCTETS: usize = 6;

    ghost read = { calibration_at };

    #[tactic(auto, unfolding(crate::specs::Reading::calibration_at))]
    fn at(alloc: Global, octets: &[u8]) -> Result<(Calibration, &[u8]), DecodeError> {
        let (name, rest) = name_at(octets)?;
        let (calibrator, rest) = calibrator_at(alloc, rest)?;
        let name = MdbName::from_slice(alloc, name)?;
        Ok((Calibration { name, calibrator }, rest))
    }
}

#[tactic(auto, unfolding(crate::specs::Reading::operator_at))]
fn operator_at(octets: &[u8]) -> Result<(Operator, &[u8]), DecodeError>
    ensures { Gives (λ x. (x.0, x.1.now)) result (operator_at octets.now) }
{
    let (code, rest) = u8_at(octets)?;
    match code {
        0 => Ok((Operator::Equal, rest)),
        1 => Ok((Operator::NotEqual, rest)),
        2 => Ok((Operator::Less, rest)),
        3 => Ok((Operator::LessOrEqual, rest)),
        4 => Ok((Operator::Greater, rest)),
        5 => Ok((Operator::GreaterOrEqual, rest)),
        _ => Err(DecodeError::Malformed),
    }
}

impl Decode for ComparisonCodec {
    type Value = Comparison;

    const LEAST_OCTETS: usize = 19;

    ghost read = { comparison_at };

    #[tactic(auto, unfolding(crate::specs::Reading::comparison_at))]
    fn at(_alloc: Global, octets: &[u8]) -> Result<(Comparison, &[u8]), DecodeError> {
        let (parameter, rest) = u16_at(octets)?;
        let (operator, rest) = operator_at(rest)?;
        let (number, rest) = i128_at(rest)?;
        let parameter = usize::from(parameter);
        Ok((
            Comparison {
                parameter,
                operator,
                number,
            },
            rest,
        ))
    }
}

impl Decode for EntryCodec {
    type Value = ParameterEntry;

    const LEAST_OCTETS: usize = 6;

    ghost read = { entry_at };

    #[tactic(auto, unfolding(crate::specs::Reading::entry_at))]
    fn at(_alloc: Global, octets: &[u8]) -> Result<(ParameterEntry, &[u8]), DecodeError> {
        let (parameter, rest) = u16_at(octets)?;
        let (at, rest) = u32_at(rest)?;
        let parameter = usize::from(parameter);
        Ok((ParameterEntry { parameter, at }, rest))
    }
}

#[tactic(auto, unfolding(crate::specs::Reading::archive_at))]
fn archive_at(octets: &[u8]) -> Result<(bool, &[u8]), DecodeError>
    ensures { Gives (λ x. (x.0, x.1.now)) result (archive_at octets.now) }
{
    let (code, rest) = u8_at(octets)?;
    match code {
        0 => Ok((false, rest)),
        1 => Ok((true, rest)),
        _ => Err(DecodeError::Malformed),
    }
}

impl Decode for ContainerCodec {
    type Value = Container;

    const LEAST_OCTETS: usize = 7;

    ghost read = { container_at };

    #[tactic(auto, unfolding(crate::specs::Reading::container_at, octet_fields::specs::Reading::counted_at))]
    fn at(alloc: Global, octets: &[u8]) -> Result<(Container, &[u8]), DecodeError> {
        let (name, rest) = name_at(octets)?;
        let (parent, rest) = link_at(rest)?;
        let (archive, rest) = archive_at(rest)?;
        let (count, rest) = u8_at(rest)?;
        let (condition, rest) = each_at::<ComparisonCodec>(alloc, usize::from(count), rest)?;
        let (count, rest) = u16_at(rest)?;
        let (entries, rest) = each_at::<EntryCodec>(alloc, usize::from(count), rest)?;
        let container = Container {
            name: MdbName::from_slice(alloc, name)?,
            parent,
            archive,
            condition: Items::from_vec(condition),
            entries: Items::from_vec(entries),
        };
        Ok((container, rest))
    }
}

/// The parameters, calibrations and containers that all of the octets spell.
#[derive(Drop)]
pub struct ItemLists {
    pub parameters: Vec<Parameter>,
    pub calibrations: Vec<Calibration>,
    pub containers: Vec<Container>,
}

#[tactic(auto, unfolding(crate::specs::Reading::database_at, octet_fields::specs::Reading::counted_at))]
pub fn item_lists(alloc: Global, octets: &[u8]) -> Result<ItemLists, DecodeError>
    ensures { Gives (λ l. record {
      parameters = l.parameters.items;
      calibrations = l.calibrations.items;
      containers =
          l.containers.items;
    }) result (whole database_at octets.now) }
{
    let (count, rest) = u16_at(octets)?;
    let (parameters, rest) = each_at::<ParameterCodec>(alloc, usize::from(count), rest)?;
    let (count, rest) = u16_at(rest)?;
    let (calibrations, rest) = each_at::<CalibrationCodec>(alloc, usize::from(count), rest)?;
    let (count, rest) = u16_at(rest)?;
    let (containers, rest) = each_at::<ContainerCodec>(alloc, usize::from(count), rest)?;
    if !rest.is_empty() {
        return Err(DecodeError::Malformed);
    }
    Ok(ItemLists {
        parameters,
        calibrations,
        containers,
    })
}
