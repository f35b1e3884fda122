//! The checked mission database.

ghost use Rattle.std.specs.Prelude.{◌≡◌, ◌<◌, ◌↔◌, IfOk, IfSome, Some, is_some, length, map, option_copied, slice_get, IsTrue};
ghost use Rattle.octet_fields.specs.declared.fault.DecodeError.TheVariants.{OutOfMemory};
ghost use Rattle.mdb_lookups.specs.Children.{children_of};
ghost use Rattle.mdb_items.specs.Database.{IsDatabase, limit_passed};
ghost use Rattle.mdb_lookups.specs.LabelOrder.{label_row_by};
ghost use Rattle.mdb_lookups.specs.Lookups.{calibration_numbered, calibration_of};
ghost use Rattle.mdb_lookups.specs.NumberedChildren.{AreByNumber, conditions_of};
ghost use Rattle.mdb_lookups.specs.PlacedConditions.{placed_condition};
ghost use Rattle.mdb_model.specs.SheetResults.{AreSpelledLists, IsCalibrationSheetResult, IsContainerSheetResult, IsParameterSheetResult, IsLimitsResult, database_of_lists};
ghost use Rattle.mdb_model.specs.Rechecking.{ListsRechecked, refusal};
ghost use Rattle.mdb_model.specs.Sheets.{IsCheckResult};
ghost use Rattle.mdb_octets.specs.Spelling.{database_octets};
ghost use Rattle.mdb_items.specs.Texts.{place_of};
ghost use Rattle.octet_fields.specs.Answers.{ReadsEach, ReadsOnly};

use crate::rechecking::{
    have_rows, rechecked_calibrations, rechecked_containers, rechecked_parameters,
};
use crate::sheet_rows::{is_calibration_header, is_container_header, is_parameter_header};
use crate::sheets::{calibrations_of, containers_of, parameters_of, record_at};
use item_list::items::Items;
use mdb_items::calibration::Calibration;
use mdb_items::container::{Comparison, Container};
use mdb_items::fault::{MdbFault, MdbLimit, MdbSheet};
use mdb_items::not_mdb::NotMdb;
use mdb_items::parameter::Parameter;
use mdb_items::sheet::{RawMdb, Sheet};
use mdb_lookups::equality::are_same;
use mdb_lookups::label_order::label_row_by;
use mdb_lookups::lookups::Lookups;
use mdb_lookups::name_order::number_of;
use mdb_lookups::numbered_children::NumberedChildren;
use mdb_octets::reading::{ItemLists, item_lists};
use mdb_octets::spelling::spelling;
use mdb_rules::calibration_rows::Calibrations;
use mdb_rules::container_rows::Containers;
use mdb_rules::limits::limit_passed;
use mdb_rules::parameter_rows::Parameters;
use octet_fields::DecodeError;
use std::alloc::{AllocError, Global};
use std::marker::Model;
use std::sync::Arc;

/// The items of a database, and what finds them.
#[derive(Drop)]
struct Inner {
    /// The numbers of the parameters in the order of their names.
    parameter_order: Vec<u16>,
    /// The numbers of the containers in the order of their names.
    container_order: Vec<u16>,
    parameters: Vec<Parameter>,
    calibrations: Vec<Calibration>,
    containers: Vec<Container>,
    /// For each container the numbers of those directly below it.
    children: Vec<Items<u16>>,
    /// For each container its condition, each comparison with its place on the path of the parent.
    placed_conditions: Vec<Items<(Comparison, usize)>>,
    /// For each container those directly below it, by the numbers that their conditions begin by asking for.
    numbered_children: Vec<NumberedChildren>,
    /// For each calibration the raw numbers of its labels with their rows, sorted.
    label_orders: Vec<Items<(i128, usize)>>,
}

impl Model for Inner {
    ghost use Rattle.mdb_items.specs.Database.{Database};

    ghost Value = { Database };

    ghost use Rattle.mdb_model.specs.Inside.{database_inside, MdbInvariant};

    ghost view = { database_inside };

    ghost invariant = { MdbInvariant };
}

/// A mission database that breaks no rule and passes no limit. Copies share its items.
#[derive(Drop)]
pub struct Mdb {
    inner: Arc<Inner, Global>,
}

impl Model for Mdb {
    ghost use Rattle.mdb_items.specs.Database.{Database};
    ghost use Rattle.std.specs.Arc.{arc_value};

    ghost Value = { Database };

    ghost view = { λ m. arc_value m.inner };
}

/// The refusal of a sheet without its header.
fn no_header(sheet: MdbSheet) -> MdbFault
    ensures { result ≡ MdbFault.Bad sheet 1 1 }
{
    MdbFault::Bad {
        sheet,
        row: 1,
        rule: 1,
    }
}

/// The calibrations of a sheet.
fn checked_calibrations(alloc: Global, sheet: &Sheet) -> Result<Calibrations, MdbFault>
    ensures { IsCalibrationSheetResult sheet.now result }
{
    let Some(header) = record_at(sheet, 0) else {
        return Err(no_header(MdbSheet::Calibrations));
    };
    if !is_calibration_header(&header) {
        return Err(no_header(MdbSheet::Calibrations));
    }
    calibrations_of(alloc, sheet)
}

/// The parameters of a sheet.
fn checked_parameters(
    alloc: Global,
    calibrations: &Calibrations,
    sheet: &Sheet,
) -> Result<Parameters, MdbFault>
    ensures { IsParameterSheetResult calibrations.now.items.items calibrations.now.names sheet.now result }
{
    let Some(header) = record_at(sheet, 0) else {
        return Err(no_header(MdbSheet::Parameters));
    };
    if !is_parameter_header(&header) {
        return Err(no_header(MdbSheet::Parameters));
    }
    parameters_of(alloc, calibrations, sheet)
}

/// The containers of a sheet.
fn checked_containers(
    alloc: Global,
    parameters: &Parameters,
    sheet: &Sheet,
) -> Result<Containers, MdbFault>
    requires { parameters.now.names ≡ map (λ p. p.name) parameters.now.items.items }
    ensures { IsContainerSheetResult parameters.now.items.items sheet.now result }
{
    let Some(header) = record_at(sheet, 0) else {
        return Err(no_header(MdbSheet::Containers));
    };
    if !is_container_header(&header) {
        return Err(no_header(MdbSheet::Containers));
    }
    containers_of(alloc, parameters, sheet)
}

/// The first limit that the rows pass.
fn limit_of(
    calibrations: &Calibrations,
    parameters: &Parameters,
    containers: &Containers,
) -> Option<(MdbLimit, usize)>
    ensures { result ≡ limit_passed (database_of_lists calibrations.now parameters.now containers.now) }
{
    limit_passed(
        parameters.items.as_slice(),
        calibrations.items.as_slice(),
        containers.items.as_slice(),
    )
}

/// The database of items.
fn shared(alloc: Global, inner: Inner) -> Result<Mdb, AllocError>
    ensures { IfOk result (λ mdb. mdb ≡ inner) }
{
    Ok(Mdb {
        inner: Arc::new(alloc, inner)?,
    })
}

/// The database of sound rows, or the first limit that they pass.
pub(crate) fn within_limits(
    alloc: Global,
    calibrations: Calibrations,
    parameters: Parameters,
    containers: Containers,
) -> Result<Mdb, MdbFault>
    requires { AreSpelledLists calibrations parameters containers }
    ensures { IsLimitsResult (database_of_lists calibrations parameters containers) result }
{
    if let Some((which, number)) = limit_of(&calibrations, &parameters, &containers) {
        return Err(MdbFault::Limit { which, number });
    }
    let lookups = Lookups::for_items(
        alloc,
        parameters.items.as_slice(),
        calibrations.items.as_slice(),
        containers.items.as_slice(),
    )?;
    let mdb = shared(
        alloc,
        Inner {
            parameter_order: lookups.parameter_order,
            container_order: lookups.container_order,
            parameters: parameters.items,
            calibrations: calibrations.items,
            containers: containers.items,
            children: lookups.children,
            placed_conditions: lookups.placed_conditions,
            numbered_children: lookups.numbered_children,
            label_orders: lookups.label_orders,
        },
    )?;
    Ok(mdb)
}

impl Mdb {
    /// The database that three sheets spell, or the first rule that they break, or else the first limit that they pass.
    pub fn check(alloc: Global, raw: &RawMdb) -> Result<Mdb, MdbFault>
        ensures { IsCheckResult raw.now result }
    {
        let calibrations = checked_calibrations(alloc, &raw.calibrations)?;
        let parameters = checked_parameters(alloc, &calibrations, &raw.parameters)?;
        let containers = checked_containers(alloc, &parameters, &raw.containers)?;
        within_limits(alloc, calibrations, parameters, containers)
    }
}

impl Mdb {
    /// How many parameters there are.
    pub fn parameters(&self) -> u16
        ensures { result ≡ length self.now.parameters }
    {
        self.inner.parameters.len() as u16
    }

    /// How many calibrations there are.
    pub fn calibrations(&self) -> u16
        ensures { result ≡ length self.now.calibrations }
    {
        self.inner.calibrations.len() as u16
    }

    /// How many containers there are.
    pub fn containers(&self) -> u16
        ensures { result ≡ length self.now.containers }
    {
        self.inner.containers.len() as u16
    }

    /// The number of the parameter that has a name.
    pub fn parameter_number(&self, name: &str) -> Option<u16>
        ensures value { result ≡ place_of name.now (map (λ p. p.name) self.now.parameters) }
        ensures within { IfSome result (λ n. n < length self.now.parameters) }
    {
        let inner = &*self.inner;
        number_of(
            inner.parameters.as_slice(),
            inner.parameter_order.as_slice(),
            name.as_bytes(),
        )
    }

    /// The number of the container that has a name.
    pub fn container_number(&self, name: &str) -> Option<u16>
        ensures value { result ≡ place_of name.now (map (λ c. c.name) self.now.containers) }
        ensures within { IfSome result (λ n. n < length self.now.containers) }
    {
        let inner = &*self.inner;
        number_of(
            inner.containers.as_slice(),
            inner.container_order.as_slice(),
            name.as_bytes(),
        )
    }

    /// The parameter with a number.
    pub fn parameter(&self, n: u16) -> &Parameter
        requires { n < length self.now.parameters }
        ensures { slice_get self.now.parameters n ≡ Some result.now }
    {
        &self.inner.parameters[n as usize]
    }

    /// The calibration with a number.
    pub fn calibration(&self, n: u16) -> &Calibration
        requires { n < length self.now.calibrations }
        ensures { slice_get self.now.calibrations n ≡ Some result.now }
    {
        &self.inner.calibrations[n as usize]
    }

    /// The container with a number.
    pub fn container(&self, n: u16) -> &Container
        requires { n < length self.now.containers }
        ensures { slice_get self.now.containers n ≡ Some result.now }
    {
        &self.inner.containers[n as usize]
    }

    /// The parameters in the order of their sheet.
    pub fn parameter_list(&self) -> &[Parameter]
        ensures value { result.now ≡ self.now.parameters }
        ensures sound { IsDatabase self.now }
    {
        self.inner.parameters.as_slice()
    }

    /// The calibration of the parameter with a number, where it has one.
    pub fn calibration_of(&self, parameter: u16) -> Option<&Calibration>
        requires { parameter < length self.now.parameters }
        ensures { option_copied result ≡ calibration_of self.now parameter }
    {
        let inner = &*self.inner;
        calibration_at(
            inner.calibrations.as_slice(),
            inner.parameters[parameter as usize].calibration,
        )
    }

    /// The row of the label that the calibration of the parameter with a number gives a raw number, counted from 0, where
    /// it gives one. However many labels there are, it is found by halving.
    pub fn label_row(&self, parameter: u16, raw: i128) -> Option<usize>
        requires { parameter < length self.now.parameters }
        ensures { result ≡ label_row_by (calibration_of self.now parameter) raw }
    {
        let inner = &*self.inner;
        label_row_by(
            inner.label_orders.as_slice(),
            inner.parameters[parameter as usize].calibration,
            raw,
        )
    }

    /// The calibrations in the order of their sheet.
    pub fn calibration_list(&self) -> &[Calibration]
        ensures value { result.now ≡ self.now.calibrations }
        ensures sound { IsDatabase self.now }
    {
        self.inner.calibrations.as_slice()
    }

    /// The containers in the order of their sheet.
    pub fn container_list(&self) -> &[Container]
        ensures value { result.now ≡ self.now.containers }
        ensures sound { IsDatabase self.now }
    {
        self.inner.containers.as_slice()
    }

    /// The numbers of the containers directly below the one with a number, in the order of their sheet.
    pub fn children(&self, n: u16) -> &[u16]
        requires { n < length self.now.containers }
        ensures { result.now ≡ children_of self.now.containers n }
    {
        self.inner.children[n as usize].as_slice()
    }

    /// The containers directly below the one with a number, by the numbers that their conditions begin by asking for.
    pub fn numbered_children(&self, n: u16) -> &NumberedChildren
        requires { n < length self.now.containers }
        ensures { AreByNumber (conditions_of self.now.containers) (children_of self.now.containers n) result.now }
    {
        let inner = &*self.inner;
        &inner.numbered_children[n as usize]
    }

    /// The condition of the container with a number, each comparison with the place at which its parameter stands among the
    /// entries of the path of the parent, counted from 0, the root's first. On that path a compared parameter stands; the
    /// place of one that didn't would be behind the last entry.
    pub fn placed_condition(&self, n: u16) -> &[(Comparison, usize)]
        requires { n < length self.now.containers }
        ensures { result.now ≡ placed_condition self.now.containers n }
    {
        self.inner.placed_conditions[n as usize].as_slice()
    }

    /// The database keeps the rules and the limits. This does nothing but tell a proof so.
    pub fn is_sound(&self)
        ensures { IsDatabase self.now }
    {
        let _ = &self.inner.parameters;
    }

    /// The other database has the same items.
    pub fn equals(&self, other: &Mdb) -> bool
        ensures { IsTrue result ↔ (self.now ≡ other.now) }
    {
        let left = &*self.inner;
        let right = &*other.inner;
        are_same(left.parameters.as_slice(), right.parameters.as_slice())
            && are_same(left.calibrations.as_slice(), right.calibrations.as_slice())
            && are_same(left.containers.as_slice(), right.containers.as_slice())
    }

    /// An equal value, which shares the items.
    pub fn copy(&self) -> Result<Mdb, AllocError>
        ensures { IfOk result (λ copy. copy ≡ self.now) }
    {
        Ok(Mdb {
            inner: Arc::try_clone(&self.inner)?,
        })
    }
}

/// The calibration with a number, where there is a number.
fn calibration_at(calibrations: &[Calibration], number: Option<usize>) -> Option<&Calibration>
    ensures { option_copied result ≡ calibration_numbered calibrations.now number }
{
    calibrations.get(number?)
}

/// How octets are refused whose lists make no database.
fn refusal(fault: MdbFault) -> DecodeError
    ensures { result ≡ refusal fault }
{
    match fault {
        MdbFault::Bad { .. } => DecodeError::Malformed,
        MdbFault::Limit { .. } => DecodeError::Malformed,
        MdbFault::OutOfMemory => DecodeError::OutOfMemory,
    }
}

/// The decoded lists pass a limit.
fn pass_limit(lists: &ItemLists) -> bool
    ensures { result ≡ is_some
        (limit_passed (record {
          parameters = lists.now.parameters.items;
          calibrations = lists.now.calibrations.items;
          containers = lists.now.containers.items;
        })) }
{
    limit_passed(&lists.parameters, &lists.calibrations, &lists.containers).is_some()
}

impl Mdb {
    /// The database of decoded lists, whose items are taken in again by the rules of the sheets, once the limits were
    /// asked.
    fn of_lists(alloc: Global, lists: &ItemLists) -> Result<Mdb, DecodeError>
        ensures { ListsRechecked (record {
          parameters = lists.now.parameters.items;
          calibrations =
              lists.now.calibrations.items;
          containers = lists.now.containers.items;
        }) result }
    {
        if pass_limit(lists) {
            return Err(DecodeError::Malformed);
        }
        if !have_rows(&lists.calibrations) {
            return Err(DecodeError::Malformed);
        }
        if lists.containers.is_empty() {
            return Err(DecodeError::Malformed);
        }
        let calibrations = rechecked_calibrations(alloc, &lists.calibrations)?;
        let parameters = rechecked_parameters(
            alloc,
            calibrations.items.as_slice(),
            &lists.parameters,
        )?;
        let containers = rechecked_containers(
            alloc,
            parameters.items.as_slice(),
            &lists.containers,
        )?;
        match within_limits(alloc, calibrations, parameters, containers) {
            Ok(mdb) => {
                mdb.is_sound();
                Ok(mdb)
            }
            Err(fault) => Err(refusal(fault)),
        }
    }

    /// The database that all of the octets spell: exactly what `to_bytes` gives is accepted. What was decoded is
    /// spelled anew, since lists that break no rule may spell a database whose own octets are others (D-62).
    pub fn from_bytes(alloc: Global, octets: &[u8]) -> Result<Mdb, NotMdb>
        ensures spelled { ReadsOnly IsDatabase database_octets (λ m. m) octets.now result }
        ensures each { ReadsEach IsDatabase database_octets (λ m. m) (λ e. e ≡ OutOfMemory) octets.now result }
    {
        let lists = item_lists(alloc, octets)?;
        let mdb = Mdb::of_lists(alloc, &lists)?;
        let own = mdb.to_bytes(alloc)?;
        if own.as_slice() != octets {
            return Err(NotMdb::Malformed);
        }
        Ok(mdb)
    }

    /// The database's one spelling in octets.
    pub fn to_bytes(&self, alloc: Global) -> Result<Vec<u8>, AllocError>
        ensures { IfOk result (λ v. v.items ≡ database_octets self.now) }
    {
        let inner = &*self.inner;
        spelling(
            alloc,
            inner.parameters.as_slice(),
            inner.calibrations.as_slice(),
            inner.containers.as_slice(),
        )
    }
}
