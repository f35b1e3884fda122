//! The containers sheet, row by row.

ghost use Rattle.std.specs.Prelude.{◌≡◌, ◌≤◌, ◌<◌, ◌+◌, ◌∷◌, ◌++◌, ◌==◌, [], List, length, map, slice_get, nat_le, not, ◌&&◌, None, Some, is_some, unwrap_or, option_copied, Ok, IfOk, OnOk};
ghost use Rattle.std.specs.List.{list_any, list_all};
ghost use Rattle.mdb_items.specs.Checks.{first_broken};
ghost use Rattle.mdb_items.specs.ContainerRows.{new_container_checks, compares_other, continued_checks, entry_checks, columns_checks, is_condition, is_continuing, is_known, is_nothing, is_parent, is_placed, is_repeated, is_too_far, last_path, path_up, with_entry, with_columns, with_new_entry};
ghost use Rattle.mdb_items.specs.declared.parameter.Parameter.{Parameter as ParameterValue};
ghost use Rattle.mdb_items.specs.declared.rows.ContainerColumns.TheVariants.{Begins as BeginsValue};
ghost use Rattle.mdb_items.specs.Paths.{bits_at, last_number, path_at, path_end, paths_of, stands_on, AreEarlier};
ghost use Rattle.mdb_items.specs.Limits.{longest_packet_bits};
ghost use Rattle.mdb_items.specs.Lists.{at_last, is_empty};
ghost use Rattle.mdb_items.specs.Numbers.{is_in_range};
ghost use Rattle.mdb_items.specs.ParameterRows.{referenced_number};
ghost use Rattle.mdb_rules.specs.Totals.{HasPaths, HasSomePaths, KeepsPaths, totals_at};
ghost use Rattle.mdb_items.specs.Texts.{place_of};

use crate::calibration_rows::is_in_range;
use crate::name_index::NameIndex;
use crate::parameter_rows::{is_reference, number_of};
use item_list::items::Items;
use mdb_items::container::{Comparison, Container, ParameterEntry};
use mdb_items::parameter::Parameter;
use mdb_items::rows::{ContainerColumns, EntryPosition, NewContainer, Reference};
use std::alloc::{AllocError, Global};
use text_forms::is_name;

/// What the path from the root down to a container comes to.
#[derive(Drop, Clone, Copy)]
pub struct PathTotals {
    /// How many containers stand on it.
    pub containers: usize,
    /// How many entries they have.
    pub entries: usize,
    /// The bit after the last of them, or 0.
    pub end: u32,
}

/// The containers of the rows so far, their names, and the totals of their paths.
#[derive(Drop)]
pub struct Containers {
    pub names: NameIndex,
    pub all_totals: Vec<PathTotals>,
    pub items: Vec<Container>,
}

fn is_nothing(reference: Reference) -> bool
    ensures { result ≡ is_nothing reference }
{
    matches!(reference, Reference::Nothing)
}

fn is_known(reference: Reference) -> bool
    ensures { result ≡ is_known reference }
{
    matches!(reference, Reference::Known(_))
}

fn is_parent(above: usize, parent: Reference) -> bool
    ensures { result ≡ is_parent above parent }
{
    match parent {
        Reference::Nothing => true,
        Reference::Unknown => false,
        Reference::Known(number) => number < above,
    }
}

fn is_empty<T>(items: &[T]) -> bool
    ensures { result ≡ is_empty items.now }
{
    items.is_empty()
}

/// A continuing row has no entry.
fn lacks_entry(continuing: bool, entry: Reference) -> bool
    ensures { result ≡ (continuing && is_nothing entry) }
{
    continuing && is_nothing(entry)
}

/// The entry would be one more than the 256 of a path.
fn is_one_more(entry: Reference, entries: usize) -> bool
    ensures { result ≡ (is_known entry && nat_le 256 entries) }
{
    is_known(entry) && 256 <= entries
}

fn is_placed(entry: Reference, position: EntryPosition) -> bool
    ensures { result ≡ is_placed entry position }
{
    match entry {
        Reference::Nothing => matches!(position, EntryPosition::Nothing),
        Reference::Unknown => false,
        Reference::Known(_) => matches!(position, EntryPosition::At(_)),
    }
}

pub fn is_continuing(columns: &ContainerColumns) -> bool
    ensures { result ≡ is_continuing columns.now }
{
    matches!(columns, ContainerColumns::Continues(_))
}

fn bits_at(parameters: &[Parameter], number: usize) -> u8
    ensures { result ≡ bits_at parameters.now number }
{
    match parameters.get(number) {
        Some(parameter) => parameter.bits,
        None => 0,
    }
}

fn is_too_far(parameters: &[Parameter], entry: Reference, position: EntryPosition) -> bool
    ensures { result ≡ is_too_far parameters.now entry position }
{
    let Reference::Known(number) = entry else {
        return false;
    };
    let EntryPosition::At(at) = position else {
        return false;
    };
    let bits = bits_at(parameters, number);
    at > 524_336 - bits as u64
}

fn are_in_range(comparisons: &[Comparison]) -> bool
    ensures { result ≡ list_all (λ c. is_in_range c.number) comparisons.now }
{
    comparisons.iter().all(|c| is_in_range(c.number))
}

fn is_condition(condition: &Option<Items<Comparison>>) -> bool
    ensures { result ≡ is_condition condition.now }
{
    match condition {
        None => false,
        Some(comparisons) => comparisons.len() <= 255 && are_in_range(comparisons.as_slice()),
    }
}

/// The comparisons of a condition, none where there's none.
fn comparisons_of(condition: &Option<Items<Comparison>>) -> &[Comparison]
    ensures { result.now ≡ unwrap_or condition.now [] }
{
    match condition {
        None => &[],
        Some(comparisons) => comparisons.as_slice(),
    }
}

fn condition_or_empty(alloc: Global, condition: Option<Items<Comparison>>) -> Items<Comparison>
    ensures { result ≡ unwrap_or condition [] }
{
    match condition {
        None => Items::new(alloc),
        Some(comparisons) => comparisons,
    }
}

fn has_entry(entries: &[ParameterEntry], parameter: usize) -> bool
    ensures { result ≡ stands_on entries.now parameter }
{
    entries.iter().any(|e| e.parameter == parameter)
}

impl Containers {
    pub fn new(alloc: Global) -> Containers
        ensures none { result.items.items ≡ [] }
        ensures names { result.names ≡ [] }
        ensures all_totals { result.all_totals.items ≡ [] }
    {
        Containers {
            names: NameIndex::new(alloc),
            all_totals: Vec::new(alloc),
            items: Vec::new(alloc),
        }
    }

    /// The number of the last container.
    pub fn last(&self) -> Option<usize>
        ensures { result ≡ last_number self.now.items.items }
    {
        let count = self.items.len();
        if count == 0 { None } else { Some(count - 1) }
    }

    fn get(&self, number: usize) -> Option<&Container>
        ensures { option_copied result ≡ slice_get self.now.items.items number }
    {
        self.items.get(number)
    }

    /// The totals of a container's path.
    fn totals(&self, number: Option<usize>) -> PathTotals
        ensures { result ≡ totals_at self.now.all_totals.items number }
    {
        let none = PathTotals {
            containers: 0,
            entries: 0,
            end: 0,
        };
        match number {
            None => none,
            Some(number) => {
                if number < self.all_totals.len() {
                    self.all_totals[number]
                } else {
                    none
                }
            }
        }
    }

    /// How many containers stand on the path from the root down to a container.
    fn depth(&self, number: Option<usize>) -> usize
        requires { HasSomePaths self.now }
        ensures { result ≡ (path_at (paths_of self.now.items.items) number).containers }
    {
        self.totals(number).containers
    }

    /// How many entries they have.
    fn entries_on_path(&self, number: Option<usize>) -> usize
        requires { HasSomePaths self.now }
        ensures { result ≡ length (path_at (paths_of self.now.items.items) number).entries }
    {
        self.totals(number).entries
    }

    /// The bit after the last of them.
    pub fn end_of_path(&self, number: Option<usize>) -> u32
        ensures { (parameters : List ParameterValue) → HasPaths parameters self.now →
            result ≡ path_end parameters (path_at (paths_of self.now.items.items) number) }
    {
        self.totals(number).end
    }

    /// The parameter is an entry of the container or of one above it.
    fn stands_on(&self, number: Option<usize>, parameter: usize) -> bool
        requires { AreEarlier self.now.items.items }
        ensures { result ≡ stands_on (path_at (paths_of self.now.items.items) number).entries parameter }
    {
        let mut at = number;
        'up: loop {
            let Some(number) = at else {
                return false;
            };
            let Some(container) = self.get(number) else {
                return false;
            };
            if has_entry(container.entries.as_slice(), parameter) {
                return true;
            }
            at = container.parent;
        }
    }

    /// The entry's parameter is an entry of the container or of one above it.
    fn is_repeated(&self, number: Option<usize>, entry: Reference) -> bool
        requires { AreEarlier self.now.items.items }
        ensures { result ≡ is_repeated (path_at (paths_of self.now.items.items) number).entries entry }
    {
        match entry {
            Reference::Nothing => false,
            Reference::Unknown => false,
            Reference::Known(parameter) => self.stands_on(number, parameter),
        }
    }

    /// A parameter is compared that is no entry of the container or of one above it.
    fn compares_other(&self, number: Option<usize>, comparisons: &[Comparison]) -> bool
        requires { AreEarlier self.now.items.items }
        ensures { result ≡ compares_other (path_at (paths_of self.now.items.items) number).entries comparisons.now }
    {
        for comparison in comparisons {
            if !self.stands_on(number, comparison.parameter) {
                return true;
            }
        }
        false
    }

    /// There are containers, and the new one has no parent.
    fn is_second_root(&self, parent: Reference) -> bool
        ensures { result ≡ (is_nothing parent && not (is_empty self.now.items.items)) }
    {
        is_nothing(parent) && !is_empty(self.items.as_slice())
    }

    /// There is no container yet, and the new one has a condition.
    fn is_root_with(&self, comparisons: &[Comparison]) -> bool
        ensures { result ≡ (is_empty self.now.items.items && not (is_empty comparisons.now)) }
    {
        is_empty(self.items.as_slice()) && !is_empty(comparisons)
    }

    /// The first rule that a row breaks which begins a container below these.
    fn new_container_broken(&self, begun: &NewContainer) -> Option<u8>
        requires { HasSomePaths self.now }
        ensures { result ≡ first_broken (new_container_checks self.now.items.items
            (path_up self.now.items.items begun.now) begun.now) }
    {
        let name = begun.name.as_bytes();
        if !is_name(name) {
            return Some(3);
        }
        if self.names.number(name).is_some() {
            return Some(5);
        }
        let parent = number_of(begun.parent);
        if 32 <= self.depth(parent) {
            return Some(29);
        }
        if !is_parent(self.items.len(), begun.parent) {
            return Some(16);
        }
        if self.is_second_root(begun.parent) {
            return Some(17);
        }
        if !is_condition(&begun.condition) {
            return Some(20);
        }
        if self.compares_other(parent, comparisons_of(&begun.condition)) {
            return Some(21);
        }
        if self.is_root_with(comparisons_of(&begun.condition)) {
            return Some(22);
        }
        if begun.archive.is_none() {
            return Some(23);
        }
        None
    }

    /// The first rule that the columns before a row's entry break, below these containers.
    pub fn columns_broken(&self, fields: usize, columns: &ContainerColumns) -> Option<u8>
        requires { HasSomePaths self.now }
        ensures { result ≡ first_broken ((2, not (fields == 6)) ∷ columns_checks self.now.items.items columns.now) }
    {
        if fields != 6 {
            return Some(2);
        }
        match columns {
            ContainerColumns::Begins(begun) => self.new_container_broken(begun),
            ContainerColumns::Continues(says) => {
                if is_empty(self.items.as_slice()) {
                    return Some(15);
                }
                if *says {
                    return Some(18);
                }
                None
            }
        }
    }

    /// Begins a container. After want of memory nothing is known of the containers.
    pub fn begin(&mut self, alloc: Global, begun: NewContainer) -> Result<(), AllocError>
        requires path { HasSomePaths self.old }
        requires sound { first_broken (new_container_checks self.old.items.items (path_up self.old.items.items begun)
            begun) ≡ None }
        ensures added { OnOk result (self.new.items.items ≡ with_columns self.old.items.items (BeginsValue begun)) }
        ensures path { OnOk result (KeepsPaths self.old self.new) }
    {
        let parent = number_of(begun.parent);
        let up = self.totals(parent);
        self.names
            .add(Vec::from_slice(alloc, begun.name.as_bytes())?)?;
        self.all_totals.push(PathTotals {
            containers: up.containers + 1,
            entries: up.entries,
            end: up.end,
        })?;
        self.items.push(Container {
            name: begun.name,
            parent,
            archive: begun.archive.unwrap_or(false),
            condition: condition_or_empty(alloc, begun.condition),
            entries: Items::new(alloc),
        })?;
        Ok(())
    }

    /// The first rule that a row's entry breaks, which goes to the end of the last container.
    pub fn entry_broken(
        &self,
        parameters: &[Parameter],
        continuing: bool,
        entry: Reference,
        position: EntryPosition,
    ) -> Option<u8>
        requires { HasPaths parameters.now self.now }
        ensures { result ≡ first_broken (entry_checks parameters.now (last_path self.now.items.items) continuing entry
            position) }
    {
        if !is_reference(parameters.len(), entry) {
            return Some(24);
        }
        let last = self.last();
        if self.is_repeated(last, entry) {
            return Some(25);
        }
        if lacks_entry(continuing, entry) {
            return Some(26);
        }
        if is_one_more(entry, self.entries_on_path(last)) {
            return Some(29);
        }
        if !is_placed(entry, position) {
            return Some(27);
        }
        if is_too_far(parameters, entry, position) {
            return Some(28);
        }
        None
    }

    /// Adds an entry to the last container. After want of memory nothing is known of the containers.
    pub fn enter(
        &mut self,
        parameters: &[Parameter],
        entry: ParameterEntry,
    ) -> Result<(), AllocError>
        requires path { HasPaths parameters.now self.old }
        requires begun { 0 < length self.old.items.items }
        requires room { length (last_path self.old.items.items).entries < 256 }
        requires near { entry.at + bits_at parameters.now entry.parameter ≤ longest_packet_bits }
        ensures added { OnOk result (self.new.items.items ≡ at_last (with_new_entry entry) self.old.items.items) }
        ensures path { OnOk result (HasPaths parameters.now self.new) }
    {
        let last = self.items.len() - 1;
        let totals = &mut self.all_totals[last];
        totals.entries += 1;
        totals.end = entry.at + bits_at(parameters, entry.parameter) as u32;
        let container = &mut self.items[last];
        container.entries.push(entry)
    }

    /// Takes the columns before a row's entry in, or answers the first rule that they break. After want of memory
    /// nothing is known of the containers.
    pub fn take_columns(
        &mut self,
        alloc: Global,
        fields: usize,
        columns: ContainerColumns,
    ) -> Result<Option<u8>, AllocError>
        requires { HasSomePaths self.old }
        ensures fault { IfOk result (λ rule.
            rule ≡ first_broken ((2, not (fields == 6)) ∷ columns_checks self.old.items.items columns)) }
        ensures added { result ≡ Ok None → self.new.items.items ≡ with_columns self.old.items.items columns }
        ensures path { result ≡ Ok None → KeepsPaths self.old self.new }
    {
        let rule = self.columns_broken(fields, &columns);
        if rule.is_some() {
            return Ok(rule);
        }
        match columns {
            ContainerColumns::Begins(begun) => {
                self.begin(alloc, begun)?;
                Ok(None)
            }
            ContainerColumns::Continues(_) => Ok(None),
        }
    }

    /// Takes a row's entry in, or answers the first rule that it breaks. After want of memory nothing is known of the
    /// containers.
    pub fn take_entry(
        &mut self,
        parameters: &[Parameter],
        continuing: bool,
        entry: Reference,
        position: EntryPosition,
    ) -> Result<Option<u8>, AllocError>
        requires path { HasPaths parameters.now self.old }
        requires begun { 0 < length self.old.items.items }
        ensures fault { IfOk result (λ rule.
            rule ≡ first_broken (entry_checks parameters.now (last_path self.old.items.items) continuing entry
            position)) }
        ensures added { result ≡ Ok None → self.new.items.items ≡ with_entry self.old.items.items entry position }
        ensures path { result ≡ Ok None → HasPaths parameters.now self.new }
    {
        let rule = self.entry_broken(parameters, continuing, entry, position);
        if rule.is_some() {
            return Ok(rule);
        }
        let Reference::Known(parameter) = entry else {
            return Ok(None);
        };
        let EntryPosition::At(at) = position else {
            return Ok(None);
        };
        self.enter(
            parameters,
            ParameterEntry {
                parameter,
                at: at as u32,
            },
        )?;
        Ok(None)
    }
}
