//! Conditions whose comparisons know where on the path above their parameters stand.

ghost use Rattle.std.specs.Prelude.{◌≡◌, ◌==◌, ◌++◌, List, map, IfOk};
ghost use Rattle.std.specs.List.{position, position_or_len};
ghost use Rattle.mdb_items.specs.Paths.{ContainerPath, path_at, paths_of};
ghost use Rattle.mdb_lookups.specs.PlacedConditions.{ArePlacedConditions, path_parameters, with_place};

use item_list::items::Items;
use mdb_items::container::{Comparison, Container, ParameterEntry};
use std::alloc::{AllocError, Global};

/// The parameters of the path of the container with a number; above the root there are none.
fn parameters_at(paths: &[Items<usize>], number: Option<usize>) -> &[usize]
    ensures { (all : List ContainerPath) → paths.now ≡ map path_parameters all → result.now ≡ path_parameters (path_at all number) }
{
    let Some(number) = number else {
        return &[];
    };
    match paths.get(number) {
        None => &[],
        Some(parameters) => parameters.as_slice(),
    }
}

/// The parameters of entries behind those above them.
fn parameters_below(
    alloc: Global,
    above: &[usize],
    entries: &[ParameterEntry],
) -> Result<Vec<usize>, AllocError>
    ensures { IfOk result (λ parameters. parameters.items ≡ above.now ++ map (λ e. e.parameter) entries.now) }
{
    let mut parameters = Vec::new(alloc);
    parameters.extend_from_slice(above)?;
    for entry in entries {
        parameters.push(entry.parameter)?;
    }
    Ok(parameters)
}

/// For each container the parameters of its path.
fn parameters_of_paths(
    alloc: Global,
    containers: &[Container],
) -> Result<Vec<Items<usize>>, AllocError>
    ensures { IfOk result (λ paths. paths.items ≡ map path_parameters (paths_of containers.now)) }
{
    let mut paths = Vec::with_capacity(alloc, containers.len())?;
    for container in containers {
        let above = parameters_at(paths.as_slice(), container.parent);
        let parameters = parameters_below(alloc, above, container.entries.as_slice())?;
        paths.push(Items::from_vec(parameters))?;
    }
    Ok(paths)
}

/// The place of a parameter among others, where it is among them.
fn found_at(parameters: &[usize], parameter: usize) -> Option<usize>
    ensures { result ≡ position (λ p. p == parameter) parameters.now }
{
    parameters.iter().position(|p| *p == parameter)
}

/// How many parameters stand before one, or how many there are where it isn't among them.
fn place_among(parameters: &[usize], parameter: usize) -> usize
    ensures { result ≡ position_or_len (λ p. p == parameter) parameters.now }
{
    match found_at(parameters, parameter) {
        None => parameters.len(),
        Some(place) => place,
    }
}

/// A comparison with the place of its parameter on a path.
fn with_place(parameters: &[usize], comparison: Comparison) -> (Comparison, usize)
    ensures { result ≡ with_place parameters.now comparison }
{
    (comparison, place_among(parameters, comparison.parameter))
}

/// The comparisons of a condition, each with its place on the path above.
fn placed_condition(
    alloc: Global,
    parameters: &[usize],
    condition: &[Comparison],
) -> Result<Vec<(Comparison, usize)>, AllocError>
    ensures { IfOk result (λ comparisons. comparisons.items ≡ map (with_place parameters.now) condition.now) }
{
    let mut comparisons = Vec::with_capacity(alloc, condition.len())?;
    for comparison in condition {
        comparisons.push(with_place(parameters, *comparison))?;
    }
    Ok(comparisons)
}

/// For each container its condition, each comparison with the place at which its parameter stands among the entries of the
/// path of the parent, counted from 0, the root's first; one that isn't there has the place behind the last.
pub(crate) fn placed_conditions(
    alloc: Global,
    containers: &[Container],
) -> Result<Vec<Items<(Comparison, usize)>>, AllocError>
    ensures { IfOk result (λ conditions. ArePlacedConditions containers.now conditions.items) }
{
    let paths = parameters_of_paths(alloc, containers)?;
    let mut conditions = Vec::with_capacity(alloc, containers.len())?;
    for container in containers {
        let parameters = parameters_at(paths.as_slice(), container.parent);
        let comparisons = placed_condition(alloc, parameters, container.condition.as_slice())?;
        conditions.push(Items::from_vec(comparisons))?;
    }
    Ok(conditions)
}
