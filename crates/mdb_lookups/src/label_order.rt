//! The labels of calibrations in the order of their raw numbers.

ghost use Rattle.std.specs.Prelude.{◌≡◌, List, length, IfOk, OnOk};
ghost use Rattle.mdb_items.specs.declared.calibration.Calibration.{Calibration};
ghost use Rattle.mdb_items.specs.declared.calibration.EnumRow.{EnumRow};
ghost use Rattle.mdb_lookups.specs.LabelOrder.{AreLabelOrders, AreLabelsSorted, label_row, label_row_by, labels_of_calibrator};
ghost use Rattle.mdb_lookups.specs.Lookups.{calibration_numbered};

use item_list::items::Items;
use mdb_items::calibration::{Calibration, Calibrator, EnumRow};
use std::alloc::{AllocError, Global};

/// The labels of a calibrator: a polynomial and points have none.
fn labels_of(calibrator: &Calibrator) -> &[EnumRow]
    ensures { result.now ≡ labels_of_calibrator calibrator.now }
{
    match calibrator {
        Calibrator::Enum(labels) => labels.as_slice(),
        _ => &[],
    }
}

/// The raw numbers of labels with their rows, sorted.
fn sorted_labels(alloc: Global, labels: &[EnumRow]) -> Result<Vec<(i128, usize)>, AllocError>
    ensures { IfOk result (λ numbered. AreLabelsSorted labels.now numbered.items) }
{
    let mut numbered = Vec::with_capacity(alloc, labels.len())?;
    for (row, label) in labels.iter().enumerate() {
        numbered.push((label.x, row))?;
    }
    numbered.sort_unstable();
    Ok(numbered)
}

/// For each calibration the raw numbers of its labels, each with its row, counted from 0, sorted by both; none for a
/// polynomial and for points.
pub(crate) fn label_orders(
    alloc: Global,
    calibrations: &[Calibration],
) -> Result<Vec<Items<(i128, usize)>>, AllocError>
    ensures { IfOk result (λ orders. AreLabelOrders calibrations.now orders.items) }
{
    let mut orders = Vec::with_capacity(alloc, calibrations.len())?;
    for calibration in calibrations {
        let numbered = sorted_labels(alloc, labels_of(&calibration.calibrator))?;
        orders.push(Items::from_vec(numbered))?;
    }
    Ok(orders)
}

/// The row of the label of a raw number, found by halving.
fn label_row(order: &[(i128, usize)], raw: i128) -> Option<usize>
    ensures { (labels : List EnumRow) → AreLabelsSorted labels order.now → result ≡ label_row labels raw }
{
    let place = order.partition_point(|label| label.0 < raw);
    let (number, row) = *order.get(place)?;
    if number == raw { Some(row) } else { None }
}

/// The row of the label that the calibration with a number gives a raw number, counted from 0, where there is such a
/// calibration and it gives one. The orders are those of `Lookups`; the label is found by halving.
pub fn label_row_by(
    orders: &[Items<(i128, usize)>],
    calibration: Option<usize>,
    raw: i128,
) -> Option<usize>
    ensures { (calibrations : List Calibration) → AreLabelOrders calibrations orders.now
        → result ≡ label_row_by (calibration_numbered calibrations calibration) raw }
{
    let order = orders.get(calibration?)?;
    label_row(order.as_slice(), raw)
}
