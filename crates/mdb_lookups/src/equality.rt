//! Equality of items.

ghost use Rattle.std.specs.Prelude.{◌≡◌, ◌↔◌, IsTrue};

use mdb_items::calibration::{Calibration, Calibrator, EnumRow, PointsRow, PolyRow};
use mdb_items::container::{Comparison, Container, Operator, ParameterEntry};
use mdb_items::name::MdbName;
use mdb_items::parameter::{Coding, Parameter};

/// What is equal to another of its kind where all of their parts are.
pub trait Same {
    /// The other value has the same parts.
    fn is_same(&self, other: &Self) -> bool
        ensures { IsTrue result ↔ (self.now ≡ other.now) };
}

/// Lists are equal where they have as many items, and each equals the one at its place.
pub fn are_same<T: Same>(left: &[T], right: &[T]) -> bool
    ensures { IsTrue result ↔ (left.now ≡ right.now) }
{
    if left.len() != right.len() {
        return false;
    }
    for i in 0..left.len() {
        if !left[i].is_same(&right[i]) {
            return false;
        }
    }
    true
}

fn is_same_coding(left: Coding, right: Coding) -> bool
    ensures { IsTrue result ↔ (left ≡ right) }
{
    matches!(
        (left, right),
        (Coding::Uint, Coding::Uint)
            | (Coding::Int, Coding::Int)
            | (Coding::UintLe, Coding::UintLe)
            | (Coding::IntLe, Coding::IntLe)
    )
}

fn is_same_operator(left: Operator, right: Operator) -> bool
    ensures { IsTrue result ↔ (left ≡ right) }
{
    matches!(
        (left, right),
        (Operator::Equal, Operator::Equal)
            | (Operator::NotEqual, Operator::NotEqual)
            | (Operator::Less, Operator::Less)
            | (Operator::LessOrEqual, Operator::LessOrEqual)
            | (Operator::Greater, Operator::Greater)
            | (Operator::GreaterOrEqual, Operator::GreaterOrEqual)
    )
}

fn is_same_calibrator(left: &Calibrator, right: &Calibrator) -> bool
    ensures { IsTrue result ↔ (left.now ≡ right.now) }
{
    match (left, right) {
        (Calibrator::Poly(left), Calibrator::Poly(right)) => are_same(
            left.as_slice(),
            right.as_slice(),
        ),
        (Calibrator::Points(left), Calibrator::Points(right)) => are_same(
            left.as_slice(),
            right.as_slice(),
        ),
        (Calibrator::Enum(left), Calibrator::Enum(right)) => are_same(
            left.as_slice(),
            right.as_slice(),
        ),
        _ => false,
    }
}

fn is_same_name(left: &MdbName, right: &MdbName) -> bool
    ensures { IsTrue result ↔ (left.now ≡ right.now) }
{
    left.as_bytes() == right.as_bytes()
}

impl Same for PolyRow {
    fn is_same(&self, other: &PolyRow) -> bool {
        self.exponent == other.exponent && self.millionths == other.millionths
    }
}

impl Same for PointsRow {
    fn is_same(&self, other: &PointsRow) -> bool {
        self.x == other.x && self.millionths == other.millionths
    }
}

impl Same for EnumRow {
    fn is_same(&self, other: &EnumRow) -> bool {
        self.x == other.x && is_same_name(&self.label, &other.label)
    }
}

impl Same for Calibration {
    fn is_same(&self, other: &Calibration) -> bool {
        is_same_name(&self.name, &other.name)
            && is_same_calibrator(&self.calibrator, &other.calibrator)
    }
}

impl Same for Parameter {
    fn is_same(&self, other: &Parameter) -> bool {
        is_same_name(&self.name, &other.name)
            && is_same_coding(self.coding, other.coding)
            && self.bits == other.bits
            && self.calibration == other.calibration
    }
}

impl Same for Comparison {
    fn is_same(&self, other: &Comparison) -> bool {
        self.parameter == other.parameter
            && is_same_operator(self.operator, other.operator)
            && self.number == other.number
    }
}

impl Same for ParameterEntry {
    fn is_same(&self, other: &ParameterEntry) -> bool {
        self.parameter == other.parameter && self.at == other.at
    }
}

impl Same for Container {
    fn is_same(&self, other: &Container) -> bool {
        is_same_name(&self.name, &other.name)
            && self.parent == other.parent
            && self.archive == other.archive
            && are_same(self.condition.as_slice(), other.condition.as_slice())
            && are_same(self.entries.as_slice(), other.entries.as_slice())
    }
}
