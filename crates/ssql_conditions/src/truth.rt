//! Whether a condition is true of a row, piece by piece. It takes no memory: what is known inside each open
//! parenthesis stands in a fixed array, where there is a parenthesis.

ghost use Rattle.std.specs.Prelude.{◌≡◌, ◌+◌, ◌<◌, ◌≤◌, ◌^◌, ◌&&◌, ◌||◌, Bool, List, ◌∷◌, true, false};
ghost use Rattle.std.specs.List.{list_any};
ghost use Rattle.std.specs.Ordering.{int_eq};
ghost use Rattle.arch_types.specs.Packet.{IsPacket, apid_of};
ghost use Rattle.arrayvec.specs.ArrayVec.{array_vec_len};
ghost use Rattle.ssql_conditions.specs.Formulas.{OpenGroup, groups_behind, has_paren_room, is_paren, parens_behind, parens_fit, pieces_meaning};
ghost use Rattle.ssql_conditions.specs.Truth as spec;

use crate::condition::{Condition, TypedPiece};
use crate::predicate::{NameTest, NumberColumn, NumberTest, TypedPredicate};
use arch_types::row::Row;
use arch_types::steps::Steps;
use arrayvec::ArrayVec;
use ssql_tokens::ComparisonOperator;
use std::sync::ledger::Ledger;

/// What is known inside one parenthesis: of the conjunctions before the last OR, of the terms since, and how many NOT
/// stand before the next term.
#[derive(Clone, Copy)]
struct TruthGroup {
    any: bool,
    all: bool,
    nots: usize,
}

fn apid(packet: &[u8]) -> u16
    requires { IsPacket packet.now }
    ensures { result ≡ apid_of packet.now }
{
    256 * u16::from(packet[0] % 8) + u16::from(packet[1])
}

/// The value of a column in a row.
fn number_in_row(row: &Row, column: NumberColumn) -> i64
    requires { IsPacket row.now.packet }
    ensures { result ≡ spec.number_in_row row.now column }
{
    match column {
        NumberColumn::Gentime => row.key.time,
        NumberColumn::SeqNum => i64::from(row.key.seq),
        NumberColumn::Rectime => row.rectime,
        NumberColumn::Link => i64::from(row.link),
        NumberColumn::Apid => i64::from(apid(row.packet.as_slice())),
        NumberColumn::Length => row.packet.len() as i64,
    }
}

fn compares_as(operator: ComparisonOperator, a: i64, b: i64) -> bool
    ensures { result ≡ spec.compares_as operator a b }
{
    match operator {
        ComparisonOperator::Equal => a == b,
        ComparisonOperator::LessOrGreater | ComparisonOperator::NotEqual => a != b,
        ComparisonOperator::Less => a < b,
        ComparisonOperator::LessOrEqual => a <= b,
        ComparisonOperator::Greater => a > b,
        ComparisonOperator::GreaterOrEqual => a >= b,
    }
}

fn is_listed(numbers: &[i64], value: i64) -> bool
    ensures { result ≡ list_any (int_eq value) numbers.now }
{
    numbers.iter().any(|number| value == *number)
}

fn number_passes(test: &NumberTest, value: i64) -> bool
    ensures { result ≡ spec.number_passes test.now value }
{
    match test {
        NumberTest::Compare(operator, number) => compares_as(*operator, value, *number),
        NumberTest::In(numbers) => is_listed(numbers.as_slice(), value),
    }
}

fn is_pname(pname: u16, number: Option<u16>) -> bool
    ensures { result ≡ spec.is_pname pname number }
{
    match number {
        None => false,
        Some(number) => pname == number,
    }
}

fn is_listed_name(numbers: &[Option<u16>], pname: u16) -> bool
    ensures { result ≡ list_any (spec.is_pname pname) numbers.now }
{
    numbers.iter().any(|number| is_pname(pname, *number))
}

fn name_passes(test: &NameTest, pname: u16) -> bool
    ensures { result ≡ spec.name_passes test.now pname }
{
    match test {
        NameTest::Is(number) => is_pname(pname, *number),
        NameTest::IsNot(number) => !is_pname(pname, *number),
        NameTest::In(numbers) => is_listed_name(numbers.as_slice(), pname),
    }
}

/// Whether a row meets a predicate.
fn is_met_by(row: &Row, predicate: &TypedPredicate) -> bool
    requires { IsPacket row.now.packet }
    ensures { result ≡ spec.is_met_by row.now predicate.now }
{
    match predicate {
        TypedPredicate::Number(column, test) => number_passes(test, number_in_row(row, *column)),
        TypedPredicate::Pname(test) => name_passes(test, row.pname),
    }
}

/// What so many NOT make of a truth.
fn negated(nots: usize, value: bool) -> bool
    ensures { result ≡ spec.negated_truth nots value }
{
    if nots % 2 == 0 { value } else { !value }
}

impl Default for TruthGroup {
    /// Nothing is known yet: OR of nothing is false, AND of nothing true.
    fn default() -> Self
        ensures { result ≡ record { any = false; all = true; nots = 0 } }
    {
        TruthGroup {
            any: false,
            all: true,
            nots: 0,
        }
    }
}

impl TruthGroup {
    /// Behind one more term.
    fn with_term(self, value: bool) -> Self
        ensures { result ≡ record { any = self.any; all = self.all && spec.negated_truth self.nots value; nots = 0 } }
    {
        let value = negated(self.nots, value);
        TruthGroup {
            any: self.any,
            all: self.all && value,
            nots: 0,
        }
    }

    /// What the parenthesis is, if it ends here.
    fn value(self) -> bool
        ensures { result ≡ (self.any || self.all) }
    {
        self.any || self.all
    }
}

/// What is known inside a parenthesis behind a piece that neither opens nor closes one.
fn inside(piece: &TypedPiece, row: &Row, group: TruthGroup) -> TruthGroup
    requires packet { IsPacket row.now.packet }
    requires few { group.nots + 1 < 2 ^ 64 }
    ensures groups { is_paren piece.now ≡ false → (outer : List (OpenGroup Bool)) → spec.truth_group result ∷ outer ≡
        groups_behind (spec.truth row.now) piece.now (spec.truth_group group ∷ outer) }
    ensures nots { result.nots ≤ group.nots + 1 }
{
    match piece {
        TypedPiece::Not => TruthGroup {
            any: group.any,
            all: group.all,
            nots: group.nots + 1,
        },
        TypedPiece::And => group,
        TypedPiece::Or => TruthGroup {
            any: group.value(),
            all: true,
            nots: 0,
        },
        TypedPiece::Predicate(predicate) => group.with_term(is_met_by(row, predicate)),
        TypedPiece::Open | TypedPiece::Close => group,
    }
}

/// What is known behind a piece, inside the innermost parenthesis and in those around it.
fn behind(
    piece: &TypedPiece,
    row: &Row,
    group: TruthGroup,
    outer: &mut ArrayVec<TruthGroup, 32>,
) -> TruthGroup
    requires packet { IsPacket row.now.packet }
    requires room { has_paren_room piece.now (array_vec_len outer.old) ≡ true }
    requires few { group.nots + 1 < 2 ^ 64 }
    ensures groups { spec.truth_groups result outer.new.items ≡
        groups_behind (spec.truth row.now) piece.now (spec.truth_groups group outer.old.items) }
    ensures len { array_vec_len outer.new ≡ parens_behind piece.now (array_vec_len outer.old) }
    ensures nots { result.nots ≤ group.nots + 1 }
{
    match piece {
        TypedPiece::Open => {
            outer.push(group);
            TruthGroup::default()
        }
        TypedPiece::Close => match outer.pop() {
            None => group,
            Some(around) => around.with_term(group.value()),
        },
        _ => inside(piece, row, group),
    }
}

/// What pieces say of a row.
fn are_true(pieces: &[TypedPiece], row: &Row) -> bool
    requires packet { IsPacket row.now.packet }
    requires room { parens_fit pieces.now 0 ≡ true }
    ensures { result ≡ pieces_meaning (spec.truth row.now) pieces.now }
{
    let mut outer = ArrayVec::new();
    let mut group = TruthGroup::default();
    for piece in pieces {
        group = behind(piece, row, group, &mut outer);
    }
    group.value()
}

/// The same of pieces among which no parenthesis stands: no array is made for what stands around one (D-271).
fn are_true_flat(pieces: &[TypedPiece], row: &Row) -> bool
    requires packet { IsPacket row.now.packet }
    requires flat { list_any is_paren pieces.now ≡ false }
    ensures { result ≡ pieces_meaning (spec.truth row.now) pieces.now }
{
    let mut group = TruthGroup::default();
    for piece in pieces {
        group = inside(piece, row, group);
    }
    group.value()
}

/// Whether a piece opens or closes a parenthesis.
fn is_paren(piece: &TypedPiece) -> bool
    ensures { result ≡ is_paren piece.now }
{
    matches!(piece, TypedPiece::Open | TypedPiece::Close)
}

/// Whether a parenthesis stands among pieces.
fn has_paren(pieces: &[TypedPiece]) -> bool
    ensures { result ≡ list_any is_paren pieces.now }
{
    pieces.iter().any(is_paren)
}

/// Whether a condition is true of a row. Takes no memory.
pub fn is_true(condition: &Condition, row: &Row) -> bool
    requires { IsPacket row.now.packet }
    ensures { result ≡ spec.is_true row.now condition.now }
{
    let pieces = condition.pieces();
    if has_paren(pieces) {
        return are_true(pieces, row);
    }
    are_true_flat(pieces, row)
}

/// Whether a condition is true of a row with a whole packet, counted as one step. Takes no memory.
pub fn holds<L: Ledger>(condition: &Condition, row: &Row, steps: &mut Steps<L>) -> bool
    requires { IsPacket row.now.packet }
    ensures truth { result ≡ spec.is_true row.now condition.now }
    ensures step { steps.new ≡ steps.old + 1 }
{
    steps.tick();
    is_true(condition, row)
}
