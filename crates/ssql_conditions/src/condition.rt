//! Conditions, held piece by piece.

ghost use Rattle.std.specs.Prelude.{◌≡◌, true, IfOk};
ghost use Rattle.ssql_conditions.specs.Formulas.{formula_of, parens_fit};

use crate::predicate::TypedPredicate;
use item_list::Items;
use std::alloc::{AllocError, Global};
use std::marker::Model;

/// A piece of a condition, as it is written.
#[derive(Debug, Drop)]
pub enum TypedPiece {
    /// NOT, before a term.
    Not,
    /// `(`
    Open,
    /// `)`
    Close,
    /// AND, between terms.
    And,
    /// OR, between what AND joins.
    Or,
    /// A column and its test.
    Predicate(TypedPredicate),
}

impl TypedPiece {
    /// An equal piece.
    fn copy(&self, alloc: Global) -> Result<TypedPiece, AllocError>
        ensures { IfOk result (λ copy. copy ≡ self.now) }
    {
        match self {
            TypedPiece::Not => Ok(TypedPiece::Not),
            TypedPiece::Open => Ok(TypedPiece::Open),
            TypedPiece::Close => Ok(TypedPiece::Close),
            TypedPiece::And => Ok(TypedPiece::And),
            TypedPiece::Or => Ok(TypedPiece::Or),
            TypedPiece::Predicate(predicate) => {
                let predicate = predicate.copy(alloc)?;
                Ok(TypedPiece::Predicate(predicate))
            }
        }
    }
}

/// Equal pieces, in their order.
fn copied_pieces(alloc: Global, pieces: &[TypedPiece]) -> Result<Items<TypedPiece>, AllocError>
    ensures { IfOk result (λ copies. copies ≡ pieces.now) }
{
    let mut copies = Items::new(alloc);
    for piece in pieces {
        let copy = piece.copy(alloc)?;
        copies.push(copy)?;
    }
    Ok(copies)
}

/// What is asked of a row. A query without WHERE has a condition too, which each row meets.
#[derive(Debug, Drop)]
pub struct Condition {
    /// Empty for a query without WHERE. At most 32 parentheses are open at a place.
    pieces: Items<TypedPiece>,
}

impl Model for Condition {
    ghost use Rattle.std.specs.Prelude.{◌≡◌, true};
    ghost use Rattle.ssql_conditions.specs.Formulas.{Formula, formula_of, parens_fit};
    ghost use Rattle.ssql_conditions.specs.contracts.condition.TypedPiece as piece;
    ghost use Rattle.ssql_conditions.specs.FormulaCode.{formula_code};

    ghost Value = { Formula };

    ghost coded = { formula_code piece.the_row.coded };

    ghost view = { λ c. formula_of c.pieces };

    ghost invariant = { λ c. parens_fit c.pieces 0 ≡ true };
}

impl Condition {
    /// The condition that these pieces are.
    pub fn new(pieces: Items<TypedPiece>) -> Condition
        requires { parens_fit pieces 0 ≡ true }
        ensures { result ≡ formula_of pieces }
    {
        Condition { pieces }
    }

    /// Its pieces in their order.
    pub(crate) fn pieces(&self) -> &[TypedPiece]
        ensures formula { formula_of result.now ≡ self.now }
        ensures room { parens_fit result.now 0 ≡ true }
    {
        self.pieces.as_slice()
    }

    /// An equal condition.
    pub fn copy(&self, alloc: Global) -> Result<Condition, AllocError>
        ensures { IfOk result (λ copy. copy ≡ self.now) }
    {
        let pieces = copied_pieces(alloc, self.pieces())?;
        Ok(Condition::new(pieces))
    }
}
