//! Conditions with their types.

ghost use Rattle.std.specs.Prelude.{◌≡◌, ◌≤◌, ◌^◌, length, map, true};
ghost use Rattle.ssql_parse.specs.Depth.{filter_depth};
ghost use Rattle.ssql_parse.specs.Grammar.{IsFilter, IsIfAny};
ghost use Rattle.ssql_types.specs.Faults as faults;
ghost use Rattle.ssql_conditions.specs.Formulas.{formula_of, parens_fit};
ghost use Rattle.ssql_types.specs.Typed as spec;
ghost use Rattle.ssql_types.specs.Typing.{TypesAs};

use crate::not_typed::NotTyped;
use crate::predicate::typed_predicate;
use crate::rules::behind;
use arch_types::name::Names;
use item_list::Items;
use ssql_conditions::condition::{Condition, TypedPiece};
use ssql_parse::Piece;
use std::alloc::Global;

/// A piece with its type.
fn typed_piece<'a>(
    alloc: Global,
    names: &Names,
    piece: &Piece,
    places: &'a [u32],
) -> Result<(TypedPiece, &'a [u32]), NotTyped>
    requires { length names.now ≤ 2 ^ 16 }
    ensures { TypesAs (λ x. (x.0, x.1.now)) result (faults.piece_faults piece.now) places.now
        (spec.typed_piece names.now piece.now) }
{
    match piece {
        Piece::Not => Ok((TypedPiece::Not, behind(places))),
        Piece::Open => Ok((TypedPiece::Open, behind(places))),
        Piece::Close => Ok((TypedPiece::Close, behind(places))),
        Piece::And => Ok((TypedPiece::And, behind(places))),
        Piece::Or => Ok((TypedPiece::Or, behind(places))),
        Piece::Predicate(predicate) => {
            let (predicate, rest) = typed_predicate(alloc, names, predicate, places)?;
            Ok((TypedPiece::Predicate(predicate), rest))
        }
    }
}

/// Pieces with their types.
fn typed_pieces<'a>(
    alloc: Global,
    names: &Names,
    pieces: &[Piece],
    places: &'a [u32],
) -> Result<(Items<TypedPiece>, &'a [u32]), NotTyped>
    requires { length names.now ≤ 2 ^ 16 }
    ensures { TypesAs (λ x. (x.0, x.1.now)) result (faults.pieces_faults pieces.now) places.now
        (map (spec.typed_piece names.now) pieces.now) }
{
    let mut typed = Items::new(alloc);
    let mut rest = places;
    for piece in pieces {
        let (found, later) = typed_piece(alloc, names, piece, rest)?;
        typed.push(found)?;
        rest = later;
    }
    Ok((typed, rest))
}

/// The condition of a query, whose WHERE comes next where it is written.
pub(crate) fn typed_filter<'a>(
    alloc: Global,
    names: &Names,
    filter: &Option<Items<Piece>>,
    places: &'a [u32],
) -> Result<(Condition, &'a [u32]), NotTyped>
    requires names { length names.now ≤ 2 ^ 16 }
    requires condition { IsIfAny IsFilter filter.now }
    requires depth { filter_depth filter.now ≤ 32 }
    ensures { TypesAs (λ x. (x.0, x.1.now)) result (faults.filter_faults filter.now) places.now
        (spec.typed_filter names.now filter.now) }
{
    match filter {
        None => {
            let pieces = Items::new(alloc);
            Ok((Condition::new(pieces), places))
        }
        Some(pieces) => {
            let (pieces, rest) = typed_pieces(alloc, names, pieces.as_slice(), behind(places))?;
            Ok((Condition::new(pieces), rest))
        }
    }
}
