//! Conditions as they are written.

ghost use Rattle.std.specs.Prelude.{◌≡◌, ◌+◌, ◌<◌, ◌≤◌, ◌^◌, Bool, true, false, length, IfOk, IfSome, OnOk};
ghost use Rattle.ssql_parse.specs.Reading.{ReadsAs};
ghost use Rattle.ssql_parse.specs.Pieces as spec;

use crate::reading::{Stop, begins, column, expect, literal, literals, operator};
use arch_types::octets::Octets;
use item_list::Items;
use ssql_tokens::{Column, ComparisonOperator, Symbol, Token};
use std::alloc::Global;

/// What a column is compared with.
#[derive(Debug, Drop)]
pub enum Literal {
    /// An optional `-` and 1 to 20 digits, as they are written.
    Number(Octets),
    /// What stands between the quotes, with one quote for two.
    Quoted(Octets),
}

/// How a column is compared.
#[derive(Debug, Drop)]
pub enum Test {
    /// By an operator, with a literal.
    Compare(ComparisonOperator, Literal),
    /// IN, with at least one literal.
    In(Items<Literal>),
}

/// A column and how it is compared.
#[derive(Debug, Drop)]
pub struct Predicate {
    pub column: Column,
    pub test: Test,
}

/// A piece of a condition. Conditions are held as they are written, piece by piece: a tree would be as deep as the script nests, and
/// its drop would recurse before the limit on depth is asked (D-178).
#[derive(Debug, Drop)]
pub enum Piece {
    Not,
    /// `(`
    Open,
    /// `)`
    Close,
    And,
    Or,
    Predicate(Predicate),
}

/// An operator and a literal, or IN and literals.
#[tactic(auto, unfolding(crate::specs::Pieces::test_at))]
fn test_at(alloc: Global, tokens: &[Token]) -> Result<(Test, &[Token]), Stop>
    ensures { ReadsAs (λ x. (x.0, x.1.now)) result (spec.test_at tokens.now) }
{
    if begins(Symbol::In, tokens) {
        let rest = expect(Symbol::In, tokens)?;
        let rest = expect(Symbol::OpenParen, rest)?;
        let (items, rest) = literals(alloc, rest)?;
        let rest = expect(Symbol::CloseParen, rest)?;
        return Ok((Test::In(items), rest));
    }
    let (operator, rest) = operator(tokens)?;
    let (literal, rest) = literal(rest)?;
    Ok((Test::Compare(operator, literal), rest))
}

/// A column and what it is compared with.
#[tactic(auto, unfolding(crate::specs::Pieces::predicate_at))]
fn predicate_at(alloc: Global, tokens: &[Token]) -> Result<(Predicate, &[Token]), Stop>
    ensures { ReadsAs (λ x. (x.0, x.1.now)) result (spec.predicate_at tokens.now) }
{
    let (column, rest) = column(tokens)?;
    let (test, rest) = test_at(alloc, rest)?;
    Ok((Predicate { column, test }, rest))
}

/// Where the reader of a condition stands.
#[derive(Clone, Copy)]
struct ReaderState {
    /// A term has to come; else one stands right before.
    before: bool,
    /// How many parentheses are open.
    opened: usize,
}

/// The next piece, or nothing where the condition ends.
fn piece_at(
    alloc: Global,
    place: ReaderState,
    tokens: &[Token],
) -> Result<(Option<Piece>, &[Token]), Stop>
    ensures { ReadsAs (λ x. (x.0, x.1.now)) result (spec.piece_at place.before place.opened tokens.now) }
{
    if place.before {
        if begins(Symbol::Not, tokens) {
            return Ok((Some(Piece::Not), &tokens[1..]));
        }
        if begins(Symbol::OpenParen, tokens) {
            return Ok((Some(Piece::Open), &tokens[1..]));
        }
        let (predicate, rest) = predicate_at(alloc, tokens)?;
        return Ok((Some(Piece::Predicate(predicate)), rest));
    }
    if begins(Symbol::And, tokens) {
        return Ok((Some(Piece::And), &tokens[1..]));
    }
    if begins(Symbol::Or, tokens) {
        return Ok((Some(Piece::Or), &tokens[1..]));
    }
    if place.opened == 0 {
        return Ok((None, tokens));
    }
    if begins(Symbol::CloseParen, tokens) {
        return Ok((Some(Piece::Close), &tokens[1..]));
    }
    Err(Stop::Wrong(tokens.len()))
}

impl ReaderState {
    /// Where it stands behind a piece.
    fn behind(self, piece: &Piece) -> Self
        requires { self.opened + 1 < 2 ^ 64 }
        ensures before { result.before ≡ spec.is_before_next piece.now }
        ensures opened { result.opened ≡ spec.opened_after piece.now self.opened }
    {
        match piece {
            Piece::Not | Piece::And | Piece::Or => ReaderState {
                before: true,
                opened: self.opened,
            },
            Piece::Open => ReaderState {
                before: true,
                opened: self.opened + 1,
            },
            Piece::Close => ReaderState {
                before: false,
                opened: self.opened.saturating_sub(1),
            },
            Piece::Predicate(_) => ReaderState {
                before: false,
                opened: self.opened,
            },
        }
    }
}

/// A condition, to its end. No token is read twice, and no parenthesis takes room on the stack.
#[tactic(auto, unfolding(crate::specs::Pieces::pieces_at))]
pub(crate) fn pieces(alloc: Global, tokens: &[Token]) -> Result<(Items<Piece>, &[Token]), Stop>
    ensures { ReadsAs (λ x. (x.0, x.1.now)) result (spec.pieces_at tokens.now) }
{
    let mut pieces = Items::new(alloc);
    let mut rest = tokens;
    let mut place = ReaderState {
        before: true,
        opened: 0,
    };
    'pieces: loop {
        let (found, later) = piece_at(alloc, place, rest)?;
        match found {
            None => return Ok((pieces, later)),
            Some(piece) => {
                place = place.behind(&piece);
                pieces.push(piece)?;
                rest = later;
            }
        }
    }
}
