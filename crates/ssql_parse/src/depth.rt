//! How deep conditions nest.

ghost use Rattle.std.specs.Prelude.{◌≡◌, [], IfOk, OnOk, reverse};
ghost use Rattle.ssql_parse.specs.Depth as spec;

use crate::condition::Piece;
use crate::query::Query;
use crate::statement::Statement;
use std::alloc::{AllocError, Global};

/// Whether the innermost of what is open is a NOT: true stands for a NOT, false for a parenthesis, and the innermost is the last.
fn ends_with_not(nesting: &[bool]) -> bool
    ensures { result ≡ spec.not_first (reverse nesting.now) }
{
    match nesting.last() {
        Some(mark) => *mark,
        None => false,
    }
}

/// A term has ended, and each NOT right before it.
fn end_term(nesting: &mut Vec<bool>)
    ensures { reverse nesting.new.items ≡ spec.ended (reverse nesting.old.items) }
{
    'nots: while ends_with_not(nesting.as_slice()) {
        nesting.pop();
    }
}

/// A parenthesis has ended, and the term that it is.
fn close(nesting: &mut Vec<bool>)
    ensures { reverse nesting.new.items ≡ spec.closed (reverse nesting.old.items) }
{
    end_term(nesting);
    nesting.pop();
    end_term(nesting);
}

/// Makes what is open before a piece what is open behind it.
fn pass(piece: &Piece, nesting: &mut Vec<bool>) -> Result<(), AllocError>
    ensures { OnOk result (reverse nesting.new.items ≡ spec.nesting_behind piece.now (reverse nesting.old.items)) }
{
    match piece {
        Piece::Not => {
            nesting.push(true)?;
            Ok(())
        }
        Piece::Open => {
            nesting.push(false)?;
            Ok(())
        }
        Piece::Close => {
            close(nesting);
            Ok(())
        }
        Piece::And | Piece::Or => Ok(()),
        Piece::Predicate(_) => {
            end_term(nesting);
            Ok(())
        }
    }
}

/// How many NOT and parentheses are open at a predicate, and 0 at another piece.
fn depth_at(piece: &Piece, nesting: &[bool]) -> usize
    ensures { result ≡ spec.depth_at piece.now (reverse nesting.now) }
{
    match piece {
        Piece::Predicate(_) => nesting.len(),
        _ => 0,
    }
}

/// The greatest number of NOT and parentheses that are open at a predicate of a condition.
fn condition_depth(alloc: Global, pieces: &[Piece]) -> Result<usize, AllocError>
    ensures { IfOk result (λ depth. depth ≡ spec.deepest pieces.now []) }
{
    let mut nesting = Vec::new(alloc);
    let mut depth = 0;
    for piece in pieces {
        depth = depth.max(depth_at(piece, nesting.as_slice()));
        pass(piece, &mut nesting)?;
    }
    Ok(depth)
}

/// The depth of a query's condition, or 0 where it has none.
fn query_depth(alloc: Global, query: &Query) -> Result<usize, AllocError>
    ensures { IfOk result (λ depth. depth ≡ spec.filter_depth query.now.filter) }
{
    match &query.filter {
        None => Ok(0),
        Some(pieces) => condition_depth(alloc, pieces.as_slice()),
    }
}

/// The depth of a statement's condition, or 0 where it has none.
fn statement_depth(alloc: Global, statement: &Statement) -> Result<usize, AllocError>
    ensures { IfOk result (λ depth. depth ≡ spec.statement_depth statement.now) }
{
    match statement {
        Statement::CreateStream { query, .. } => query_depth(alloc, query),
        Statement::Insert { query, .. } => query_depth(alloc, query),
        Statement::Query(query) => query_depth(alloc, query),
        _ => Ok(0),
    }
}

/// The depth of the deepest of some statements.
pub(crate) fn script_depth(alloc: Global, statements: &[Statement]) -> Result<usize, AllocError>
    ensures { IfOk result (λ depth. depth ≡ spec.script_depth statements.now) }
{
    let mut depth = 0;
    for statement in statements {
        depth = depth.max(statement_depth(alloc, statement)?);
    }
    Ok(depth)
}
