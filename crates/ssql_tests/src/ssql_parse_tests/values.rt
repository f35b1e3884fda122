//! What is read of a script with each form of the grammar, and where its tokens begin.

use arch_types::direction::Direction;
use arch_types::name::Name;
use ssql_parse::{
    Column, Columns, ComparisonOperator, Literal, Piece, Predicate, Query, QuerySource, Statement,
    Test, parse,
};
use std::alloc::Global;

/// Each form of a statement, a query with each of its parts, a condition with each of its pieces.
const FORMS: &[u8] =
    b"CREATE TABLE copy LIKE tm;CREATE STREAM s AS SELECT*FROM tm_in WHERE NOT(apid=007 OR pname IN('A',''''))AND link<>-1;INSERT INTO copy SELECT seqNum,packet FROM MERGE(s,tm)ORDER DESC LIMIT 5;SELECT*FROM tm ORDER ASC;SHOW HISTOGRAM tm;SHOW PARTITIONS copy";

fn is_named(name: &Name, text: &[u8]) -> bool {
    name.as_slice() == text
}

fn is_number(literal: &Literal, digits: &[u8]) -> bool {
    match literal {
        Literal::Number(number) => number.as_slice() == digits,
        Literal::Quoted(_) => false,
    }
}

fn is_quoted(literal: &Literal, text: &[u8]) -> bool {
    match literal {
        Literal::Quoted(quoted) => quoted.as_slice() == text,
        Literal::Number(_) => false,
    }
}

fn is_comparison(
    predicate: &Predicate,
    column: Column,
    operator: ComparisonOperator,
    digits: &[u8],
) -> bool {
    match &predicate.test {
        Test::Compare(found, literal) => {
            predicate.column == column && *found == operator && is_number(literal, digits)
        }
        Test::In(_) => false,
    }
}

/// The column is one of two strings.
fn is_one_of(predicate: &Predicate, column: Column, one: &[u8], other: &[u8]) -> bool {
    match &predicate.test {
        Test::In(literals) => match literals.as_slice() {
            [first, second] => {
                predicate.column == column && is_quoted(first, one) && is_quoted(second, other)
            }
            _ => false,
        },
        Test::Compare(_, _) => false,
    }
}

/// The condition of the stream of FORMS.
fn is_condition(pieces: &[Piece]) -> bool {
    match pieces {
        [
            Piece::Not,
            Piece::Open,
            Piece::Predicate(apid),
            Piece::Or,
            Piece::Predicate(pname),
            Piece::Close,
            Piece::And,
            Piece::Predicate(link),
        ] => {
            is_comparison(apid, Column::Apid, ComparisonOperator::Equal, b"007")
                && is_one_of(pname, Column::Pname, b"A", b"'")
                && is_comparison(link, Column::Link, ComparisonOperator::LessOrGreater, b"-1")
        }
        _ => false,
    }
}

/// The query of the stream of FORMS.
fn is_stream(query: &Query) -> bool {
    match (&query.columns, &query.source, &query.filter) {
        (Columns::All, QuerySource::One(name), Some(pieces)) => {
            is_named(name, b"tm_in") && is_condition(pieces.as_slice())
        }
        _ => false,
    }
}

/// The source is MERGE of these two.
fn is_merge_of(source: &QuerySource, one: &[u8], other: &[u8]) -> bool {
    match source {
        QuerySource::Merge(names) => match names.as_slice() {
            [first, second] => is_named(first, one) && is_named(second, other),
            _ => false,
        },
        QuerySource::One(_) => false,
    }
}

/// The query of the INSERT of FORMS.
fn is_merge(query: &Query) -> bool {
    match (&query.columns, &query.filter, &query.limit) {
        (Columns::Listed(columns), None, Some(limit)) => {
            columns.as_slice() == [Column::SeqNum, Column::Packet].as_slice()
                && limit.as_slice() == b"5".as_slice()
                && is_merge_of(&query.source, b"s", b"tm")
                && query.order == Some(Direction::Descending)
        }
        _ => false,
    }
}

fn are_forms(statements: &[Statement]) -> bool {
    match statements {
        [
            Statement::CreateTable { name, like },
            Statement::CreateStream {
                name: stream,
                query,
            },
            Statement::Insert {
                table,
                query: merge,
            },
            Statement::Query(last),
            Statement::ShowHistogram(histogram),
            Statement::ShowPartitions(partitions),
        ] => {
            is_named(name, b"copy")
                && is_named(like, b"tm")
                && is_named(stream, b"s")
                && is_stream(query)
                && is_named(table, b"copy")
                && is_merge(merge)
                && last.order == Some(Direction::Ascending)
                && is_named(histogram, b"tm")
                && is_named(partitions, b"copy")
        }
        _ => false,
    }
}

/// Whether FORMS are read so, each token at a place of its own.
fn are_read(alloc: Global) -> bool {
    match parse(alloc, FORMS) {
        Ok(script) => are_forms(script.statements()) && script.places().len() == 67,
        Err(_) => false,
    }
}

#[test]
fn forms(rt: HostRuntime) {
    assert!(rt; are_read(rt.alloc()));
}

/// Whether the tokens of a script begin at these octets.
fn has_places(alloc: Global, text: &[u8], places: &[u32]) -> bool {
    match parse(alloc, text) {
        Ok(script) => script.places() == places,
        Err(_) => false,
    }
}

#[test]
fn places(rt: HostRuntime) {
    assert!(rt; has_places(rt.alloc(), b"-- x\nSHOW HISTOGRAM tm;", &[5, 10, 20, 22]));
}
