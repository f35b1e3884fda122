//! Tokens that are spelled in one way: keywords and punctuation, columns and operators.

ghost use Rattle.std.specs.Prelude.{◌≡◌};
ghost use Rattle.std.specs.Array.Iter.{array_into_iter_items};
ghost use Rattle.std.specs.Str.{str_eq_ignore_ascii_case};
ghost use Rattle.ssql_tokens.specs.Symbols as spec;

use std::array;

/// A keyword or punctuation.
#[derive(Clone, Copy, Debug, PartialEq, Eq)]
pub enum Symbol {
    Create,
    Table,
    Like,
    Stream,
    As,
    Insert,
    Into,
    Select,
    From,
    Where,
    Order,
    Asc,
    Desc,
    Limit,
    Merge,
    Not,
    And,
    Or,
    In,
    Show,
    Histogram,
    Partitions,
    Semicolon,
    Comma,
    OpenParen,
    CloseParen,
    Star,
}

/// A column of a row.
#[derive(Clone, Copy, Debug, PartialEq, Eq)]
pub enum Column {
    /// Generation time.
    Gentime,
    /// The second part of the key.
    SeqNum,
    /// Reception time.
    Rectime,
    /// The number of the link.
    Link,
    /// The name of the packet.
    Pname,
    /// The packet's APID.
    Apid,
    /// How many octets the packet has.
    Length,
    /// The packet's octets.
    Packet,
}

/// A comparison as it is written: `<>` and `!=` mean the same.
#[derive(Clone, Copy, Debug, PartialEq, Eq)]
pub enum ComparisonOperator {
    Equal,
    /// `<>`
    LessOrGreater,
    /// `!=`
    NotEqual,
    Less,
    LessOrEqual,
    Greater,
    GreaterOrEqual,
}

/// Whether octets are this text, in any case of ASCII letters.
fn is_text_in_any_case(text: &str, octets: &[u8]) -> bool
    ensures { result ≡ str_eq_ignore_ascii_case text.now octets.now }
{
    text.as_bytes().eq_ignore_ascii_case(octets)
}

impl Symbol {
    /// How it is printed.
    pub fn text(self) -> &'static str
        ensures { result.now ≡ spec.symbol_text self }
    {
        match self {
            Symbol::Create => "CREATE",
            Symbol::Table => "TABLE",
            Symbol::Like => "LIKE",
            Symbol::Stream => "STREAM",
            Symbol::As => "AS",
            Symbol::Insert => "INSERT",
            Symbol::Into => "INTO",
            Symbol::Select => "SELECT",
            Symbol::From => "FROM",
            Symbol::Where => "WHERE",
            Symbol::Order => "ORDER",
            Symbol::Asc => "ASC",
            Symbol::Desc => "DESC",
            Symbol::Limit => "LIMIT",
            Symbol::Merge => "MERGE",
            Symbol::Not => "NOT",
            Symbol::And => "AND",
            Symbol::Or => "OR",
            Symbol::In => "IN",
            Symbol::Show => "SHOW",
            Symbol::Histogram => "HISTOGRAM",
            Symbol::Partitions => "PARTITIONS",
            Symbol::Semicolon => ";",
            Symbol::Comma => ",",
            Symbol::OpenParen => "(",
            Symbol::CloseParen => ")",
            Symbol::Star => "*",
        }
    }

    /// The keywords.
    fn keywords() -> array::IntoIter<Symbol, 22>
        ensures { array_into_iter_items result ≡ spec.keywords }
    {
        [
            Symbol::Create,
            Symbol::Table,
            Symbol::Like,
            Symbol::Stream,
            Symbol::As,
            Symbol::Insert,
            Symbol::Into,
            Symbol::Select,
            Symbol::From,
            Symbol::Where,
            Symbol::Order,
            Symbol::Asc,
            Symbol::Desc,
            Symbol::Limit,
            Symbol::Merge,
            Symbol::Not,
            Symbol::And,
            Symbol::Or,
            Symbol::In,
            Symbol::Show,
            Symbol::Histogram,
            Symbol::Partitions,
        ]
        .into_iter()
    }

    /// What is neither a word nor an operator.
    fn punctuation() -> array::IntoIter<Symbol, 5>
        ensures { array_into_iter_items result ≡ spec.punctuation }
    {
        [
            Symbol::Semicolon,
            Symbol::Comma,
            Symbol::OpenParen,
            Symbol::CloseParen,
            Symbol::Star,
        ]
        .into_iter()
    }
}

impl Column {
    /// How it is printed.
    pub fn text(self) -> &'static str
        ensures { result.now ≡ spec.column_text self }
    {
        match self {
            Column::Gentime => "gentime",
            Column::SeqNum => "seqNum",
            Column::Rectime => "rectime",
            Column::Link => "link",
            Column::Pname => "pname",
            Column::Apid => "apid",
            Column::Length => "length",
            Column::Packet => "packet",
        }
    }

    /// The columns, in the order of a row.
    fn all() -> array::IntoIter<Column, 8>
        ensures { array_into_iter_items result ≡ spec.columns }
    {
        [
            Column::Gentime,
            Column::SeqNum,
            Column::Rectime,
            Column::Link,
            Column::Pname,
            Column::Apid,
            Column::Length,
            Column::Packet,
        ]
        .into_iter()
    }
}

impl ComparisonOperator {
    /// How it is printed.
    pub fn text(self) -> &'static str
        ensures { result.now ≡ spec.operator_text self }
    {
        match self {
            ComparisonOperator::Equal => "=",
            ComparisonOperator::LessOrGreater => "<>",
            ComparisonOperator::NotEqual => "!=",
            ComparisonOperator::Less => "<",
            ComparisonOperator::LessOrEqual => "<=",
            ComparisonOperator::Greater => ">",
            ComparisonOperator::GreaterOrEqual => ">=",
        }
    }

    /// The operators.
    fn all() -> array::IntoIter<ComparisonOperator, 7>
        ensures { array_into_iter_items result ≡ spec.operators }
    {
        [
            ComparisonOperator::Equal,
            ComparisonOperator::LessOrGreater,
            ComparisonOperator::NotEqual,
            ComparisonOperator::Less,
            ComparisonOperator::LessOrEqual,
            ComparisonOperator::Greater,
            ComparisonOperator::GreaterOrEqual,
        ]
        .into_iter()
    }
}

/// The keyword that octets spell, in any case.
pub(crate) fn read_keyword(octets: &[u8]) -> Option<Symbol>
    ensures { result ≡ spec.read_keyword octets.now }
{
    for keyword in Symbol::keywords() {
        if is_text_in_any_case(keyword.text(), octets) {
            return Some(keyword);
        }
    }
    None
}

/// The column that octets spell, in any case.
pub(crate) fn read_column(octets: &[u8]) -> Option<Column>
    ensures { result ≡ spec.read_column octets.now }
{
    for column in Column::all() {
        if is_text_in_any_case(column.text(), octets) {
            return Some(column);
        }
    }
    None
}

/// The punctuation that octets spell.
pub(crate) fn read_punctuation(octets: &[u8]) -> Option<Symbol>
    ensures { result ≡ spec.read_punctuation octets.now }
{
    for symbol in Symbol::punctuation() {
        if is_text_in_any_case(symbol.text(), octets) {
            return Some(symbol);
        }
    }
    None
}

/// The operator that octets spell.
pub(crate) fn read_operator(octets: &[u8]) -> Option<ComparisonOperator>
    ensures { result ≡ spec.read_operator octets.now }
{
    for operator in ComparisonOperator::all() {
        if is_text_in_any_case(operator.text(), octets) {
            return Some(operator);
        }
    }
    None
}
