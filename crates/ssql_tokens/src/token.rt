//! Tokens.

ghost use Rattle.std.specs.Prelude.{◌≡◌};
ghost use Rattle.ssql_tokens.specs.SymbolTests as spec;

use crate::symbols::{Column, ComparisonOperator, Symbol};
use arch_types::name::Name;
use arch_types::octets::Octets;

/// A token. Names and numbers are parts of the script's octets.
#[derive(Debug, Drop)]
pub enum Token {
    /// A keyword, in any case, or punctuation.
    Symbol(Symbol),
    /// A column, in any case.
    Column(Column),
    /// A comparison as it is written.
    Operator(ComparisonOperator),
    /// A letter or `_`, then letters, digits or `_`, at most 64, and neither a keyword nor a column.
    Name(Name),
    /// An optional `-` and 1 to 20 digits, as they are written.
    Number(Octets),
    /// What stands between the quotes of a string, with one quote for two.
    Quoted(Octets),
}

fn same_symbol(a: Symbol, b: Symbol) -> bool
    ensures { result ≡ spec.same_symbol a b }
{
    a == b
}

impl Token {
    /// Whether the token is this keyword or punctuation.
    pub fn is(&self, symbol: Symbol) -> bool
        ensures { result ≡ spec.is_symbol symbol self.now }
    {
        match self {
            Token::Symbol(found) => same_symbol(*found, symbol),
            _ => false,
        }
    }
}
