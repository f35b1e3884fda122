//! The rules that the tokens of a script may break.

ghost use Rattle.std.specs.Prelude.{◌≡◌, [], ◌∷◌, slice_index};
ghost use Rattle.ssql_types.specs.Rules as spec;
ghost use Rattle.ssql_types.specs.Typing.{PassesOver};

use crate::not_typed::NotTyped;

/// A rule, by what breaks it. The rules 1 and 2, of tokens and of the grammar, are the parser's.
#[derive(Clone, Copy, Debug, PartialEq, Eq)]
pub enum Rule {
    /// Rule 3: the first word of a statement that may not stand in the script.
    Misplaced,
    /// Rule 4: a column, an operator or a literal that doesn't fit a column's type.
    WrongType,
    /// Rule 5: a new name that is `tm_in`, a table's, or that of a table or stream above.
    NameTaken,
    /// Rule 6: a source of a route that is neither `tm_in` nor a stream above.
    UnknownStream,
    /// Rule 7: columns, ORDER or LIMIT in a route, or a name other than `tm` behind LIKE.
    WrongForm,
    /// Rule 8: a number outside -2^63 to 2^63 - 1, or a negative one behind LIMIT.
    OutOfRange,
}

impl Rule {
    /// Its number.
    pub fn number(self) -> u8
        ensures { result ≡ spec.sql_rule_number self }
    {
        match self {
            Rule::Misplaced => 3,
            Rule::WrongType => 4,
            Rule::NameTaken => 5,
            Rule::UnknownStream => 6,
            Rule::WrongForm => 7,
            Rule::OutOfRange => 8,
        }
    }
}

/// The octets at which the tokens behind the next one begin.
pub(crate) fn behind(places: &[u32]) -> &[u32]
    ensures { result.now ≡ spec.later_places places.now }
{
    match places {
        [] => places,
        [_, later @ ..] => later,
    }
}

/// The fault of a next token that breaks a rule.
pub(crate) fn refused(rule: Rule, places: &[u32]) -> NotTyped
    ensures { result ≡ spec.sql_fault_at (slice_index places.now 0) (spec.broken rule) }
{
    let at = match places {
        [] => 0,
        [place, ..] => u64::from(*place),
    };
    NotTyped::BadSql {
        at,
        rule: rule.number(),
    }
}

/// The places behind the next token, unless it breaks a rule.
pub(crate) fn ask(rule: Option<Rule>, places: &[u32]) -> Result<&[u32], NotTyped>
    ensures { PassesOver (λ rest. rest.now) result (spec.if_broken rule ∷ []) places.now }
{
    match rule {
        None => Ok(behind(places)),
        Some(rule) => Err(refused(rule, places)),
    }
}
