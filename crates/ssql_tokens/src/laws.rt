//! What is true of every script's tokens.

ghost use Rattle.ssql_tokens.specs.Laws as law;

/// A text is one list of tokens at most, and each token has one place.
pub fn tokens_are_one()
    ensures { law.TokensAreOne }
{}

/// A text that stops being tokens is none, and it stops at one octet.
pub fn stops_at_one_place()
    ensures none { law.NoneWhereItStops }
    ensures one { law.StopsAtOnePlace }
{}

/// Each keyword, punctuation, column and operator is read from its own text.
pub fn symbols_are_read_again()
    ensures symbols { law.SymbolsAreRead }
    ensures columns { law.ColumnsAreRead }
    ensures operators { law.OperatorsAreRead }
{}

/// A token that some text spells is read again from how it is written.
pub fn tokens_are_read_again()
    ensures { law.TokensAreReadAgain }
{}
