//! Texts as tables. The tokens were found by regular expressions, apart from the program.

use crate::ends::none_other;
use arch_types::octets::Octets;
use ssql_tokens::{NotTokens, ScriptTokens, Symbol, Token, tokens_of};
use std::alloc::{AllocError, Global};
use std::test::Fail;

/// A text, and its tokens as a line: each behind its octet, columns with a `.`, names with a `$`, numbers with a `#`, and strings with a
/// quote.
type Text = (&'static [u8], &'static str);

const TEXTS: &[Text] = &[
    (b"", ""),
    (b" \t\r\n", ""),
    (b"-- only a comment", ""),
    (b"SELECT * FROM tm;", "0:SELECT 7:* 9:FROM 14:$tm 16:;"),
    (
        b"sElEcT SEQNUM,gentime",
        "0:SELECT 7:.seqNum 13:, 14:.gentime",
    ),
    (b"select--from\n*", "0:SELECT 13:*"),
    // each keyword and column in small letters, in capitals, and with a letter more
    (
        b"create table like stream as insert into select from where order asc desc limit merge not and or in show histogram partitions gentime seqnum rectime link pname apid length packet",
        "0:CREATE 7:TABLE 13:LIKE 18:STREAM 25:AS 28:INSERT 35:INTO 40:SELECT 47:FROM 52:WHERE 58:ORDER 64:ASC 68:DESC 73:LIMIT 79:MERGE 85:NOT 89:AND 93:OR 96:IN 99:SHOW 104:HISTOGRAM 114:PARTITIONS 125:.gentime 133:.seqNum 140:.rectime 148:.link 153:.pname 159:.apid 164:.length 171:.packet",
    ),
    (
        b"CREATE TABLE LIKE STREAM AS INSERT INTO SELECT FROM WHERE ORDER ASC DESC LIMIT MERGE NOT AND OR IN SHOW HISTOGRAM PARTITIONS GENTIME SEQNUM RECTIME LINK PNAME APID LENGTH PACKET",
        "0:CREATE 7:TABLE 13:LIKE 18:STREAM 25:AS 28:INSERT 35:INTO 40:SELECT 47:FROM 52:WHERE 58:ORDER 64:ASC 68:DESC 73:LIMIT 79:MERGE 85:NOT 89:AND 93:OR 96:IN 99:SHOW 104:HISTOGRAM 114:PARTITIONS 125:.gentime 133:.seqNum 140:.rectime 148:.link 153:.pname 159:.apid 164:.length 171:.packet",
    ),
    (
        b"createx tablex likex streamx asx insertx intox selectx fromx wherex orderx ascx descx limitx mergex notx andx orx inx showx histogramx partitionsx gentimex seqnumx rectimex linkx pnamex apidx lengthx packetx",
        "0:$createx 8:$tablex 15:$likex 21:$streamx 29:$asx 33:$insertx 41:$intox 47:$selectx 55:$fromx 61:$wherex 68:$orderx 75:$ascx 80:$descx 86:$limitx 93:$mergex 100:$notx 105:$andx 110:$orx 114:$inx 118:$showx 124:$histogramx 135:$partitionsx 147:$gentimex 156:$seqnumx 164:$rectimex 173:$linkx 179:$pnamex 186:$apidx 192:$lengthx 200:$packetx",
    ),
    (
        b"gentime SeqNum RECTIME link pname apid Length packet",
        "0:.gentime 8:.seqNum 15:.rectime 23:.link 28:.pname 34:.apid 39:.length 46:.packet",
    ),
    (
        b"tm TM tm_in selects _ _1",
        "0:$tm 3:$TM 6:$tm_in 12:$selects 20:$_ 22:$_1",
    ),
    (b"(),;*", "0:( 1:) 2:, 3:; 4:*"),
    (b"=<>!=<<=>>=", "0:= 1:<> 3:!= 5:< 6:<= 8:> 9:>="),
    (b"<=>", "0:<= 2:>"),
    (
        b"apid=1AND link=2",
        "0:.apid 4:= 5:#1 6:AND 10:.link 14:= 15:#2",
    ),
    (b"5-3 1a -007", "0:#5 1:#-3 4:#1 5:$a 7:#-007"),
    (b"--5\n5", "4:#5"),
    (b"-- a\rb\nc", "7:$c"),
    (b"5--3", "0:#5"),
    (b"<--\n=", "0:< 4:="),
    (b"12345678901234567890", "0:#12345678901234567890"),
    (b"123456789012345678901", "0:#12345678901234567890 20:#1"),
    (b"-123456789012345678901", "0:#-12345678901234567890 21:#1"),
    (
        b"aaaaaaaaaaaaaaaaaaaaaaaaaaaaaaaaaaaaaaaaaaaaaaaaaaaaaaaaaaaaaaaa",
        "0:$aaaaaaaaaaaaaaaaaaaaaaaaaaaaaaaaaaaaaaaaaaaaaaaaaaaaaaaaaaaaaaaa",
    ),
    (
        b"aaaaaaaaaaaaaaaaaaaaaaaaaaaaaaaaaaaaaaaaaaaaaaaaaaaaaaaaaaaaaaaaa",
        "0:$aaaaaaaaaaaaaaaaaaaaaaaaaaaaaaaaaaaaaaaaaaaaaaaaaaaaaaaaaaaaaaaa 64:$a",
    ),
    (
        b"aaaaaaaaaaaaaaaaaaaaaaaaaaaaaaaaaaaaaaaaaaaaaaaaaaaaaaaaaaaaaaaaAND",
        "0:$aaaaaaaaaaaaaaaaaaaaaaaaaaaaaaaaaaaaaaaaaaaaaaaaaaaaaaaaaaaaaaaa 64:AND",
    ),
    (b"''", "0:'"),
    (b"''''", "0:''"),
    (b"'a''b'", "0:'a'b"),
    (b"'a'b'c'", "0:'a 3:$b 4:'c"),
    (b"'--'--'", "0:'--"),
    (b"'~ \"'", "0:'~ \""),
];

// The tables stand behind functions, so that they stand in no goal of their callers.
fn all_texts() -> &'static [Text] {
    TEXTS
}

/// A text that stops being tokens, and the octet.
type NoTokens = (&'static [u8], u32);

const NO_TOKENS: &[NoTokens] = &[
    (b"'a''b", 3),
    (b"'''", 2),
    (b"'a", 0),
    (b"'a\tb'", 0),
    (b"'a\x7f'", 0),
    (b"'\xe9'", 0),
    (b"!", 0),
    (b"a!b", 1),
    (b"-", 0),
    (b"- 5", 0),
    (b"a.b", 1),
    (b"a\"", 1),
    (b"'a\n'", 0),
    (b"\"a\"", 0),
    (b"a\x0cb", 1),
    (b"#", 0),
    (b"\xe9", 0),
    (b"--\xe9\r\n\xe9", 5),
    (b"1.5", 1),
    (b"a/b", 1),
];

fn all_stops() -> &'static [NoTokens] {
    NO_TOKENS
}

/// What says a token's kind, and its text.
fn marked(token: &Token) -> (&'static str, &[u8]) {
    match token {
        Token::Symbol(symbol) => ("", symbol.text().as_bytes()),
        Token::Column(column) => (".", column.text().as_bytes()),
        Token::Operator(operator) => ("", operator.text().as_bytes()),
        Token::Name(name) => ("$", name.as_slice()),
        Token::Number(number) => ("#", number.as_slice()),
        Token::Quoted(octets) => ("'", octets.as_slice()),
    }
}

/// Adds the octet at which a token begins.
fn add_place(alloc: Global, line: &mut Vec<u8>, place: u32) -> Result<(), AllocError> {
    let text = format!(in alloc; "{place}:")?;
    line.extend_from_slice(text.as_bytes())
}

/// Adds a token behind its place and what says its kind.
fn add_token(
    alloc: Global,
    line: &mut Vec<u8>,
    place: u32,
    token: &Token,
) -> Result<(), AllocError> {
    if !line.is_empty() {
        line.push(b' ')?;
    }
    add_place(alloc, line, place)?;
    let (mark, octets) = marked(token);
    line.extend_from_slice(mark.as_bytes())?;
    line.extend_from_slice(octets)
}

/// Adds tokens, each behind a blank.
fn add_tokens(
    alloc: Global,
    line: &mut Vec<u8>,
    tokens: &[Token],
    places: &[u32],
) -> Result<(), AllocError> {
    for (token, place) in tokens.iter().zip(places) {
        add_token(alloc, line, *place, token)?;
    }
    Ok(())
}

/// Whether tokens are this line.
fn are_line(alloc: Global, found: &ScriptTokens, want: &[u8]) -> bool {
    let mut line = Vec::new(alloc);
    let added = add_tokens(
        alloc,
        &mut line,
        found.tokens.as_slice(),
        found.places.as_slice(),
    );
    added.is_ok() && line.as_slice() == want
}

/// The tokens of a text.
fn found_in(alloc: Global, text: &[u8]) -> Result<ScriptTokens, NotTokens> {
    match Octets::from_slice(alloc, text) {
        Ok(octets) => tokens_of(alloc, &octets),
        Err(_) => Err(NotTokens::OutOfMemory),
    }
}

/// Whether a text is tokens, and these are this line.
fn is_line(alloc: Global, text: &[u8], want: &[u8]) -> bool {
    match found_in(alloc, text) {
        Ok(found) => are_line(alloc, &found, want),
        Err(_) => false,
    }
}

/// The line of the first text that isn't so.
fn other_text(alloc: Global, texts: &[Text]) -> Option<&'static str> {
    for (text, want) in texts {
        if !is_line(alloc, text, want.as_bytes()) {
            return Some(*want);
        }
    }
    None
}

#[test]
fn texts(rt: HostRuntime) -> Result<(), Fail> {
    none_other(other_text(rt.alloc(), all_texts()))
}

/// Whether a text stops being tokens at this octet or, where it is `None`, is one token.
fn stops(alloc: Global, text: &[u8], at: Option<u32>) -> bool {
    match found_in(alloc, text) {
        Ok(found) => at.is_none() && found.tokens.len() == 1,
        Err(NotTokens::NoToken(found)) => at == Some(found),
        Err(NotTokens::OutOfMemory) => false,
    }
}

/// The place of the first text that doesn't stop at its octet.
fn other_stop(alloc: Global, texts: &[NoTokens]) -> Option<usize> {
    let mut place = 0usize;
    for (text, at) in texts {
        if !stops(alloc, text, Some(*at)) {
            return Some(place);
        }
        place = place.saturating_add(1);
    }
    None
}

#[test]
fn texts_that_stop(rt: HostRuntime) -> Result<(), Fail> {
    none_other(other_stop(rt.alloc(), all_stops()))
}

/// So many quotes, and the octet at which none begins a token, or `None` where they are one.
type Quotes = (usize, Option<u32>);

fn all_quotes() -> &'static [Quotes] {
    &[
        (1, Some(0)),
        (2, None),
        (3, Some(2)),
        (4, None),
        (65_535, Some(65_534)),
        (65_536, None),
    ]
}

/// Whether so many quotes stop at an octet or are one token.
fn quotes_stop(alloc: Global, count: usize, at: Option<u32>) -> bool {
    match vec![in alloc; b'\''; count] {
        Ok(text) => stops(alloc, text.as_slice(), at),
        Err(_) => false,
    }
}

/// The place of the first run of quotes that is read otherwise.
fn other_quotes(alloc: Global, runs: &[Quotes]) -> Option<usize> {
    let mut place = 0usize;
    for (count, at) in runs {
        if !quotes_stop(alloc, *count, *at) {
            return Some(place);
        }
        place = place.saturating_add(1);
    }
    None
}

#[test]
fn runs_of_quotes(rt: HostRuntime) -> Result<(), Fail> {
    none_other(other_quotes(rt.alloc(), all_quotes()))
}

/// Whether each token is this symbol and not that one.
fn are_all(tokens: &[Token], symbol: Symbol, other: Symbol) -> bool {
    for token in tokens {
        if !token.is(symbol) || token.is(other) {
            return false;
        }
    }
    true
}

/// Whether a text is tokens, each this symbol and not that one.
fn is_of(alloc: Global, text: &[u8], symbol: Symbol, other: Symbol) -> bool {
    match found_in(alloc, text) {
        Ok(found) => are_all(found.tokens.as_slice(), symbol, other),
        Err(_) => false,
    }
}

#[test]
fn symbols(rt: HostRuntime) {
    assert!(rt; is_of(rt.alloc(), b"asc", Symbol::Asc, Symbol::Desc));
}
