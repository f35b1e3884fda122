//! Scripts, as text.

ghost use Rattle.std.specs.Prelude.{◌≡◌, ◌∷◌, ◌++◌, [], IfOk, OnOk};
ghost use Rattle.ssql_tokens.specs.declared.token.Token.TheVariants as tokens;
ghost use Rattle.ssql_tokens.specs.Written.{quotes_doubled};
ghost use Rattle.ssql_parse.specs.Grammar as grammar;
ghost use Rattle.ssql_parse.specs.Printing as spec;
ghost use Rattle.ssql_parse.specs.Printing.{laid};

use crate::condition::{Literal, Piece, Predicate, Test};
use crate::parsing::Script;
use crate::query::{Columns, Query, QuerySource};
use crate::statement::Statement;
use arch_types::direction::Direction;
use arch_types::name::Name;
use arch_types::octets::Octets;
use item_list::Items;
use ssql_tokens::{Column, ComparisonOperator, QUOTE, Symbol};
use std::alloc::{AllocError, Global};
use std::marker::Model;

/// What has to stand before the next token.
#[derive(Clone, Copy, Debug, PartialEq, Eq)]
enum Gap {
    Nothing,
    Space,
    LineEnd,
}

/// A text that grows token by token.
#[derive(Drop)]
struct Layout {
    alloc: Global,
    octets: Vec<u8>,
    gap: Gap,
}

impl Model for Layout {
    ghost use Rattle.ssql_parse.specs.Printing.{Laid};

    ghost Value = { Laid };

    ghost view = { λ x. record { text = x.octets.items; gap = x.gap } };
}

/// Whether no space stands before a symbol.
fn joins_before(symbol: Symbol) -> bool
    ensures { result ≡ spec.joins_before (tokens.Symbol symbol) }
{
    symbol == Symbol::Comma || symbol == Symbol::Semicolon || symbol == Symbol::CloseParen
}

/// What stands before a symbol, where this would stand before another token.
fn gap_before(gap: Gap, symbol: Symbol) -> Gap
    ensures { result ≡ spec.gap_before gap (tokens.Symbol symbol) }
{
    match gap {
        Gap::Nothing => Gap::Nothing,
        Gap::Space => {
            if joins_before(symbol) {
                Gap::Nothing
            } else {
                Gap::Space
            }
        }
        Gap::LineEnd => Gap::LineEnd,
    }
}

/// What has to stand behind a symbol.
fn gap_behind(symbol: Symbol) -> Gap
    ensures { result ≡ spec.gap_behind (tokens.Symbol symbol) }
{
    if symbol == Symbol::OpenParen {
        Gap::Nothing
    } else if symbol == Symbol::Semicolon {
        Gap::LineEnd
    } else {
        Gap::Space
    }
}

/// An octet of a string, twice if it is a quote.
fn push_doubled(octets: &mut Vec<u8>, octet: u8) -> Result<(), AllocError>
    ensures { OnOk result (octets.new.items ≡ octets.old.items ++ spec.octet_doubled octet) }
{
    if octet == QUOTE {
        octets.extend_from_slice(&[QUOTE, QUOTE])?;
        Ok(())
    } else {
        octets.push(octet)?;
        Ok(())
    }
}

/// The octets of a string in quotes, with its quotes doubled.
fn doubled(alloc: Global, text: &[u8]) -> Result<Vec<u8>, AllocError>
    ensures { IfOk result (λ octets. octets.items ≡ QUOTE ∷ (quotes_doubled text.now ++ QUOTE ∷ [])) }
{
    let mut octets = Vec::from_slice(alloc, &[QUOTE])?;
    for octet in text {
        push_doubled(&mut octets, *octet)?;
    }
    octets.push(QUOTE)?;
    Ok(octets)
}

impl Layout {
    /// The octets of a gap.
    fn put_gap(&mut self, gap: Gap) -> Result<(), AllocError>
        ensures { OnOk result (self.new ≡ record { text = self.old.text ++ spec.gap_octets gap; gap = self.old.gap }) }
    {
        match gap {
            Gap::Nothing => {}
            Gap::Space => self.octets.push(b' ')?,
            Gap::LineEnd => self.octets.push(b'\n')?,
        }
        Ok(())
    }

    /// The octets of a token, and what has to stand behind it.
    fn put_octets(&mut self, octets: &[u8], behind: Gap) -> Result<(), AllocError>
        ensures { OnOk result (self.new ≡ record { text = self.old.text ++ octets.now; gap = behind }) }
    {
        self.octets.extend_from_slice(octets)?;
        self.gap = behind;
        Ok(())
    }

    fn symbol(&mut self, symbol: Symbol) -> Result<(), AllocError>
        ensures { OnOk result (self.new ≡ laid self.old (tokens.Symbol symbol ∷ [])) }
    {
        let before = gap_before(self.gap, symbol);
        self.put_gap(before)?;
        self.put_octets(symbol.text().as_bytes(), gap_behind(symbol))?;
        Ok(())
    }

    /// A token that is no symbol.
    fn word(&mut self, octets: &[u8]) -> Result<(), AllocError>
        ensures { OnOk result (self.new ≡ record { text = (self.old.text ++ spec.gap_octets self.old.gap) ++ octets.now; gap = Gap.Space }) }
    {
        let before = self.gap;
        self.put_gap(before)?;
        self.put_octets(octets, Gap::Space)?;
        Ok(())
    }

    fn column(&mut self, column: Column) -> Result<(), AllocError>
        ensures { OnOk result (self.new ≡ laid self.old (tokens.Column column ∷ [])) }
    {
        self.word(column.text().as_bytes())?;
        Ok(())
    }

    fn operator(&mut self, operator: ComparisonOperator) -> Result<(), AllocError>
        ensures { OnOk result (self.new ≡ laid self.old (tokens.Operator operator ∷ [])) }
    {
        self.word(operator.text().as_bytes())?;
        Ok(())
    }

    fn name(&mut self, name: &Name) -> Result<(), AllocError>
        ensures { OnOk result (self.new ≡ laid self.old (tokens.Name name.now ∷ [])) }
    {
        self.word(name.as_slice())?;
        Ok(())
    }

    fn number(&mut self, number: &Octets) -> Result<(), AllocError>
        ensures { OnOk result (self.new ≡ laid self.old (tokens.Number number.now ∷ [])) }
    {
        self.word(number.as_slice())?;
        Ok(())
    }

    /// A string, with its quotes doubled.
    fn quoted(&mut self, text: &Octets) -> Result<(), AllocError>
        ensures { OnOk result (self.new ≡ laid self.old (tokens.Quoted text.now ∷ [])) }
    {
        let doubled = doubled(self.alloc, text.as_slice())?;
        self.word(doubled.as_slice())?;
        Ok(())
    }
}

impl Layout {
    fn literal(&mut self, literal: &Literal) -> Result<(), AllocError>
        ensures { OnOk result (self.new ≡ laid self.old (grammar.literal_token literal.now ∷ [])) }
    {
        match literal {
            Literal::Number(number) => self.number(number),
            Literal::Quoted(text) => self.quoted(text),
        }
    }

    /// Literals behind commas.
    fn more_literals(&mut self, literals: &[Literal]) -> Result<(), AllocError>
        ensures { OnOk result (self.new ≡ laid self.old (grammar.comma_before_each grammar.literal_token literals.now)) }
    {
        for literal in literals {
            self.symbol(Symbol::Comma)?;
            self.literal(literal)?;
        }
        Ok(())
    }

    #[tactic(auto, using(crate::proofs::PrintedParts::laid_two, crate::proofs::PrintedParts::laid_none))]
    fn literals(&mut self, literals: &[Literal]) -> Result<(), AllocError>
        ensures { OnOk result (self.new ≡ laid self.old (grammar.with_commas grammar.literal_token literals.now)) }
    {
        match literals {
            [] => Ok(()),
            [first, more @ ..] => {
                self.literal(first)?;
                self.more_literals(more)?;
                Ok(())
            }
        }
    }

    /// Columns behind commas.
    fn more_columns(&mut self, columns: &[Column]) -> Result<(), AllocError>
        ensures { OnOk result (self.new ≡ laid self.old (grammar.comma_before_each tokens.Column columns.now)) }
    {
        for column in columns {
            self.symbol(Symbol::Comma)?;
            self.column(*column)?;
        }
        Ok(())
    }

    #[tactic(auto, using(crate::proofs::PrintedParts::laid_two, crate::proofs::PrintedParts::laid_none))]
    fn columns(&mut self, columns: &Columns) -> Result<(), AllocError>
        ensures { OnOk result (self.new ≡ laid self.old (grammar.columns_tokens columns.now)) }
    {
        match columns {
            Columns::All => self.symbol(Symbol::Star),
            Columns::Listed(columns) => match columns.as_slice() {
                [] => Ok(()),
                [first, more @ ..] => {
                    self.column(*first)?;
                    self.more_columns(more)?;
                    Ok(())
                }
            },
        }
    }

    /// Names behind commas.
    fn more_names(&mut self, names: &[Name]) -> Result<(), AllocError>
        ensures { OnOk result (self.new ≡ laid self.old (grammar.comma_before_each tokens.Name names.now)) }
    {
        for name in names {
            self.symbol(Symbol::Comma)?;
            self.name(name)?;
        }
        Ok(())
    }

    #[tactic(auto, using(crate::proofs::PrintedParts::laid_two, crate::proofs::PrintedParts::laid_none))]
    fn names(&mut self, names: &[Name]) -> Result<(), AllocError>
        ensures { OnOk result (self.new ≡ laid self.old (grammar.with_commas tokens.Name names.now)) }
    {
        match names {
            [] => Ok(()),
            [first, more @ ..] => {
                self.name(first)?;
                self.more_names(more)?;
                Ok(())
            }
        }
    }

    #[tactic(auto, using(crate::proofs::PrintedParts::laid_two, crate::proofs::PrintedParts::laid_none))]
    fn test(&mut self, test: &Test) -> Result<(), AllocError>
        ensures { OnOk result (self.new ≡ laid self.old (grammar.test_tokens test.now)) }
    {
        match test {
            Test::Compare(operator, literal) => {
                self.operator(*operator)?;
                self.literal(literal)?;
                Ok(())
            }
            Test::In(literals) => {
                self.symbol(Symbol::In)?;
                self.symbol(Symbol::OpenParen)?;
                self.literals(literals.as_slice())?;
                self.symbol(Symbol::CloseParen)?;
                Ok(())
            }
        }
    }

    #[tactic(auto, using(crate::proofs::PrintedParts::laid_two, crate::proofs::PrintedParts::laid_none))]
    fn predicate(&mut self, predicate: &Predicate) -> Result<(), AllocError>
        ensures { OnOk result (self.new ≡ laid self.old (grammar.predicate_tokens predicate.now)) }
    {
        self.column(predicate.column)?;
        self.test(&predicate.test)?;
        Ok(())
    }

    fn piece(&mut self, piece: &Piece) -> Result<(), AllocError>
        ensures { OnOk result (self.new ≡ laid self.old (grammar.piece_tokens piece.now)) }
    {
        match piece {
            Piece::Not => self.symbol(Symbol::Not),
            Piece::Open => self.symbol(Symbol::OpenParen),
            Piece::Close => self.symbol(Symbol::CloseParen),
            Piece::And => self.symbol(Symbol::And),
            Piece::Or => self.symbol(Symbol::Or),
            Piece::Predicate(predicate) => self.predicate(predicate),
        }
    }

    fn pieces(&mut self, pieces: &[Piece]) -> Result<(), AllocError>
        ensures { OnOk result (self.new ≡ laid self.old (grammar.pieces_tokens pieces.now)) }
    {
        for piece in pieces {
            self.piece(piece)?;
        }
        Ok(())
    }

    #[tactic(auto, using(crate::proofs::PrintedParts::laid_two, crate::proofs::PrintedParts::laid_none))]
    fn source(&mut self, source: &QuerySource) -> Result<(), AllocError>
        ensures { OnOk result (self.new ≡ laid self.old (grammar.source_tokens source.now)) }
    {
        match source {
            QuerySource::One(name) => self.name(name),
            QuerySource::Merge(names) => {
                self.symbol(Symbol::Merge)?;
                self.symbol(Symbol::OpenParen)?;
                self.names(names.as_slice())?;
                self.symbol(Symbol::CloseParen)?;
                Ok(())
            }
        }
    }

    #[tactic(auto, using(crate::proofs::PrintedParts::laid_two, crate::proofs::PrintedParts::laid_none))]
    fn filter(&mut self, filter: &Option<Items<Piece>>) -> Result<(), AllocError>
        ensures { OnOk result (self.new ≡ laid self.old (grammar.clause_tokens Symbol.Where grammar.pieces_tokens filter.now)) }
    {
        match filter {
            None => Ok(()),
            Some(pieces) => {
                self.symbol(Symbol::Where)?;
                self.pieces(pieces.as_slice())?;
                Ok(())
            }
        }
    }

    #[tactic(auto, using(crate::proofs::PrintedParts::laid_two, crate::proofs::PrintedParts::laid_none))]
    fn order(&mut self, order: Option<Direction>) -> Result<(), AllocError>
        ensures { OnOk result (self.new ≡ laid self.old (grammar.clause_tokens Symbol.Order (λ d. grammar.direction_token d ∷ []) order)) }
    {
        match order {
            None => Ok(()),
            Some(Direction::Ascending) => {
                self.symbol(Symbol::Order)?;
                self.symbol(Symbol::Asc)?;
                Ok(())
            }
            Some(Direction::Descending) => {
                self.symbol(Symbol::Order)?;
                self.symbol(Symbol::Desc)?;
                Ok(())
            }
        }
    }

    #[tactic(auto, using(crate::proofs::PrintedParts::laid_two, crate::proofs::PrintedParts::laid_none))]
    fn limit(&mut self, limit: &Option<Octets>) -> Result<(), AllocError>
        ensures { OnOk result (self.new ≡ laid self.old (grammar.clause_tokens Symbol.Limit (λ n. tokens.Number n ∷ []) limit.now)) }
    {
        match limit {
            None => Ok(()),
            Some(number) => {
                self.symbol(Symbol::Limit)?;
                self.number(number)?;
                Ok(())
            }
        }
    }

    #[tactic(auto, using(crate::proofs::PrintedParts::laid_two, crate::proofs::PrintedParts::laid_none))]
    fn query(&mut self, query: &Query) -> Result<(), AllocError>
        ensures { OnOk result (self.new ≡ laid self.old (grammar.query_tokens query.now)) }
    {
        self.symbol(Symbol::Select)?;
        self.columns(&query.columns)?;
        self.symbol(Symbol::From)?;
        self.source(&query.source)?;
        self.filter(&query.filter)?;
        self.order(query.order)?;
        self.limit(&query.limit)?;
        Ok(())
    }

    #[tactic(auto, using(crate::proofs::PrintedParts::laid_two, crate::proofs::PrintedParts::laid_none))]
    fn statement(&mut self, statement: &Statement) -> Result<(), AllocError>
        ensures { OnOk result (self.new ≡ laid self.old (grammar.statement_tokens statement.now)) }
    {
        match statement {
            Statement::CreateTable { name, like } => {
                self.symbol(Symbol::Create)?;
                self.symbol(Symbol::Table)?;
                self.name(name)?;
                self.symbol(Symbol::Like)?;
                self.name(like)?;
                Ok(())
            }
            Statement::CreateStream { name, query } => {
                self.symbol(Symbol::Create)?;
                self.symbol(Symbol::Stream)?;
                self.name(name)?;
                self.symbol(Symbol::As)?;
                self.query(query)?;
                Ok(())
            }
            Statement::Insert { table, query } => {
                self.symbol(Symbol::Insert)?;
                self.symbol(Symbol::Into)?;
                self.name(table)?;
                self.query(query)?;
                Ok(())
            }
            Statement::Query(query) => self.query(query),
            Statement::ShowHistogram(table) => {
                self.symbol(Symbol::Show)?;
                self.symbol(Symbol::Histogram)?;
                self.name(table)?;
                Ok(())
            }
            Statement::ShowPartitions(table) => {
                self.symbol(Symbol::Show)?;
                self.symbol(Symbol::Partitions)?;
                self.name(table)?;
                Ok(())
            }
        }
    }

    /// Statements, each with a `;` behind it.
    fn statements(&mut self, statements: &[Statement]) -> Result<(), AllocError>
        ensures { OnOk result (self.new ≡ laid self.old (spec.ended_tokens statements.now)) }
    {
        for statement in statements {
            self.statement(statement)?;
            self.symbol(Symbol::Semicolon)?;
        }
        Ok(())
    }
}

impl Layout {
    fn new(alloc: Global) -> Self
        ensures { result ≡ record { text = []; gap = Gap.Nothing } }
    {
        Layout {
            alloc,
            octets: Vec::new(alloc),
            gap: Gap::Nothing,
        }
    }

    /// A line end behind the last of some statements.
    fn last_line_end(&mut self, statements: &[Statement]) -> Result<(), AllocError>
        ensures { OnOk result (self.new.text ≡ self.old.text ++ spec.last_line_end statements.now) }
    {
        if statements.is_empty() {
            return Ok(());
        }
        self.put_gap(Gap::LineEnd)?;
        Ok(())
    }

    fn into_octets(self) -> Vec<u8>
        ensures { result.items ≡ self.text }
    {
        self.octets
    }
}

/// The text of a script: what `parse` reads as the same script but for the places of its tokens, where it isn't too long.
pub fn print(alloc: Global, script: &Script) -> Result<Octets, AllocError>
    ensures { IfOk result (λ text. text ≡ spec.printed script.now.statements) }
{
    let mut layout = Layout::new(alloc);
    layout.statements(script.statements())?;
    layout.last_line_end(script.statements())?;
    let octets = layout.into_octets();
    let text = Octets::from_vec(alloc, octets)?;
    Ok(text)
}
