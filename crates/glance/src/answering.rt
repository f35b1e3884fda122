//! The answer over a listing.

ghost use Rattle.std.specs.Prelude.{◌≡◌, ◌<◌, ◌++◌, IfErr, IfOk, List, None, OnOk, Some, map};
ghost use Rattle.std.specs.Arc.{arc_value};
ghost use Rattle.std.specs.List.{AllByRecursion};
ghost use Rattle.arch_types.specs.declared.row.Row.{Row};
ghost use Rattle.asks.specs.Names.{parameter_number};
ghost use Rattle.asks.specs.Refusals.{request_refusal};
ghost use Rattle.late_marks.specs.Mark.{is_late_by};
ghost use Rattle.param_segments.specs.Plans.{ArePartsOver, HasValuesOf};
ghost use Rattle.part_answers.specs.PartCells.{answer_over_rows};
ghost use Rattle.glance.specs.Answers.{IsNowAnswer, IsNowRefusal, IsNotAsked};
ghost use Rattle.glance.specs.Asked.{AreSetsOver, HasSeenValues, begin_behind, is_within, late_where, seen_part, set_where, sets_where};

use crate::span::Span;
use arch_types::steps::Steps;
use asks::{Answer, Request};
use glance_board::{Archived, Contents, Listing, PublishedMark, PublishedMarks};
use intervals::Interval;
use mdb_model::Mdb;
use param_segments::{Part, Parts, Plan};
use part_answers::answer::answer;
use refusals::Refusal;
use std::alloc::{AllocError, Global};
use std::marker::Brand;
use std::sync::Arc;
use std::sync::ledger::{Blank, Ledger};

/// The number of the parameter that a request names, where its range doesn't end before it begins.
fn asked_number(mdb: &Mdb, request: &Request) -> Result<u16, Refusal>
    ensures number { IfOk result (λ number. parameter_number mdb.now request.now.parameter ≡ Some number) }
    ensures asked { IfOk result (λ _. request_refusal mdb.now request.now ≡ None) }
    ensures refused { IfErr result (IsNotAsked mdb.now request.now) }
{
    let Some(number) = mdb.parameter_number(request.parameter.as_str()) else {
        return Err(Refusal::UnknownParameter);
    };
    if request.to < request.from {
        return Err(Refusal::BadRange {
            from: request.from,
            to: request.to,
        });
    }
    Ok(number)
}

/// Whether what changed an interval last came at or after the base of its last fill, or there was none.
fn is_late(mark: &PublishedMark) -> bool
    ensures { result ≡ is_late_by mark.now.last mark.now.base }
{
    match mark.base {
        Some(base) => base <= mark.last,
        None => true,
    }
}

/// The first late interval of a span among some marks.
fn late_among(marks: &[Arc<PublishedMark, Global>], span: Span) -> Option<Interval>
    ensures { result ≡ late_where (is_within span) (map arc_value marks.now) }
{
    for mark in marks {
        if span.has(mark.interval) && is_late(mark) {
            return Some(mark.interval);
        }
    }
    None
}

/// Whether marks begin behind a span.
fn begin_behind(marks: &[Arc<PublishedMark, Global>], span: Span) -> bool
    ensures { result ≡ begin_behind span (map arc_value marks.now) }
{
    match marks.first() {
        Some(mark) => span.last.0 < mark.interval.0,
        None => false,
    }
}

/// The first late interval of a span.
fn late_in(marks: &PublishedMarks, span: Span) -> Option<Interval>
    ensures { result ≡ late_where (is_within span) marks.now }
{
    for block in marks.blocks_from(span.first.0) {
        if begin_behind(block.items(), span) {
            return None;
        }
        if let Some(interval) = late_among(block.items(), span) {
            return Some(interval);
        }
    }
    None
}

/// Adds what a plan has of an interval, where a span has it: its set.
fn add_part(mark: &PublishedMark, span: Span, parts: &mut Vec<Part>) -> Result<(), AllocError>
    ensures { OnOk result (map seen_part parts.new.items ≡
        map seen_part parts.old.items ++ set_where (is_within span) mark.now) }
{
    if !span.has(mark.interval) {
        return Ok(());
    }
    let Some(set) = &mark.set else {
        return Ok(());
    };
    let set = Arc::try_clone(set)?;
    let interval = mark.interval;
    parts.push(Part::Set { interval, set })?;
    Ok(())
}

/// Adds the sets of the intervals of a span among some marks.
fn add_parts(
    marks: &[Arc<PublishedMark, Global>],
    span: Span,
    parts: &mut Vec<Part>,
) -> Result<(), AllocError>
    ensures { OnOk result (map seen_part parts.new.items ≡
        map seen_part parts.old.items ++ sets_where (is_within span) (map arc_value marks.now)) }
{
    for mark in marks {
        add_part(mark, span, parts)?;
    }
    Ok(())
}

/// The sets of the intervals of a span.
fn parts_in(alloc: Global, marks: &PublishedMarks, span: Span) -> Result<Parts, AllocError>
    ensures { IfOk result (λ parts. map seen_part parts ≡ sets_where (is_within span) marks.now) }
{
    let mut parts = Vec::new(alloc);
    for block in marks.blocks_from(span.first.0) {
        if begin_behind(block.items(), span) {
            return Ok(Parts::from_vec(parts));
        }
        add_parts(block.items(), span, &mut parts)?;
    }
    Ok(Parts::from_vec(parts))
}

/// The answer over a plan, of which nobody counts the steps: none is taken, as it has sets alone.
fn answer_uncounted<L: Ledger>(
    alloc: Global,
    blank: Blank,
    plan: Plan,
    number: u16,
    request: &Request,
) -> Result<Answer, AllocError>
    requires name { blank.name ≡ L.name }
    requires parts { blank.parts ≡ L.parts }
    requires some { 0 < blank.parts }
    requires values { AllByRecursion (HasValuesOf (arc_value plan.mdb)) plan.parts }
    ensures front { IfOk result (λ answer. answer.front ≡ plan.front) }
    ensures over { (rows : List Row) → ArePartsOver (arc_value plan.mdb) plan.parts rows →
        IfOk result (λ answer. answer.cells ≡ answer_over_rows (arc_value plan.mdb) number request.now rows) }
{
    let (book, share) = blank.open::<L>();
    let mut steps = Steps::new(book, share);
    answer(alloc, plan, number, request, &mut steps)
}

/// The answer over the sets of the intervals of a span.
fn answer_in(
    alloc: Global,
    contents: &Contents,
    span: Span,
    number: u16,
    request: &Request,
) -> Result<Answer, AllocError>
    requires { AllByRecursion (HasSeenValues (arc_value contents.now.mdb))
        (sets_where (is_within span) contents.now.marks) }
    ensures front { IfOk result (λ answer. answer.front ≡ contents.now.front) }
    ensures over { (rows : List Row) →
        AreSetsOver (arc_value contents.now.mdb) (sets_where (is_within span) contents.now.marks) rows →
        IfOk result (λ answer. answer.cells ≡
        answer_over_rows (arc_value contents.now.mdb) number request.now rows) }
{
    let parts = parts_in(alloc, &contents.marks, span)?;
    let mdb = Arc::try_clone(&contents.mdb)?;
    let plan = Plan {
        front: contents.front,
        exponent: contents.exponent,
        mdb,
        parts,
    };
    answer_uncounted::<Brand>(alloc, Blank::new(1), plan, number, request)
}

/// The answer to a request over a listing, where no interval that its range meets is late.
pub(crate) fn answered<X: Archived>(
    alloc: Global,
    listing: &Listing<X>,
    request: &Request,
) -> Result<Answer, Refusal>
    ensures answered { IfOk result (IsNowAnswer X.stays listing.now request.now) }
    ensures refused { IfErr result (IsNowRefusal X.stays listing.now request.now) }
{
    let contents = listing.contents();
    let number = asked_number(&contents.mdb, request)?;
    let span = Span::met(request, contents.exponent);
    if let Some(interval) = late_in(&contents.marks, span) {
        return Err(Refusal::Late { interval });
    }
    match answer_in(alloc, contents, span, number, request) {
        Ok(answer) => Ok(answer),
        Err(_) => Err(Refusal::OutOfMemory),
    }
}
