//! The results of jobs, sorted by what they are.

ghost use Rattle.std.specs.Prelude.{◌≡◌, ◌≤◌, ◌+◌, ◌++◌, [], vec_len, vec_capacity, IfOk};
ghost use Rattle.std.specs.List.{filter_map};
ghost use Rattle.live_session.specs.Results.{answers_in, end_in, other_in, source_in, source_of};

use crate::order::{JobEnd, Order};
use live_asks::AskAnswers;
use load_jobs::LinkEnd;
use refusals::Refusal;
use std::alloc::{AllocError, Global};

/// What came of jobs, in their order.
#[derive(Drop)]
pub(crate) struct JobResults<S> {
    /// The sources of the links, and how these ended.
    pub(crate) sources: Vec<S>,
    pub(crate) ends: Vec<LinkEnd>,
    /// The answers of each reader.
    pub(crate) answers: Vec<AskAnswers>,
    /// Why each reader and each filler was refused, if it was.
    pub(crate) others: Vec<Option<Refusal>>,
}

impl<S: Drop> JobResults<S> {
    /// None, with room for those of so many jobs.
    pub(crate) fn new(alloc: Global, jobs: usize) -> Result<JobResults<S>, AllocError>
        ensures none { IfOk result (λ results. (results.sources.items ≡ []) × (results.ends.items ≡ [])
            × (results.answers.items ≡ []) × (results.others.items ≡ [])) }
        ensures room { IfOk result (λ results. (vec_capacity results.sources ≡ jobs)
            × (vec_capacity results.ends ≡ jobs) × (vec_capacity results.answers ≡ jobs)
            × (vec_capacity results.others ≡ jobs)) }
    {
        Ok(JobResults {
            sources: Vec::with_capacity(alloc, jobs)?,
            ends: Vec::with_capacity(alloc, jobs)?,
            answers: Vec::with_capacity(alloc, jobs)?,
            others: Vec::with_capacity(alloc, jobs)?,
        })
    }
}

/// Sorts what came of jobs. There's room for it, and nothing was sorted before.
pub(crate) fn sort_results<S: Drop>(ends: Vec<JobEnd<S>>, results: JobResults<S>) -> JobResults<S>
    requires none { (results.sources.items ≡ []) × (results.ends.items ≡ []) × (results.answers.items ≡ [])
        × (results.others.items ≡ []) }
    requires room { (vec_len ends ≤ vec_capacity results.sources) × (vec_len ends ≤ vec_capacity results.ends)
        × (vec_len ends ≤ vec_capacity results.answers) × (vec_len ends ≤ vec_capacity results.others) }
    ensures sources { result.sources.items ≡ filter_map source_in ends.items }
    ensures ends { result.ends.items ≡ filter_map end_in ends.items }
    ensures answers { result.answers.items ≡ filter_map answers_in ends.items }
    ensures others { result.others.items ≡ filter_map other_in ends.items }
{
    let JobResults {
        mut sources,
        ends: mut link_ends,
        mut answers,
        mut others,
    } = results;
    for end in ends {
        match end {
            JobEnd::Link {
                link: _,
                source,
                end,
            } => {
                sources.push_reserved(source);
                link_ends.push_reserved(end);
            }
            JobEnd::Reader {
                answers: read,
                refusal,
            } => {
                answers.push_reserved(read);
                others.push_reserved(refusal);
            }
            JobEnd::Filler { refusal } => others.push_reserved(refusal),
        }
    }
    JobResults {
        sources,
        ends: link_ends,
        answers,
        others,
    }
}

/// The sources of links that weren't run. There's room for them.
pub(crate) fn sources_back<S: Drop>(orders: Vec<Order<S>>, room: Vec<S>) -> Vec<S>
    requires none { room.items ≡ [] }
    requires room { vec_len orders ≤ vec_capacity room }
    ensures { result.items ≡ filter_map source_of orders.items }
{
    let mut sources = room;
    for order in orders {
        if let Order::Link {
            link: _,
            source,
            wake: _,
        } = order
        {
            sources.push_reserved(source);
        }
    }
    sources
}
