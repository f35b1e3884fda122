//! A publication, and the rule over all that were made.

use history_items::Item;
use history_items::fills::Fill;
use logbook::{Gain, Play, Rule};
use std::collections::LinkedList;

/// What was published of an archive at one time. No value of it is made.
pub struct Publication<X> {
    pub history: LinkedList<Item>,
    pub fills: LinkedList<Fill>,
    /// Nothing is published behind it.
    pub closed: bool,
    /// What stays of the archive.
    pub fixed: X,
}

/// The rule of the log: each publication goes on from each before it.
pub struct LogRule;

impl<X> Rule<Publication<X>, u64> for LogRule {
    ghost use Rattle.std.specs.Prelude.{[]};
    ghost use base.Fml.{ftrue};
    ghost use Rattle.glance_log.specs.Rules.{IsLogOf};

    ghost holds = { λ cells log. IsLogOf cells log };

    ghost first = { [] };

    ghost hinted = { λ n log. Unit {0} };

    ghost shows = { λ log. [] };

    ghost keeps = { λ names log. ftrue };

    ghost moves = { λ ask before after answer. Unit {0} };
}

/// What a step trades with its caller: nothing.
pub(crate) struct Nothing;

impl<X> Gain<Publication<X>, u64> for Nothing {
    ghost use base.Fml.{ftrue};

    ghost after = { λ names about answer. ftrue };
}

/// The step that adds a publication.
pub(crate) struct Adds;

impl<X> Play<Publication<X>, u64> for Adds {
    ghost use Rattle.glance_log.specs.Rules.{IsPublished};

    ghost then = { IsPublished };
}
