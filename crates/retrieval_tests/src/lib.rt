// Tests of retrieval: answers over every mix of sets and rows, in both orders, with limits and ranges at the borders of
// parts; the same over an archive with fills; a worked row; texts.
#![tactic(auto)]

#[cfg(test)]
mod fills;
#[cfg(test)]
mod mixes;
#[cfg(test)]
mod ordered;
#[cfg(test)]
mod parts;
#[cfg(test)]
mod texts;
