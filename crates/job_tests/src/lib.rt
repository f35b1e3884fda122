// Tests of jobs and backfiller: that jobs run beside each other and come back in their order, how often a filler begins
// and what he passes, and how long one waits for an interval that grows. No clause says these but for the order.
#![tactic(auto)]

#[cfg(test)]
mod ends;
#[cfg(test)]
mod filler_tests;
#[cfg(test)]
mod job_tests;
#[cfg(test)]
mod queue;
