//! Tests of the browser of indexes, over its public calls: each module has a few functions with tables of cases, whose
//! expected values were worked out by hand.
#![tactic(auto)]

#[cfg(test)]
mod answers;
#[cfg(test)]
mod refusals;
#[cfg(test)]
mod written;
