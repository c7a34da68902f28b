//! Tests of the merge of two indexes, over its public calls. The expected values were worked out by hand.
#![tactic(auto)]

#[cfg(test)]
mod merging;
#[cfg(test)]
mod refusing;
