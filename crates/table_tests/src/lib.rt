//! Tests of the tables of objects over the public calls: their indexes, with lookups, and their refusals. Each module has a few
//! functions with tables of cases, whose expected values were worked out by hand.
#![tactic(auto)]

#[cfg(test)]
mod refusals;
#[cfg(test)]
mod tables;
