//! Tests of the crates that make an index, over their public calls: each module has a few functions with tables of
//! cases, whose expected values were worked out by hand.
#![tactic(auto)]

#[cfg(test)]
mod addresses;
#[cfg(test)]
mod index;
#[cfg(test)]
mod scan;
#[cfg(test)]
mod sets;
#[cfg(test)]
mod tables;
#[cfg(test)]
mod units;
#[cfg(test)]
mod written;
