//! Tests of the views of a file over public calls: section groups, symbols, versions and dynamic entries, of both classes.
//! Expected values were worked out by hand.
#![tactic(auto)]

#[cfg(test)]
mod dynamic;
#[cfg(test)]
mod groups;
#[cfg(test)]
mod names;
#[cfg(test)]
mod sections;
#[cfg(test)]
mod shared;
#[cfg(test)]
mod versions;
