//! Tests of the ELF crates (System V gABI) over their public calls, each a table of many cases. Expected values
//! were worked out by hand, or come from a plain slow reading of the format that is the tests' own.
#![tactic(auto)]

#[cfg(test)]
mod classes;
#[cfg(test)]
mod faults;
#[cfg(test)]
mod plain_rules;
#[cfg(test)]
mod records;
#[cfg(test)]
mod relocs;
#[cfg(test)]
mod setters;
#[cfg(test)]
mod view;
#[cfg(test)]
mod words;
