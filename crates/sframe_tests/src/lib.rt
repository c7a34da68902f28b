//! Tests of SFrame sections (SFrame 2) over public calls, each a table of many cases, with bytes that were worked
//! out by hand.
#![tactic(auto)]

#[cfg(test)]
mod find;
#[cfg(test)]
mod frames;
#[cfg(test)]
mod header;
