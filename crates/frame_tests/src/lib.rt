//! Tests of splitting `.eh_frame` (Linux Standard Base, The .eh_frame Section) over the public calls. Expected values were
//! worked out by hand.
#![tactic(auto)]

#[cfg(test)]
mod appended;
#[cfg(test)]
mod lists;
#[cfg(test)]
mod sections;
