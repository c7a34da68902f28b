//! Tests of whole runs of the program: reports of tables, answers of queries, summaries of `demo`, and faults of files and the sink. Each
//! module has a few functions with tables of cases, whose expected values were worked out by hand.
#![tactic(auto)]

#[cfg(test)]
mod arguments;
#[cfg(test)]
mod demos;
#[cfg(test)]
mod merges;
#[cfg(test)]
mod queries;
#[cfg(test)]
mod reports;
#[cfg(test)]
mod runs;
