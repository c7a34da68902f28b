//! Tests of the program's parts over their public calls: the files and the sink, the texts, and the files of a command. Each module
//! has a few functions with tables of cases, whose expected values were worked out by hand.
#![tactic(auto)]

#[cfg(test)]
mod command_files;
#[cfg(test)]
mod outside;
#[cfg(test)]
mod texts;
