//! The files that a command names, read in the order of its arguments and within the limits of the program.
//!
//! All objects stand in one buffer, each with its span, and no file's bytes are copied from there. Each file has at most 2^30 bytes, and so
//! have all objects together.
#![tactic(auto)]

mod error;
mod files_read;
mod reading;

pub use error::ReadError;
pub use files_read::FilesRead;
pub use reading::{read_files, read_named};
