//! The texts of the program: the arguments of its command line, the layout that a linker hands in, and what each command writes.
//!
//! Each has its definition in `specs/`. A text is a list of lines, and every number is decimal or lower-case hexadecimal.
#![tactic(auto)]

mod browse;
mod command;
mod demo;
mod find;
mod frame;
mod hexadecimal;
mod laws;
mod layout;
mod line;
mod merge;
mod number;
mod pieces;
mod query;
mod report;
mod tables;

pub use browse::{BrowseCommand, listing_start};
pub use command::{Command, read_command};
pub use demo::{DemoCommand, Summary, summary_text};
pub use find::{FindCommand, found_text};
pub use frame::{FrameCommand, located_text};
pub use laws::{numbers_have_one_text, small_commands, small_layouts};
pub use layout::{Layout, LayoutError, read_layout};
pub use merge::{MergeCommand, index_text};
pub use query::Query;
pub use report::{push_name, push_tables, report_start, room_of_name};
pub use tables::TablesCommand;
