//! The arguments of the command line: a command, and what it is given.
//!
//! Indexes of arguments count from 0, without the program's name.
ghost use Rattle.std.specs.Prelude.{◌≡◌, ◌≤◌, IfOk, MatchResult};
ghost use Rattle.program_text.specs.Arguments.{arguments_of};
ghost use Rattle.program_text.specs.Command.{command_of, request_of, object_count};
ghost use Rattle.program_text.specs.Tables.{object_limit};

use crate::browse::read_browse;
use crate::demo::{DemoCommand, read_demo};
use crate::find::read_find;
use crate::frame::read_frame;
use crate::merge::{MergeCommand, read_merge};
use crate::query::Query;
use crate::tables::{TablesCommand, read_tables};

/// A command, with what it is given.
#[derive(Clone, Copy, Debug)]
pub enum Command<'w> {
    /// The tables of objects are derived, and a report of them is written.
    Tables(TablesCommand<'w>),
    /// One thing is asked of one file.
    Query(Query<'w>),
    /// Two indexes are merged.
    Merge(MergeCommand<'w>),
    /// The tables of a large input are derived, and a summary of them is written.
    Demo(DemoCommand),
}

/// Reads the arguments of the command line, without the program's name.
///
/// The error is the index, from 0, of the first wrong or missing argument.
pub fn read_command(words: &[String]) -> Result<Command<'_>, usize>
    ensures exactly { MatchResult result
        (λ c. command_of (arguments_of words.now) ≡ Ok (request_of c))
        (λ index. command_of (arguments_of words.now) ≡ Err index) }
    ensures few { IfOk result (λ c. object_count c ≤ object_limit) }
{
    let [command, rest @ ..] = words else {
        return Err(0);
    };
    match command.as_str() {
        "tables" => match read_tables(rest) {
            Ok(command) => Ok(Command::Tables(command)),
            Err(index) => Err(index),
        },
        "find" => match read_find(rest) {
            Ok(command) => Ok(Command::Query(Query::Find(command))),
            Err(index) => Err(index),
        },
        "frame" => match read_frame(rest) {
            Ok(command) => Ok(Command::Query(Query::Frame(command))),
            Err(index) => Err(index),
        },
        "browse" => match read_browse(rest) {
            Ok(command) => Ok(Command::Query(Query::Browse(command))),
            Err(index) => Err(index),
        },
        "merge" => match read_merge(rest) {
            Ok(command) => Ok(Command::Merge(command)),
            Err(index) => Err(index),
        },
        "demo" => match read_demo(rest) {
            Ok(command) => Ok(Command::Demo(command)),
            Err(index) => Err(index),
        },
        _ => Err(0),
    }
}
