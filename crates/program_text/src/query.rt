//! A command that asks one thing of one file, which the argument at index 1 names.
ghost use Rattle.std.specs.Prelude.{◌≡◌};
ghost use Rattle.program_text.specs.Query.{file_asked, query_of};

use crate::browse::BrowseCommand;
use crate::find::FindCommand;
use crate::frame::FrameCommand;

/// A query of one file, with what it is given.
#[derive(Clone, Copy, Debug)]
pub enum Query<'w> {
    /// The CU vector of a name is looked up in an index.
    Find(FindCommand<'w>),
    /// The function of an address is looked up in an SFrame section.
    Frame(FrameCommand<'w>),
    /// The units, the address entries and the names of an index are listed.
    Browse(BrowseCommand<'w>),
}

impl<'w> Query<'w> {
    /// Returns the name of the file, the argument at index 1.
    pub fn file(&self) -> &'w str
        ensures { result.now ≡ file_asked (query_of self.now) }
    {
        match self {
            Query::Find(command) => command.index,
            Query::Frame(command) => command.sframe,
            Query::Browse(command) => command.index,
        }
    }
}
