//! The command `merge FIRST SECOND OFFSET`: its arguments, and the text of the merged index.
ghost use Rattle.std.specs.Prelude.{◌≡◌, IfOk, MatchResult};
ghost use Rattle.program_text.specs.Arguments.{arguments_of};
ghost use Rattle.program_text.specs.Merge.{after_merge, merge_of, merged_text};

use crate::number::read_number;
use crate::report::{LINE, push_section, room_of_rows};
use std::alloc::{AllocError, Global};

/// The command `merge`.
#[derive(Clone, Copy, Debug)]
pub struct MergeCommand<'w> {
    /// The file of the first index, the argument at index 1.
    pub first: &'w str,
    /// The file of the second index, the argument at index 2.
    pub second: &'w str,
    /// How many bytes the units of the second index are moved, the argument at index 3.
    pub offset: u64,
}

/// Reads the arguments after `merge`.
pub(crate) fn read_merge(words: &[String]) -> Result<MergeCommand<'_>, usize>
    ensures { MatchResult result
        (λ c. after_merge (arguments_of words.now) ≡ Ok (merge_of c))
        (λ index. after_merge (arguments_of words.now) ≡ Err index) }
{
    let [first, rest @ ..] = words else {
        return Err(1);
    };
    let [second, rest @ ..] = rest else {
        return Err(2);
    };
    let [offset, rest @ ..] = rest else {
        return Err(3);
    };
    let Some(offset) = read_number(offset.as_bytes()) else {
        return Err(3);
    };
    if !rest.is_empty() {
        return Err(4);
    }
    Ok(MergeCommand {
        first: first.as_str(),
        second: second.as_str(),
        offset,
    })
}

/// Returns the text of an index: the line `index LENGTH`, and its bytes, 32 a line.
pub fn index_text(alloc: Global, index: &[u8]) -> Result<Vec<u8>, AllocError>
    ensures { IfOk result (λ text. text.items ≡ merged_text index.now) }
{
    let room = room_of_rows(index).saturating_add(LINE);
    let mut out = Vec::with_capacity(alloc, room)?;
    push_section(&mut out, "index", index)?;
    Ok(out)
}
