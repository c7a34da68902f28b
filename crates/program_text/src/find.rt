//! The command `find INDEX NAMEHEX`: its arguments, and the text of the CU vector that was found.
ghost use Rattle.std.specs.Prelude.{◌≡◌, IfOk, MatchResult};
ghost use Rattle.program_text.specs.Arguments.{arguments_of};
ghost use Rattle.program_text.specs.Find.{after_find, find_of, found_of};

use crate::hexadecimal::is_hexadecimal;
use crate::report::push_element;
use std::alloc::{AllocError, Global};

/// How many bytes a line takes: eight digits and a line feed.
const LINE: usize = 9;

/// The command `find`.
#[derive(Clone, Copy, Debug)]
pub struct FindCommand<'w> {
    /// The file of the index, the argument at index 1.
    pub index: &'w str,
    /// The hexadecimal digits of the name, two for each byte, the argument at index 2.
    pub name: &'w str,
}

/// Reads the arguments after `find`.
pub(crate) fn read_find(words: &[String]) -> Result<FindCommand<'_>, usize>
    ensures { MatchResult result
        (λ c. after_find (arguments_of words.now) ≡ Ok (find_of c))
        (λ index. after_find (arguments_of words.now) ≡ Err index) }
{
    let [index, rest @ ..] = words else {
        return Err(1);
    };
    let [name, rest @ ..] = rest else {
        return Err(2);
    };
    if !is_hexadecimal(name.as_str()) {
        return Err(2);
    }
    if !rest.is_empty() {
        return Err(3);
    }
    Ok(FindCommand {
        index: index.as_str(),
        name: name.as_str(),
    })
}

/// Returns the text of a CU vector: each element on a line of its own, in eight lower-case hexadecimal digits.
pub fn found_text(alloc: Global, elements: &[u32]) -> Result<Vec<u8>, AllocError>
    ensures { IfOk result (λ text. text.items ≡ found_of elements.now) }
{
    let mut out = Vec::with_capacity(alloc, elements.len().saturating_mul(LINE))?;
    let mut rest = elements;
    while let [element, after @ ..] = rest {
        push_element(&mut out, *element)?;
        out.extend_from_slice(b"\n")?;
        rest = after;
    }
    Ok(out)
}
