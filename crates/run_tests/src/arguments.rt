//! The arguments of a run.

use std::alloc::Global;
use std::test::Fail;

/// The arguments of a line, between single spaces.
pub(crate) fn arguments_of(alloc: Global, line: &str) -> Result<Vec<String>, Fail> {
    let mut words = Vec::new(alloc);
    for word in line.split_whitespace() {
        words.push(String::from_str(alloc, word)?)?;
    }
    Ok(words)
}
