//! The command `demo N`: its argument, and the summary of the tables that it derives.
ghost use Rattle.std.specs.Prelude.{◌≡◌, ◌≤◌, IfOk, MatchResult};
ghost use Rattle.program_text.specs.Arguments.{arguments_of};
ghost use Rattle.program_text.specs.Demo.{demo_count, after_demo, shown_of};

use crate::number::read_number;
use crate::report::{LINE, push_fields, push_outcome};
use sframe_format::SframeOutcome;
use std::alloc::{AllocError, Global};

/// The largest number.
const LIMIT: u64 = 1000;

/// The command `demo`.
#[derive(Clone, Copy, Debug)]
pub struct DemoCommand {
    /// How many objects the input has, at most 1000: the argument at index 1.
    pub count: usize,
    pub ghost few: { count ≤ 1000 },
}

/// What `demo` shows of its tables.
#[derive(Clone, Copy, Debug)]
pub struct Summary {
    /// How many objects there are.
    pub objects: u64,
    /// How many compilation units (CUs) they hold.
    pub units: u64,
    /// How many names the CUs publish.
    pub names: u64,
    /// How many bytes the index has.
    pub index: u64,
    /// How many elements the CU vector of `common` has.
    pub common: u64,
    /// What was done to the SFrame section.
    pub outcome: SframeOutcome,
}

/// Returns the number that a word is the decimal text of, where it is at most 1000.
fn read_count(word: &[u8]) -> Option<u64>
    ensures { result ≡ demo_count word.now }
{
    let count = read_number(word)?;
    if count > LIMIT {
        return None;
    }
    Some(count)
}

/// Reads the arguments after `demo`.
pub(crate) fn read_demo(words: &[String]) -> Result<DemoCommand, usize>
    ensures { MatchResult result
        (λ c. after_demo (arguments_of words.now) ≡ Ok c.count)
        (λ index. after_demo (arguments_of words.now) ≡ Err index) }
{
    let [count, rest @ ..] = words else {
        return Err(1);
    };
    let Some(count) = read_count(count.as_bytes()) else {
        return Err(1);
    };
    if !rest.is_empty() {
        return Err(2);
    }
    Ok(DemoCommand {
        count: count as usize,
    })
}

/// Returns the text of a summary: the lines `objects N`, `units N`, `names N`, `index LENGTH`, `common N`, and that of the outcome.
pub fn summary_text(alloc: Global, summary: &Summary) -> Result<Vec<u8>, AllocError>
    ensures { IfOk result (λ text. text.items ≡ shown_of summary.now) }
{
    let mut out = Vec::with_capacity(alloc, 6 * LINE)?;
    push_fields(&mut out, "objects", &[summary.objects])?;
    push_fields(&mut out, "units", &[summary.units])?;
    push_fields(&mut out, "names", &[summary.names])?;
    push_fields(&mut out, "index", &[summary.index])?;
    push_fields(&mut out, "common", &[summary.common])?;
    push_outcome(&mut out, summary.outcome)?;
    Ok(out)
}
