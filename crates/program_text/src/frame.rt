//! The command `frame SFRAME BASE ADDRESS`: its arguments, and the text of the function that was found.
ghost use Rattle.std.specs.Prelude.{◌≡◌, IfOk, MatchResult};
ghost use Rattle.program_text.specs.Arguments.{arguments_of};
ghost use Rattle.program_text.specs.Frame.{after_frame, frame_query_of, side_of, located_of};

use crate::number::read_number;
use itoa::Buffer;
use std::alloc::{AllocError, Global};

/// The most bytes that the line takes: its words, and numbers of 20, 21 and 10 digits.
const LINE: usize = 70;

/// The command `frame`.
#[derive(Clone, Copy, Debug)]
pub struct FrameCommand<'w> {
    /// The file of the SFrame section, the argument at index 1.
    pub sframe: &'w str,
    /// The address of the first byte of the section, the argument at index 2.
    pub base: u64,
    /// The address whose function is wanted, the argument at index 3.
    pub address: u64,
}

/// Reads the arguments after `frame`.
pub(crate) fn read_frame(words: &[String]) -> Result<FrameCommand<'_>, usize>
    ensures { MatchResult result
        (λ c. after_frame (arguments_of words.now) ≡ Ok (frame_query_of c))
        (λ index. after_frame (arguments_of words.now) ≡ Err index) }
{
    let [sframe, rest @ ..] = words else {
        return Err(1);
    };
    let [base, rest @ ..] = rest else {
        return Err(2);
    };
    let Some(base) = read_number(base.as_bytes()) else {
        return Err(2);
    };
    let [address, rest @ ..] = rest else {
        return Err(3);
    };
    let Some(address) = read_number(address.as_bytes()) else {
        return Err(3);
    };
    if !rest.is_empty() {
        return Err(4);
    }
    Ok(FrameCommand {
        sframe: sframe.as_str(),
        base,
        address,
    })
}

/// Returns the word for where an address lies.
fn side(inside: bool) -> &'static str
    ensures { result.now ≡ side_of inside }
{
    if inside { "inside" } else { "past" }
}

/// Returns the text of a function that was found: the line `function INDEX ADDRESS SIZE`, then `inside` or `past`, where a negative address
/// begins with `-`.
pub fn located_text(
    alloc: Global,
    index: usize,
    address: i128,
    size: u32,
    inside: bool,
) -> Result<Vec<u8>, AllocError>
    ensures { IfOk result (λ text. text.items ≡ located_of index address size inside) }
{
    let mut out = Vec::with_capacity(alloc, LINE)?;
    let mut buffer = Buffer::new();
    out.extend_from_slice(b"function ")?;
    out.extend_from_slice(buffer.format(index).as_bytes())?;
    out.extend_from_slice(b" ")?;
    out.extend_from_slice(buffer.format(address).as_bytes())?;
    out.extend_from_slice(b" ")?;
    out.extend_from_slice(buffer.format(size).as_bytes())?;
    out.extend_from_slice(b" ")?;
    out.extend_from_slice(side(inside).as_bytes())?;
    out.extend_from_slice(b"\n")?;
    Ok(out)
}
