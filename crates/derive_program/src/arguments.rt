//! The arguments of the command line, as the system hands them in.
ghost use Rattle.std.specs.Prelude.{IfErr};
ghost use Rattle.derive_program.specs.Status.{IsWordsFault};

use crate::Ran;
use std::alloc::{AllocError, Global};
use std::env::FillError;
use std::rt::Env;

/// How many bytes of an argument are asked for at first.
const FIRST_SIZE: usize = 256;

/// Returns the bytes of argument `i`, or nothing where there is none. The room for them is doubled until they fit.
fn argument<R: Env>(rt: &R, alloc: Global, i: usize) -> Result<Option<Vec<u8>>, AllocError> {
    let mut size = FIRST_SIZE;
    for _ in 0..usize::BITS {
        let mut buffer = vec![in alloc; 0u8; size]?;
        match rt.arg(i, &mut buffer) {
            Ok(length) => {
                buffer.truncate(length);
                return Ok(Some(buffer));
            }
            Err(FillError::NotPresent) => return Ok(None),
            Err(FillError::TooLong) => size = size.saturating_mul(2),
        }
    }
    Err(AllocError)
}

/// Collects the arguments after the program's name.
///
/// `BadWords`: the first argument that is not UTF-8 has this index, from 0. `NoMemory`: an allocation failed.
pub fn collect_words<R: Env>(rt: &R, alloc: Global) -> Result<Vec<String>, Ran>
    ensures { IfErr result IsWordsFault }
{
    let mut words = Vec::new(alloc);
    for index in 0..usize::MAX {
        let bytes = match argument(rt, alloc, index + 1) {
            Ok(Some(bytes)) => bytes,
            Ok(None) => return Ok(words),
            Err(_) => return Err(Ran::NoMemory),
        };
        let Ok(word) = String::from_utf8(bytes) else {
            return Err(Ran::BadWords(index));
        };
        if words.push(word).is_err() {
            return Err(Ran::NoMemory);
        }
    }
    Ok(words)
}
