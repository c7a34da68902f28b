//! The CU vector of a name as it stands in an index (GDB manual, "Index Section Format").

ghost use Rattle.std.specs.Prelude.{◌≡◌, ℕ, ◌%◌, length, slice_get};
ghost use Rattle.gdb_index.specs.Vector.{words_in};

use elf_words::read_u32;
use std::marker::Model;

/// The elements of a CU vector, which stay in the index and are read from there. Contracts see them as a list.
#[derive(Debug, Drop)]
pub struct CuVector<'a> {
    bytes: &'a [u8],
}

impl<'a> Model for CuVector<'a> {
    ghost use Rattle.std.specs.Prelude.{◌≡◌, List, ℕ, ◌%◌, length};
    ghost use Rattle.gdb_index.specs.Vector.{words_in as words_of_bytes};

    ghost Value = { List ℕ };

    ghost view = { λ v. words_of_bytes v.bytes.now };

    ghost invariant = { λ v. length v.bytes.now % 4 ≡ 0 };
}

impl<'a> CuVector<'a> {
    /// Makes the vector of the elements that these bytes hold, four bytes each.
    pub(crate) fn new(bytes: &'a [u8]) -> Self
        requires { length bytes.now % 4 ≡ 0 }
        ensures { result ≡ words_in bytes.now }
    {
        CuVector { bytes }
    }

    /// Returns the number of elements.
    pub fn len(&self) -> usize
        ensures { result ≡ length self.now }
    {
        self.bytes.len() / 4
    }

    /// Returns the element at an index, from 0, or None from the number of elements on.
    pub fn get(&self, index: usize) -> Option<u32>
        ensures { result ≡ slice_get self.now index }
    {
        let count = self.bytes.len() / 4;
        if index < count {
            Some(read_u32(self.bytes, 4 * index))
        } else {
            None
        }
    }
}
