//! The sizes of names and CU vectors in the constant pool of an index.

ghost use Rattle.std.specs.Prelude.{◌≡◌, ◌+◌, ◌<◌, ◌^◌};
ghost use Rattle.gdb_index_format.specs.Named.{named as named_of, all_named};
ghost use Rattle.gdb_index.specs.Pool.{vector_len as vector_len_of, name_len as name_len_of, vectors_len};

use gdb_index_format::NameWords;

/// Returns the size in bytes of the CU vector of a name: its count and its elements.
pub(crate) fn vector_len(named: &NameWords<'_>) -> u32
    requires { vector_len_of (named_of named.now) < 2 ^ 32 }
    ensures { result ≡ vector_len_of (named_of named.now) }
{
    4 + 4 * named.words.len() as u32
}

/// Returns the size of a name in bytes, with its zero byte.
pub(crate) fn name_len(named: &NameWords<'_>) -> u32
    requires { name_len_of (named_of named.now) < 2 ^ 32 }
    ensures { result ≡ name_len_of (named_of named.now) }
{
    named.name.len() as u32 + 1
}

/// Returns the size in bytes of the CU vectors of all names.
pub(crate) fn vectors_len_of_all(names: &[NameWords<'_>]) -> u32
    requires { vectors_len (all_named names.now) < 2 ^ 32 }
    ensures { result ≡ vectors_len (all_named names.now) }
{
    let mut total = 0;
    for named in names {
        total += vector_len(named);
    }
    total
}
