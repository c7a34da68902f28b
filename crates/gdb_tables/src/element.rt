//! The elements of CU vectors, before they are put together name by name.

ghost use Rattle.std.specs.Prelude.{◌≡◌};
ghost use Rattle.gdb_index_format.specs.Hash.{name_hash};

/// A name with one element of its CU vector.
#[derive(Clone, Copy, Debug)]
pub(crate) struct NamedElement<'a> {
    /// The name's bytes.
    pub(crate) name: &'a [u8],
    /// The hash of the name.
    pub(crate) hash: u32,
    /// The element.
    pub(crate) element: u32,
    ghost hashed: { hash ≡ name_hash name.now },
}

/// One element of the CU vector of a name, which has this index among the names of its bucket, from 0.
#[derive(Clone, Copy, Debug)]
pub(crate) struct IndexedElement {
    /// The index of the name.
    pub(crate) index: usize,
    /// The element.
    pub(crate) element: u32,
}
