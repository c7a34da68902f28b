//! The versions of an index (GDB manual, "Index Section Format").

/// The version of an index, as its header numbers it.
#[derive(Clone, Copy, Debug, PartialEq, Eq)]
pub enum IndexVersion {
    /// Version 8: the header has five offsets, and there is no shortcut table.
    V8,
    /// Version 9: the header has six offsets, and the shortcut table has eight bytes.
    V9,
}
