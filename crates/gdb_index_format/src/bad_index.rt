//! The faults of an index (GDB manual, "Index Section Format").

/// The fault for which a lookup refuses an index: the first that applies, in this order.
#[derive(Clone, Copy, Debug, PartialEq, Eq)]
pub enum BadIndex {
    /// The version is neither 8 nor 9.
    Version,
    /// The offsets of the header, five in version 8 and six in version 9, do not ascend from the end of the header to the end of the bytes.
    Offsets,
    /// The symbol hash table is not a whole number of slots, or that number is neither 0 nor a power of two.
    Slots,
    /// A slot that the probe reads has a name with no zero byte before the end of the index.
    NameOutside,
    /// The CU vector of the name that was found is truncated.
    VectorOutside,
}
