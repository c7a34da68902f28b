//! The addresses of sections, and the entries of the address area that follow from them (GDB manual, "Index Section
//! Format").

/// The address of a section of an object.
#[derive(Clone, Copy, Debug, PartialEq, Eq)]
pub struct Placement {
    /// The index of the object in the input, from 0.
    pub object: usize,
    /// The section header index in the object, from 0.
    pub section: usize,
    /// The address of the section's first byte; 0 where it has none.
    pub address: u64,
    /// The size of the section in bytes.
    pub size: u64,
}

/// An entry of the address area: the addresses `low..high` belong to a unit.
#[derive(Clone, Copy, Debug, PartialEq, Eq)]
pub struct AddressEntry {
    /// The first address.
    pub low: u64,
    /// One past the last address.
    pub high: u64,
    /// The index of the unit in the CU list, from 0.
    pub unit: u32,
}
