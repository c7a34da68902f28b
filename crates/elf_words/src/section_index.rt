//! The special section indexes (gABI, Special Section Indexes).

/// The first reserved section index.
pub const SHN_LORESERVE: u16 = 0xff00;
/// The section index does not fit the field. Another table has it.
pub const SHN_XINDEX: u16 = 0xffff;
