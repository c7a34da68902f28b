//! The names of an index (GDB manual, "Index Section Format": the symbol hash table and the CU vectors).

/// A published name with the elements of its CU vector.
#[derive(Debug, Drop)]
pub struct NameWords<'a> {
    /// The name's bytes, without the zero byte that ends it in the file.
    pub name: &'a [u8],
    /// The elements of the CU vector: one for each publication, ascending, repeats kept. Bits 0 to 23 are the CU index,
    /// bits 28 to 30 the symbol kind, and bit 31 is set where the symbol is static.
    pub words: Vec<u32>,
}
