//! The names that one object publishes, before its units have numbers among those of all objects.

ghost use Rattle.std.specs.Prelude.{◌≡◌};
ghost use Rattle.gdb_index_format.specs.Hash.{name_hash};

/// The unit and the flag byte of one publication of a name.
#[derive(Clone, Copy, Debug, PartialEq, Eq)]
pub struct Mark {
    /// The index of the unit among the units of its object, from 0.
    pub unit: usize,
    /// The flag byte: the kind of symbol in bits 4 to 6, and bit 7 where the symbol is static (GDB manual,
    /// "Index Section Format").
    pub flag: u8,
}

/// One publication of a name.
#[derive(Clone, Copy, Debug)]
pub struct Publication<'a> {
    /// The name's bytes, without the zero byte that ends it in the file.
    pub name: &'a [u8],
    /// The index of the unit among the units of its object, from 0.
    pub unit: usize,
    /// The hash of the name. Its five highest bits are the bucket of the name.
    pub hash: u32,
    /// The flag byte, as in `Mark`.
    pub flag: u8,
    ghost hashed: { hash ≡ name_hash name.now },
}

impl Publication<'_> {
    ghost use Rattle.gdb_scan.specs.Marks.{marked};

    /// Returns its unit and its flag byte.
    pub fn mark(&self) -> Mark
        ensures { (self.now.name.now, result) ≡ marked self.now }
    {
        Mark {
            unit: self.unit,
            flag: self.flag,
        }
    }
}
