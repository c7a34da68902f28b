//! The definitions on a small index. The expected values were worked out by hand.

ghost use Rattle.std.specs.Prelude.{◌≡◌, [], ◌∷◌, codes};
ghost use Rattle.gdb_index_format.specs.Example.{index_of_main};
ghost use Rattle.index_merge.specs.Joined.{elements_of_both};
ghost use Rattle.index_merge.specs.Merged.{units_of_both, addresses_of_both};

/// An index of one unit of twelve bytes, which publishes `main`, and the same index twelve bytes further on.
pub fn main_twice()
    ensures units { units_of_both index_of_main index_of_main 12 ≡ record { offset = 0; length = 12 } ∷ record { offset = 12; length = 12 } ∷ [] }
    ensures addresses { addresses_of_both index_of_main index_of_main ≡ [] }
    ensures elements { elements_of_both index_of_main index_of_main (codes "main") ≡ 0x30000000 ∷ 0x30000001 ∷ [] }
    ensures absent { elements_of_both index_of_main index_of_main (codes "MAIN") ≡ [] }
{}
