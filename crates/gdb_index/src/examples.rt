//! The definitions on a small index. The expected values were worked out by hand.

ghost use Rattle.std.specs.Prelude.{◌≡◌, None, Ok, codes};
ghost use Rattle.gdb_index_format.specs.Example.{index_of_two};
ghost use Rattle.gdb_index_format.specs.Hash.{name_hash};
ghost use Rattle.gdb_index_format.specs.Probe.{probe};

/// Where `main` and `MAIN` stand in two of four slots, the probe for `foo` meets both of them.
pub fn absent_name_takes_three_steps()
    ensures hash { name_hash (codes "foo") ≡ 4294917781 }
    ensures steps { probe index_of_two (codes "foo") ≡ record { answer = Ok None; steps = 3 } }
{}
