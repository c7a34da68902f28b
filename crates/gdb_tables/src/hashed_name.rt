//! A name with its hash, as the key of a map over the bytes of names.

ghost use Rattle.std.specs.Prelude.{◌≡◌};
ghost use Rattle.gdb_index_format.specs.Hash.{name_hash};

use std::hash::{Hash, Hasher};

/// A name with its hash.
#[derive(Clone, Copy, Debug)]
pub(crate) struct HashedName<'a> {
    /// The name's bytes.
    pub(crate) name: &'a [u8],
    /// The hash of the name.
    pub(crate) hash: u32,
    ghost hashed: { hash ≡ name_hash name.now },
}

impl PartialEq for HashedName<'_> {
    ghost use Rattle.std.specs.Str.{bytes_eq};
    ghost use Rattle.std.specs.Cmp.Rules.{comparing};
    ghost use Rattle.std.proofs.Common.{rules};

    ghost eq = { λ x y. bytes_eq x.name.now y.name.now };

    ghost laws = { Prim.search (comparing, rules) };

    fn eq(&self, other: &Self) -> bool {
        self.name == other.name
    }
}

impl Eq for HashedName<'_> {
    ghost use Rattle.std.specs.Cmp.Rules.{comparing};
    ghost use Rattle.std.proofs.Common.{rules};

    ghost laws = { Prim.search (comparing, rules) };
}

impl Hash for HashedName<'_> {
    ghost use Rattle.std.specs.Hash as fed;
    ghost use Rattle.std.proofs.Common.{ap};
    ghost use Rattle.std.proofs.lemmas.Slice.Eq.{bytes_eq-Decides};

    ghost hash_input = { λ x. fed.slice fed.u8 x.name.now };

    ghost respects_eq = { λ x y same. ap (fed.slice fed.u8) ((bytes_eq-Decides x.name.now y.name.now).0 same) };

    // Not the kept hash: names that collide are easily made, and each would cost a pass over those before it.
    fn hash<H: Hasher>(&self, state: &mut H) {
        self.name.hash(state);
    }
}
