//! Sorts names by their bytes.

ghost use Rattle.std.specs.Prelude.{◌≡◌, ◌+◌, ◌<◌, ◌≤◌, IsSortedByKey, IsPermutation};
ghost use Rattle.std.specs.List.{All};
ghost use Rattle.std.specs.Cmp.Lexicographic.{slice_cmp};
ghost use Rattle.std.specs.Ordering.{nat_cmp};
ghost use Rattle.gdb_index.specs.steps.NamePrefix.{padded, eight_at};

use std::cmp::Ordering;

/// How many first bytes of a name are compared as numbers.
const PREFIX: usize = 32;

/// A name and what belongs to it, with the first bytes of the name as numbers. To compare two of them reads the names in memory
/// only where the names have the same 32 first bytes.
#[derive(Debug, Drop)]
pub struct ByName<'a, T> {
    /// The name.
    pub name: &'a [u8],
    /// What belongs to the name.
    pub item: T,
    first: u64,
    second: u64,
    third: u64,
    fourth: u64,
    ghost first_is: { first ≡ eight_at (padded 32 name.now) 0 },
    ghost second_is: { second ≡ eight_at (padded 32 name.now) 8 },
    ghost third_is: { third ≡ eight_at (padded 32 name.now) 16 },
    ghost fourth_is: { fourth ≡ eight_at (padded 32 name.now) 24 },
    ghost bytes: { All (λ byte. byte < 256) (padded 32 name.now) },
}

/// Returns the first bytes of a name, with zeros after its end.
fn first_bytes(name: &[u8]) -> [u8; PREFIX]
    ensures first { result ≡ padded 32 name.now }
    ensures bytes { All (λ byte. byte < 256) (padded 32 name.now) }
{
    if let Some(first) = name.first_chunk::<PREFIX>() {
        return *first;
    }
    let mut bytes = [0u8; PREFIX];
    bytes[..name.len()].copy_from_slice(name);
    bytes
}

/// Returns the number of the eight bytes from an offset on, the highest byte first.
#[tactic(auto, unfolding(crate::specs::steps::NamePrefix::eight_at))]
fn number_at(bytes: &[u8; PREFIX], at: usize) -> u64
    requires { at + 8 ≤ 32 }
    ensures { result ≡ eight_at bytes.now at }
{
    u64::from_be_bytes(<[u8; 8]>::try_from(&bytes[at..at + 8]).unwrap())
}

impl<'a, T> ByName<'a, T> {
    /// Makes a name to be sorted, with what belongs to it.
    pub fn new(name: &'a [u8], item: T) -> Self
        ensures name { result.name ≡ name.entry }
        ensures item { result.item ≡ item }
    {
        let bytes = first_bytes(name);
        let first = number_at(&bytes, 0);
        let second = number_at(&bytes, 8);
        let third = number_at(&bytes, 16);
        let fourth = number_at(&bytes, 24);
        ByName {
            name,
            item,
            first,
            second,
            third,
            fourth,
        }
    }

    /// Compares two names by their bytes.
    fn order(&self, other: &Self) -> Ordering
        ensures { result ≡ slice_cmp nat_cmp self.now.name.now other.now.name.now }
    {
        if self.first != other.first {
            return self.first.cmp(&other.first);
        }
        if self.second != other.second {
            return self.second.cmp(&other.second);
        }
        if self.third != other.third {
            return self.third.cmp(&other.third);
        }
        if self.fourth != other.fourth {
            return self.fourth.cmp(&other.fourth);
        }
        self.name.cmp(&other.name)
    }
}

/// Sorts names in ascending byte order.
pub fn sort_by_name<T>(names: &mut Vec<ByName<'_, T>>)
    ensures sorted { IsSortedByKey (λ n. n.name.now) (slice_cmp nat_cmp) names.new.items }
    ensures same { IsPermutation names.old.items names.new.items }
{
    names.sort_unstable_by(|one, other| one.order(other));
}
