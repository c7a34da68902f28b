//! Puts names into the order of the constant pool: in ascending order of bucket, and within one bucket in their order.

ghost use Rattle.std.specs.Prelude.{◌≡◌, ◌<◌, [], IfOk};
ghost use Rattle.gdb_index_format.specs.Named.{all_named};
ghost use Rattle.gdb_index_format.specs.Published.{bucket as bucket_in};
ghost use Rattle.gdb_index.specs.FromParts.{in_pool_order as pool_order};
ghost use Rattle.gdb_index.specs.steps.Split.{lists_named, split_by_bucket as split_of};

use crate::hash::gdb_hash;
use gdb_index_format::NameWords;
use std::alloc::{AllocError, Global};

/// The number of buckets.
const BUCKETS: usize = 32;

/// Returns the bucket of a name: the five highest bits of its hash.
#[tactic(auto, unfolding(gdb_index_format::specs::Published::bucket))]
fn bucket_of(name: &[u8]) -> usize
    ensures is { result ≡ bucket_in name.now }
    ensures below { result < 32 }
{
    (gdb_hash(name) >> 27) as usize
}

/// Returns an empty list for each bucket.
#[tactic(auto, unfolding(crate::specs::steps::Split::split_by_bucket))]
fn empty_buckets<'a>(alloc: Global) -> Result<Vec<Vec<NameWords<'a>>>, AllocError>
    ensures { IfOk result (λ lists. lists_named lists.items ≡ split_of []) }
{
    let mut lists = Vec::with_capacity(alloc, BUCKETS)?;
    for _ in 0..BUCKETS {
        lists.push(Vec::new(alloc))?;
    }
    Ok(lists)
}

/// Returns the names of each bucket, in their order.
fn split_by_bucket<'a>(
    alloc: Global,
    names: Vec<NameWords<'a>>,
) -> Result<Vec<Vec<NameWords<'a>>>, AllocError>
    ensures { IfOk result (λ lists. lists_named lists.items ≡ split_of (all_named names.entry.items)) }
{
    let mut lists = empty_buckets(alloc)?;
    for named in names {
        lists[bucket_of(named.name)].push(named)?;
    }
    Ok(lists)
}

/// Returns the names in pool order.
pub(crate) fn in_pool_order<'a>(
    alloc: Global,
    names: Vec<NameWords<'a>>,
) -> Result<Vec<NameWords<'a>>, AllocError>
    ensures { IfOk result (λ list. all_named list.items ≡ pool_order (all_named names.entry.items)) }
{
    let mut list = Vec::with_capacity(alloc, names.len())?;
    for mut bucket in split_by_bucket(alloc, names)? {
        list.append(&mut bucket)?;
    }
    Ok(list)
}
