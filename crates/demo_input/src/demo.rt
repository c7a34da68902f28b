//! The input of a number: so many objects with their placements, and so many SFrame contributions.

ghost use Rattle.std.specs.Prelude.{◌≡◌, ◌<◌, ◌≤◌, ◌*◌, IfOk, length, map};
ghost use Rattle.std.specs.List.{range_with_len};
ghost use Rattle.demo_input.specs.Object.{numbered_placement};
ghost use Rattle.demo_input.specs.Generated.{piece_span, demo_buffer, demo_sframe, demo_placements};
ghost use Rattle.demo_input.specs.Demo.{IsDemoInput, IsValidDemo};

use crate::contribution::contribution;
use crate::object::push_object;
use elf_format::Span;
use gdb_index_format::Placement;
use std::alloc::{AllocError, Global};

/// The size of each object in bytes.
const OBJECT_SIZE: usize = 501;

/// The size of each contribution in bytes.
const CONTRIBUTION_SIZE: usize = 51;

/// An input that has tables.
#[derive(Debug, Drop)]
pub struct DemoInput {
    /// The bytes of the objects, which follow one another.
    pub buffer: Vec<u8>,
    /// The span of each object in the buffer.
    pub objects: Vec<Span>,
    /// The address of each object's code.
    pub placements: Vec<Placement>,
    /// The bytes of the SFrame section.
    pub sframe: Vec<u8>,
    /// Its contributions, as spans of its bytes.
    pub ranges: Vec<Span>,
}

/// Returns the objects, one after another.
fn buffer(alloc: Global, count: usize) -> Result<Vec<u8>, AllocError>
    requires { count ≤ 1000 }
    ensures { IfOk result (λ v. v.items ≡ demo_buffer count) }
{
    let mut bytes = Vec::with_capacity(alloc, OBJECT_SIZE * count)?;
    for number in 0..count {
        push_object(&mut bytes, number)?;
    }
    Ok(bytes)
}

/// Returns the contributions, one after another.
fn sframe(alloc: Global, count: usize) -> Result<Vec<u8>, AllocError>
    requires { count ≤ 1000 }
    ensures { IfOk result (λ v. v.items ≡ demo_sframe count) }
{
    let mut bytes = Vec::with_capacity(alloc, CONTRIBUTION_SIZE * count)?;
    for number in 0..count {
        bytes.extend_from_slice(&contribution(count, number))?;
    }
    Ok(bytes)
}

/// Returns the spans of so many pieces of one size, which follow one another.
fn piece_spans(alloc: Global, size: usize, count: usize) -> Result<Vec<Span>, AllocError>
    requires short { size ≤ 1000 }
    requires few { count ≤ 1000 }
    ensures { IfOk result (λ v. v.items ≡ map (piece_span size) (range_with_len 0 count)) }
{
    let mut spans = Vec::with_capacity(alloc, count)?;
    for number in 0..count {
        let start = size * number;
        spans.push(Span {
            start,
            stop: start + size,
        })?;
    }
    Ok(spans)
}

/// Returns the placements of the code of so many objects.
fn placements(alloc: Global, count: usize) -> Result<Vec<Placement>, AllocError>
    requires { count ≤ 1000 }
    ensures { IfOk result (λ v. v.items ≡ demo_placements count) }
{
    let mut placements = Vec::with_capacity(alloc, count)?;
    for number in 0..count {
        placements.push(Placement {
            object: number,
            section: 3,
            address: 4096 + 16 * number as u64,
            size: 16,
        })?;
    }
    Ok(placements)
}

/// Returns the input of a number up to 1000.
pub fn demo_input(alloc: Global, count: usize) -> Result<DemoInput, AllocError>
    requires few { count ≤ 1000 }
    ensures made { IfOk result (IsDemoInput count) }
    ensures valid { IfOk result IsValidDemo }
    ensures len { IfOk result (λ demo. length demo.buffer.items ≡ 501 * count) }
    ensures count { IfOk result (λ demo. length demo.objects.items ≡ count) }
{
    let buffer = buffer(alloc, count)?;
    let objects = piece_spans(alloc, OBJECT_SIZE, count)?;
    let placements = placements(alloc, count)?;
    let sframe = sframe(alloc, count)?;
    let ranges = piece_spans(alloc, CONTRIBUTION_SIZE, count)?;
    Ok(DemoInput {
        buffer,
        objects,
        placements,
        sframe,
        ranges,
    })
}
