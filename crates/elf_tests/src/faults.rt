//! Damaged objects: each is refused as a plain reading of the rules says.

use crate::plain_rules::first_broken;
use elf_format::ElfError;
use elf_records64::Class64;
use elf_view::File;
use std::test::Fail;
use test_objects::sample;

/// Returns the error of parsing, if any.
fn refusal(bytes: &[u8]) -> Option<ElfError> {
    match File::<Class64>::parse_bytes(bytes, false) {
        Ok(_) => None,
        Err(fault) => Some(fault),
    }
}

#[test]
fn an_object_that_is_cut(rt: HostRuntime) -> Result<(), Fail> {
    let bytes = sample(rt.alloc())?;
    assert_eq!(rt; refusal(&bytes), None);
    for length in 0..bytes.len() {
        if let Some(front) = bytes.get(..length) {
            assert_eq!(rt; refusal(front), first_broken(front));
            assert_eq!(rt; refusal(front).is_some(), true);
        }
    }
    Ok(())
}

#[test]
fn an_object_with_a_changed_byte(rt: HostRuntime) -> Result<(), Fail> {
    let mut bytes = sample(rt.alloc())?;
    let mut refused = 0u32;
    for offset in 0..bytes.len() {
        for value in [0, 0x7f, 0x80, 0xff] {
            let Some(byte) = bytes.get_mut(offset) else {
                continue;
            };
            let kept = *byte;
            *byte = value;
            assert_eq!(rt; refusal(&bytes), first_broken(&bytes));
            if refusal(&bytes).is_some() {
                refused = refused.saturating_add(1);
            }
            if let Some(byte) = bytes.get_mut(offset) {
                *byte = kept;
            }
        }
    }
    assert_eq!(rt; refused > 100, true);
    Ok(())
}
