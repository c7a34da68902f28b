//! The sizes and flags of the format (SFrame 2, SFrame Section, SFrame Flags, SFrame FDE), with a law that says their
//! numbers.

ghost use Rattle.std.specs.Prelude.{◌≡◌};
ghost use Rattle.sframe_format.specs.Numbers as numbers;

use crate::header::Header;

/// The size of an FDE (function descriptor entry) in bytes.
pub const FDE_SIZE: usize = 20;
/// The FDEs ascend by address.
pub const SFRAME_F_FDE_SORTED: u8 = 1;
/// All functions keep a frame pointer.
pub const SFRAME_F_FRAME_POINTER: u8 = 2;
/// A start value counts from its own field.
pub const SFRAME_F_FDE_FUNC_START_PCREL: u8 = 4;
/// Return addresses are signed.
pub const SFRAME_F_SIGNED_RETURN_ADDRESSES: u8 = 8;
/// The flags that a merged header has from its first contribution.
pub const FLAGS_OF_FIRST: u8 = 0xf4;

/// The numbers are the standard's, and those of the definitions.
pub fn sframe_numbers_are_the_standards()
    ensures header { (Header.MAGIC ≡ 0xdee2) × (Header.VERSION ≡ 2) × (Header.SIZE ≡ 28) }
    ensures fde { FDE_SIZE ≡ 20 }
    ensures flags { (SFRAME_F_FDE_SORTED ≡ 1) × (SFRAME_F_FRAME_POINTER ≡ 2) × (SFRAME_F_FDE_FUNC_START_PCREL ≡ 4) × (SFRAME_F_SIGNED_RETURN_ADDRESSES ≡ 8) × (FLAGS_OF_FIRST ≡ 0xf4) }
    ensures same_header { (Header.MAGIC ≡ numbers.sframe_magic) × (Header.VERSION ≡ numbers.sframe_version) × (Header.SIZE ≡ numbers.sframe_header_size) }
    ensures same_fde { FDE_SIZE ≡ numbers.fde_size }
    ensures same_flags { (SFRAME_F_FDE_SORTED ≡ numbers.sframe_f_fde_sorted) × (SFRAME_F_FRAME_POINTER ≡ numbers.sframe_f_frame_pointer) × (SFRAME_F_FDE_FUNC_START_PCREL ≡ numbers.sframe_f_fde_func_start_pcrel) × (SFRAME_F_SIGNED_RETURN_ADDRESSES ≡ numbers.sframe_f_signed_return_addresses) × (FLAGS_OF_FIRST ≡ numbers.flags_of_first) }
{}
