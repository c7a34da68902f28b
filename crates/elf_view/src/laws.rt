//! Laws of the causes of refusals, each the contract of a function that does nothing: what is refused is refused for one
//! cause.

ghost use Rattle.std.specs.Prelude.{◌≡◌, ◌≢◌, Bool, true, Option, None};
ghost use Rattle.elf_format.specs.Group.{GroupFault};
ghost use Rattle.elf_view.specs.declared.group_error.GroupError.{GroupError};
ghost use Rattle.elf_view.specs.declared.group_error.GroupError.TheVariants as groups;
ghost use Rattle.elf_view.specs.declared.reloc_error.RelocError.{RelocError};
ghost use Rattle.elf_view.specs.declared.reloc_error.RelocError.TheVariants as relocations;
ghost use Rattle.elf_view.specs.GroupFault.{IsGroupFault};
ghost use Rattle.elf_view.specs.RelocFault.{IsRelocFault};

/// The groups of a file are not returned for one cause, `NoMemory` aside. Where no group is malformed, only by `NoMemory`.
pub fn group_causes_are_one()
    ensures one { (fault : Option GroupFault) (e f : GroupError) → IsGroupFault fault e → IsGroupFault fault f → e ≢ groups.NoMemory → f ≢ groups.NoMemory → e ≡ f }
    ensures none { (e : GroupError) → IsGroupFault None e → e ≡ groups.NoMemory }
{}

/// The table of relocation sections is not returned for one cause, `NoMemory` aside. Where each applies to a section, only by
/// `NoMemory`.
pub fn relocation_causes_are_one()
    ensures one { (has_targets : Bool) (e f : RelocError) → IsRelocFault has_targets e → IsRelocFault has_targets f → e ≢ relocations.NoMemory → f ≢ relocations.NoMemory → e ≡ f }
    ensures none { (e : RelocError) → IsRelocFault true e → e ≡ relocations.NoMemory }
{}
