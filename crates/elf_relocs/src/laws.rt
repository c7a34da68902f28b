//! The law of the causes of refusals, as the contract of a function that does nothing.

ghost use Rattle.std.specs.Prelude.{◌≡◌, ◌≢◌, List, Result, Ok};
ghost use Rattle.elf_format.specs.declared.crel.Crel.{Crel};
ghost use Rattle.elf_format.specs.declared.crel.CrelError.{CrelError};
ghost use Rattle.elf_relocs.specs.declared.fault.CrelFault.{CrelFault};
ghost use Rattle.elf_relocs.specs.declared.fault.CrelFault.TheVariants.{NoMemory};
ghost use Rattle.elf_relocs.specs.Fault.{IsCrelFault};

/// The relocations of a list are not returned for one cause, `NoMemory` aside. Those of a list without an error, only by
/// `NoMemory`.
pub fn list_causes_are_one()
    ensures one { (list : Result (List Crel) CrelError) (e f : CrelFault) → IsCrelFault e list → IsCrelFault f list → e ≢ NoMemory → f ≢ NoMemory → e ≡ f }
    ensures none { (relocations : List Crel) (e : CrelFault) → IsCrelFault e (Ok relocations) → e ≡ NoMemory }
{}
