//! The law of the causes of refusals, as the contract of a function that does nothing.

ghost use Rattle.std.specs.Prelude.{◌≡◌, ◌≢◌, ℕ, List};
ghost use Rattle.dwarf_sections.specs.declared.units.UnitError.{UnitError};
ghost use Rattle.dwarf_sections.specs.declared.units.UnitError.TheVariants.{NoMemory};
ghost use Rattle.dwarf_sections.specs.UnitCause.{IsUnitListCause};

/// The units of bytes are not read for one cause, `NoMemory` aside.
pub fn unit_list_causes_are_one()
    ensures { (bytes : List ℕ) (e f : UnitError) → IsUnitListCause bytes e → IsUnitListCause bytes f → e ≢ NoMemory → f ≢ NoMemory → e ≡ f }
{
    gdb_index_format::units_are_one();
}
