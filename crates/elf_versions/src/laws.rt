//! Laws of version chains, of the causes of refusals and of names with versions, each as the contract of a function that does nothing.

ghost use Rattle.std.specs.Prelude.{◌≡◌, ◌≢◌, ◌≤◌, ◌++◌, ◌∷◌, [], ℕ, List, Option, None, Result, Err, length};
ghost use Rattle.std.specs.Str.{IsUtf8};
ghost use Rattle.elf_format.specs.declared.error.ElfError.{ElfError};
ghost use Rattle.elf_format.specs.SymbolName.{versioned_name, name_text};
ghost use Rattle.elf_format.specs.VersionChain.{ChainForm, HeadForm, Headed, records_from, headed_from};
ghost use Rattle.elf_format.specs.VersionName.{VersionFault};
ghost use Rattle.elf_versions.specs.declared.error.VersionError.{VersionError};
ghost use Rattle.elf_versions.specs.declared.error.VersionError.TheVariants.{NoMemory};
ghost use Rattle.elf_versions.specs.Cause.{IsVersionFault};

/// A chain has at most as many items as its count, and an error is its last item.
pub fn chains_are_bounded()
    ensures count { (form : ChainForm) (bytes : List ℕ) (count : ℕ) (at : ℕ) → length (records_from form bytes count at) ≤ count }
    ensures head_count { (form : HeadForm) (bytes : List ℕ) (count : ℕ) (at : ℕ) → length (headed_from form bytes count at) ≤ count }
    ensures last { (form : ChainForm) (bytes : List ℕ) (count : ℕ) (at : ℕ) (front : List (Result (List ℕ) ElfError)) (e : ElfError) (back : List (Result (List ℕ) ElfError)) → records_from form bytes count at ≡ front ++ Err e ∷ back → back ≡ [] }
    ensures head_last { (form : HeadForm) (bytes : List ℕ) (count : ℕ) (at : ℕ) (front : List (Result Headed ElfError)) (e : ElfError) (back : List (Result Headed ElfError)) → headed_from form bytes count at ≡ front ++ Err e ∷ back → back ≡ [] }
{}

/// A name in UTF-8, split at its first `@`, is printed back the same.
pub fn names_are_printed_back()
    ensures { (name : List ℕ) → IsUtf8 name → name_text (versioned_name name) ≡ name }
{}

/// The names of versions are not returned for one cause, `NoMemory` aside. Where they are those of the definitions, only
/// by `NoMemory`.
pub fn version_causes_are_one()
    ensures one { (fault : Option VersionFault) (e : VersionError) (f : VersionError) → IsVersionFault fault e → IsVersionFault fault f → e ≢ NoMemory → f ≢ NoMemory → e ≡ f }
    ensures none { (e : VersionError) → IsVersionFault None e → e ≡ NoMemory }
{}
