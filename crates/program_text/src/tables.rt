//! The arguments of `tables`: `tables MACHINE LAYOUT [--sframe FILE] [--index VERSION] [OBJECT ...]`.
//!
//! Indexes of arguments count from 0, without the program's name. A command names at most 65,536 objects.
ghost use Rattle.std.specs.Prelude.{◌≡◌, ◌≤◌, ◌+◌, length, IfOk, MatchResult, option_map};
ghost use Rattle.program_text.specs.Arguments.{arguments_of};
ghost use Rattle.program_text.specs.Tables.{tables_of, version_of, version_named, option_len, machine_of, with_objects, with_version, after_files, after_layout, after_tables, first_object, object_limit};

use elf_format::Architecture;
use gdb_index_format::IndexVersion;

/// How many objects a command may name.
const OBJECT_LIMIT: usize = 65536;

/// The option before the file of SFrame bytes.
const SFRAME_OPTION: &str = "--sframe";

/// The option before the version of the index.
const INDEX_OPTION: &str = "--index";

/// The command `tables`, with the names of its files as they stand in the arguments.
#[derive(Clone, Copy, Debug)]
pub struct TablesCommand<'w> {
    /// The machine whose objects are read.
    pub machine: Architecture,
    /// The file of the layout, the argument at index 2.
    pub layout: &'w str,
    /// The file of the SFrame bytes, the argument at index 4, after the option.
    pub sframe: Option<&'w str>,
    /// The version of the index, where the option is given.
    pub version: Option<IndexVersion>,
    /// The files of the objects, at most 65,536.
    pub objects: &'w [String],
}

/// Returns how many arguments an option takes: two, where it is given.
fn arguments_taken<T>(option: &Option<T>) -> usize
    ensures { result ≡ option_len option.now }
{
    if option.is_some() { 2 } else { 0 }
}

impl TablesCommand<'_> {
    /// Returns the version of the index: 9 where no other is given.
    pub fn index_version(&self) -> IndexVersion
        ensures { result ≡ version_of (tables_of self.now) }
    {
        self.version.unwrap_or(IndexVersion::V9)
    }

    /// Returns the index of the first argument that names an object.
    pub fn first_object(&self) -> usize
        ensures { result ≡ first_object (tables_of self.now).sframe (tables_of self.now).version }
    {
        3 + arguments_taken(&self.sframe) + arguments_taken(&self.version)
    }
}

/// Returns the machine that an argument names.
fn read_machine(word: &str) -> Option<Architecture>
    ensures { result ≡ machine_of word.now }
{
    match word {
        "x86_64" => Some(Architecture::X86_64),
        "aarch64" => Some(Architecture::AArch64),
        "riscv64" => Some(Architecture::RiscV64),
        "loongarch64" => Some(Architecture::LoongArch64),
        "ppc64" => Some(Architecture::Ppc64),
        _ => None,
    }
}

/// Returns the version that an argument names.
fn read_version(word: &str) -> Option<IndexVersion>
    ensures { result ≡ version_named word.now }
{
    match word {
        "8" => Some(IndexVersion::V8),
        "9" => Some(IndexVersion::V9),
        _ => None,
    }
}

/// Makes the command with these objects, the last of its arguments.
fn read_objects<'w>(
    machine: Architecture,
    layout: &'w str,
    sframe: Option<&'w str>,
    version: Option<IndexVersion>,
    objects: &'w [String],
) -> Result<TablesCommand<'w>, usize>
    ensures few { IfOk result (λ c. length c.objects.now ≤ object_limit) }
    ensures exactly { MatchResult result
        (λ c. with_objects machine layout.entry.now (option_map (λ file. file.now) sframe.entry) version (arguments_of objects.entry.now)
        ≡ Ok (tables_of c))
        (λ index. with_objects machine layout.entry.now (option_map (λ file. file.now) sframe.entry) version (arguments_of objects.entry.now) ≡ Err index) }
{
    let command = TablesCommand {
        machine,
        layout,
        sframe,
        version,
        objects,
    };
    if objects.len() > OBJECT_LIMIT {
        return Err(command.first_object() + OBJECT_LIMIT);
    }
    Ok(command)
}

/// Reads the arguments after the file of SFrame bytes, or after the layout. The option of the index is one only as the first of them.
fn read_version_and_objects<'w>(
    machine: Architecture,
    layout: &'w str,
    sframe: Option<&'w str>,
    words: &'w [String],
) -> Result<TablesCommand<'w>, usize>
    ensures few { IfOk result (λ c. length c.objects.now ≤ object_limit) }
    ensures exactly { MatchResult result
        (λ c. after_files machine layout.entry.now (option_map (λ file. file.now) sframe.entry) (arguments_of words.entry.now)
        ≡ Ok (tables_of c))
        (λ index. after_files machine layout.entry.now (option_map (λ file. file.now) sframe.entry) (arguments_of words.entry.now) ≡ Err index) }
{
    let [option, rest @ ..] = words else {
        return read_objects(machine, layout, sframe, None, words);
    };
    if option.as_str() != INDEX_OPTION {
        return read_objects(machine, layout, sframe, None, words);
    }
    let index = 4 + arguments_taken(&sframe);
    let [version, objects @ ..] = rest else {
        return Err(index);
    };
    let Some(version) = read_version(version.as_str()) else {
        return Err(index);
    };
    read_objects(machine, layout, sframe, Some(version), objects)
}

/// Reads the arguments after the layout. The option of the SFrame bytes is one only as the first of them.
fn read_files<'w>(
    machine: Architecture,
    layout: &'w str,
    words: &'w [String],
) -> Result<TablesCommand<'w>, usize>
    ensures few { IfOk result (λ c. length c.objects.now ≤ object_limit) }
    ensures exactly { MatchResult result
        (λ c. after_layout machine layout.entry.now (arguments_of words.entry.now)
        ≡ Ok (tables_of c))
        (λ index. after_layout machine layout.entry.now (arguments_of words.entry.now) ≡ Err index) }
{
    let [option, rest @ ..] = words else {
        return read_objects(machine, layout, None, None, words);
    };
    if option.as_str() != SFRAME_OPTION {
        return read_version_and_objects(machine, layout, None, words);
    }
    let [file, after @ ..] = rest else {
        return Err(4);
    };
    read_version_and_objects(machine, layout, Some(file.as_str()), after)
}

/// Reads the arguments after `tables`.
pub(crate) fn read_tables(words: &[String]) -> Result<TablesCommand<'_>, usize>
    ensures few { IfOk result (λ c. length c.objects.now ≤ object_limit) }
    ensures exactly { MatchResult result
        (λ c. after_tables (arguments_of words.now) ≡ Ok (tables_of c))
        (λ index. after_tables (arguments_of words.now) ≡ Err index) }
{
    let [machine, rest @ ..] = words else {
        return Err(1);
    };
    let Some(machine) = read_machine(machine.as_str()) else {
        return Err(1);
    };
    let [layout, rest @ ..] = rest else {
        return Err(2);
    };
    read_files(machine, layout.as_str(), rest)
}
