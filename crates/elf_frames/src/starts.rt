//! The section that an FDE is for: that of the symbol of the relocation that says where its code begins (Linux Standard Base,
//! The .eh_frame Section: PC Begin).

ghost use Rattle.std.specs.Prelude.{◌≡◌, ◌+◌, ◌<◌, ◌^◌, None, false, true, IfOk, IfErr, OnOk, OnErr, option_map, slice_range};
ghost use Rattle.std.specs.List.{position_from};
ghost use Rattle.elf_view.specs.SymbolSection.{IsSymbolSection};
ghost use Rattle.elf_frames.specs.Taken.{symbol_section_in, start_section};
ghost use Rattle.elf_frames.specs.steps.Source.{source_input};
ghost use Rattle.elf_frames.specs.steps.Starts.{lacks_start, section_given, IsFirstLacking};

use crate::error::FrameError;
use crate::source::{Source, relocation_at};
use elf_format::{Crel, ElfError, SectionIndex, Span, SymbolIndex};
use elf_relocs::Relocation;
use elf_words::ElfClass;

/// The offset in an FDE of the field that says where its code begins, in bytes.
const PC_BEGIN: u64 = 8;

impl<'s, 'a, C: ElfClass> Source<'s, 'a, C> {
    /// Returns the section in which a symbol is defined, none for an undefined, absolute or common symbol. The error is
    /// `SymbolIndex`, exactly where the symbol or its extended section index is missing.
    fn section_of_symbol(&self, symbol: SymbolIndex) -> Result<Option<SectionIndex>, ElfError>
        ensures { IsSymbolSection (symbol_section_in C.class self.now.file.now.is_dynamic self.now.file.now.bytes symbol.0) result }
    {
        match self.file.symbol(symbol) {
            Ok(found) => self.file.symbol_section(&found, symbol),
            Err(error) => Err(error),
        }
    }

    /// Returns the section that the FDE at an offset is for, after one more of its relocations: that of the relocation's symbol
    /// where it says where the code begins, and else the section before. The error comes where that symbol or its extended
    /// section index is missing.
    fn section_after(
        &self,
        offset: u64,
        relocation: Crel,
        before: Option<SectionIndex>,
    ) -> Result<Option<SectionIndex>, ElfError>
        requires { offset + 8 < 2 ^ 64 }
        ensures section { IfOk result (λ section. option_map (λ i. i.0) section ≡ section_given (source_input C.class self.now) offset relocation (option_map (λ i. i.0) before)) }
        ensures sound { OnOk result (lacks_start (source_input C.class self.now) offset relocation ≡ false) }
        ensures cause { OnErr result (lacks_start (source_input C.class self.now) offset relocation ≡ true) }
    {
        if relocation.offset != offset + PC_BEGIN {
            return Ok(before);
        }
        match relocation.symbol() {
            Some(symbol) => self.section_of_symbol(symbol),
            None => Ok(before),
        }
    }

    /// Returns the section that the FDE at an offset is for, by its relocations, a span of indexes. The error is `BadSymbol`,
    /// exactly at the first that says where the code begins and whose symbol, or the extended section index of that, is missing.
    pub(crate) fn section_of_starts(
        &self,
        offset: u64,
        span: Span,
    ) -> Result<Option<SectionIndex>, FrameError>
        requires { offset + 8 < 2 ^ 64 }
        ensures section { IfOk result (λ section. option_map (λ i. i.0) section ≡ start_section (source_input C.class self.now) offset (slice_range (source_input C.class self.now).relocations span.start span.stop)) }
        ensures sound { OnOk result (position_from (lacks_start (source_input C.class self.now) offset) span.start (slice_range (source_input C.class self.now).relocations span.start span.stop) ≡ None) }
        ensures cause { IfErr result (IsFirstLacking (source_input C.class self.now) offset span.start (slice_range (source_input C.class self.now).relocations span.start span.stop)) }
    {
        let mut section = None;
        for index in span.start..span.stop {
            let Some(relocation) = relocation_at(self.list, index) else {
                return Ok(section);
            };
            match self.section_after(offset, relocation, section) {
                Ok(found) => section = found,
                Err(_) => return Err(FrameError::BadSymbol { relocation: index }),
            }
        }
        Ok(section)
    }
}
