//! Laws of the definitions that the contracts of this crate cite, each the contract of a function that does nothing.

ghost use Rattle.elf_frames.specs.Laws.{SplitIsOne, SplitIsWithin, FormsAgree, PreviousIsLower, LaterFramesFirst};

/// A section has one split, or is refused for one cause.
pub fn splits_are_one()
    ensures { SplitIsOne }
{}

/// What is kept of a section has no more bytes than the section.
pub fn splits_are_within()
    ensures { SplitIsWithin }
{}

/// The form of a list of relocations, RELA or CREL, does not matter.
pub fn forms_agree()
    ensures { FormsAgree }
{}

/// The previous frame of a section has a lower index.
pub fn previous_frames_are_lower()
    ensures { PreviousIsLower }
{}

/// Frames that are appended come first in the chain of their section.
pub fn later_frames_come_first()
    ensures { LaterFramesFirst }
{}
