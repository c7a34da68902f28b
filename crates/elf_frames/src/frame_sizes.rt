//! Sizes of CIEs and frames, in bytes.

ghost use Rattle.std.specs.Prelude.{◌≡◌, ◌^◌, ◌<◌, map};
ghost use Rattle.elf_frames.specs.Frames.{cie_size, frame_count, frame_bytes};
ghost use Rattle.elf_frames.specs.Shown.{shown_cie};

use crate::eh_frames::EhFrames;
use crate::frame::{CieAtOffset, EhFrameSizes};
use elf_format::SectionIndex;
use elf_words::ElfClass;

/// Returns the sum of the lengths of some CIEs.
pub(crate) fn sum_of_cies(cies: &[CieAtOffset<'_>]) -> u64
    requires { cie_size (map shown_cie cies.now) < 2 ^ 64 }
    ensures { result ≡ cie_size (map shown_cie cies.now) }
{
    let mut sum = 0;
    for cie in cies {
        sum += cie.bytes.len() as u64;
    }
    sum
}

impl<'a, C: ElfClass> EhFrames<'a, C> {
    /// Returns the number of frames of a section, and the sum of their sizes in bytes.
    pub fn section_frame_sizes(&self, section: SectionIndex) -> EhFrameSizes
        ensures count { result.num_frames ≡ frame_count section.0 self.now.frames }
        ensures size { result.eh_frame_size ≡ frame_bytes section.0 self.now.frames }
    {
        let mut num_frames = 0;
        let mut eh_frame_size = 0;
        for index in self.chain(section) {
            eh_frame_size += self.size_of(index);
            num_frames += 1;
        }
        EhFrameSizes {
            num_frames,
            eh_frame_size,
        }
    }
}
