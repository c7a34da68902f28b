//! The frames of one section, latest first: the links are followed from its last frame. Contracts see a chain as the indexes
//! of the frames that it still yields.

ghost use Rattle.std.specs.Iterator.{YieldsFirstBy, item_count};
ghost use Rattle.std.specs.Prelude.{◌≡◌, reverse};
ghost use Rattle.elf_frames.specs.Frames.{frames_for};

use crate::eh_frames::EhFrames;
use crate::frame::FrameIndex;
use elf_format::SectionIndex;
use elf_words::ElfClass;
use std::marker::Model;

/// Iterator over the frames of a section, latest first.
#[derive(Drop)]
pub struct FrameChain<'s, 'a, C: ElfClass> {
    frames: &'s EhFrames<'a, C>,
    next: Option<FrameIndex>,
}

impl<'s, 'a, C: ElfClass> Model for FrameChain<'s, 'a, C> {
    ghost use Rattle.std.specs.Prelude.{ℕ, List, option_map};
    ghost use Rattle.elf_frames.specs.steps.Chain.{chain_at, IsAmong};

    ghost Value = { List ℕ };

    ghost view = { λ c. chain_at c.frames.now.frames (option_map (λ i. i.0) c.next) };

    ghost invariant = { λ c. IsAmong c.frames.now.frames (option_map (λ i. i.0) c.next) };
}

impl<'a, C: ElfClass> EhFrames<'a, C> {
    /// Iterates over the frames of a section by their indexes, latest first.
    pub fn chain(&self, section: SectionIndex) -> FrameChain<'_, 'a, C>
        ensures { result ≡ reverse (frames_for section.0 self.now.frames) }
    {
        FrameChain {
            frames: self,
            next: self.last(section),
        }
    }
}

impl<C: ElfClass> Iterator for FrameChain<'_, '_, C> {
    type Item = FrameIndex;

    ghost next_gives = { YieldsFirstBy (λ i. i.0) (λ s. s) };

    ghost remaining = { item_count (λ s. s) };

    fn next(&mut self) -> Option<FrameIndex> {
        let index = self.next?;
        self.next = self.frames.previous(index);
        Some(index)
    }
}
