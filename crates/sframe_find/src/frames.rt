//! A checked SFrame section, and the search for the function of an address (SFrame 2, SFrame FDE).

ghost use Rattle.std.specs.Prelude.{◌≡◌, ◌+◌, ◌-◌, ◌*◌, ◌^◌, ◌<◌, ◌≤◌, length, slice_get, slice_index_or, option_copied};
ghost use Rattle.std.specs.Option.{option_map};
ghost use Rattle.sframe_format.specs.Contribution.{Function, functions_of};
ghost use Rattle.sframe_format.specs.Valid.{IsWellFormedContribution};
ghost use Rattle.sframe_order.specs.Reader.{contribution_view};
ghost use Rattle.sframe_find.specs.Frames.{function_address, frame_function};
ghost use Rattle.sframe_find.specs.Ordered.{AddressesAscend};
ghost use Rattle.sframe_find.specs.Scan.{IsScan, covers_address};

use elf_words::read_u32;
use search_steps::Steps;
use sframe_order::Contribution;
use std::marker::Model;
use std::sync::ledger::Ledger;

/// A function of a section: its address, and fields of its FDE.
#[derive(Clone, Copy, Debug, PartialEq, Eq)]
pub struct FrameFunction {
    /// The address of its first byte: the start of the function, added to the base of the section.
    pub address: i128,
    /// `sfde_func_size`: its size in bytes.
    pub size: u32,
    /// `sfde_func_num_fres`: the number of its FREs.
    pub row_count: u32,
    /// `sfde_func_info`: the types of its FREs and of itself.
    pub info: u8,
}

/// A section whose functions ascend by address. `check_sframe` makes it. Contracts see its functions and its base.
#[derive(Debug, Drop)]
pub struct OrderedFrames<'a> {
    contribution: Contribution<'a>,
    base: u64,
}

impl<'a> Model for OrderedFrames<'a> {
    ghost use Rattle.sframe_find.specs.Frames.{Frames};
    ghost use Rattle.sframe_find.specs.Ordered.{AddressesAscend as Ascend};
    ghost use Rattle.sframe_format.specs.Contribution.{functions_of as all_functions};
    ghost use Rattle.sframe_format.specs.Valid.{IsWellFormedContribution as IsWellFormed};
    ghost use Rattle.sframe_order.specs.Reader.{contribution_view as view_of};

    ghost Value = { Frames };

    ghost view = { λ f. record { functions = all_functions (view_of f.contribution); base = f.base } };

    ghost invariant = { λ f. IsWellFormed (view_of f.contribution) × Ascend f.base (all_functions (view_of f.contribution)) };
}

/// Returns the address of the function of FDE `d`.
pub(crate) fn address(contribution: &Contribution, base: u64, d: u32) -> i128
    requires sound { IsWellFormedContribution (contribution_view contribution.now) }
    requires exists { d < length (functions_of (contribution_view contribution.now)) }
    ensures { (f : Function) → result ≡ function_address base (slice_index_or (functions_of (contribution_view contribution.now)) d f) }
{
    i128::from(base) + i128::from(contribution.start(d))
}

impl<'a> OrderedFrames<'a> {
    /// Returns the frames of a contribution whose first byte is loaded at `base`.
    pub(crate) fn new(contribution: Contribution<'a>, base: u64) -> Self
        requires sound { IsWellFormedContribution (contribution_view contribution) }
        requires ascends { AddressesAscend base (functions_of (contribution_view contribution)) }
        ensures { result ≡ record { functions = functions_of (contribution_view contribution.entry); base = base } }
    {
        OrderedFrames { contribution, base }
    }

    /// Returns the number of functions.
    pub fn count(&self) -> usize
        ensures value { result ≡ length self.now.functions }
        ensures small { result < 2 ^ 32 }
    {
        self.contribution.num_fdes() as usize
    }

    /// Returns the function of this index, from 0, or None from the count on.
    pub fn function(&self, index: usize) -> Option<FrameFunction>
        ensures { result ≡ option_map (frame_function self.now.base) (slice_get self.now.functions index) }
    {
        if index >= self.count() {
            return None;
        }
        let d = index as u32;
        let at = self.contribution.fde_at(d);
        Some(FrameFunction {
            address: address(&self.contribution, self.base, d),
            size: read_u32(self.contribution.bytes, at + 4),
            row_count: read_u32(self.contribution.bytes, at + 12),
            info: self.contribution.bytes[at + 16],
        })
    }

    /// Returns the FREs of the function of this index, from 0, or None from the count on. Linear in the count.
    pub fn rows(&self, index: usize) -> Option<&'a [u8]>
        ensures { option_copied result ≡ option_map (λ f. f.fres) (slice_get self.now.functions index) }
    {
        if index >= self.count() {
            return None;
        }
        Some(self.contribution.fres(index as u32))
    }

    /// Reads the address of a function, and counts that.
    fn look<L: Ledger>(&self, d: u32, steps: &mut Steps<L>) -> i128
        requires { d < length self.now.functions }
        ensures value { (f : Function) → result ≡ function_address self.now.base (slice_index_or self.now.functions d f) }
        ensures counted { steps.new ≡ steps.old + 1 }
    {
        steps.tick();
        address(&self.contribution, self.base, d)
    }

    /// Returns the index of the last function whose address is at most `address`, or None where each is above. A binary
    /// search: each FDE that it reads is one step, and there are at most as many steps as the count has binary digits.
    pub fn find<L: Ledger>(&self, address: u64, steps: &mut Steps<L>) -> Option<usize>
        ensures scan { IsScan self.now address result }
        ensures counted { steps.old ≤ steps.new }
        ensures few { 2 ^ (steps.new - steps.old) ≤ 2 * length self.now.functions + 1 }
    {
        let wanted = i128::from(address);
        let mut low = 0;
        let mut high = self.contribution.num_fdes();
        while low < high {
            let middle = low + (high - low) / 2;
            if self.look(middle, steps) <= wanted {
                low = middle + 1;
            } else {
                high = middle;
            }
        }
        if low == 0 {
            None
        } else {
            Some(low as usize - 1)
        }
    }

    /// Reports whether an address is in the range of the function of this index: at least its address, and below its
    /// address and size. Requires an index below the count.
    pub fn covers(&self, index: usize, address: u64) -> bool
        requires { index < length self.now.functions }
        ensures { (f : Function) → result ≡ covers_address (frame_function self.now.base (slice_index_or self.now.functions index f)) address }
    {
        let Some(function) = self.function(index) else {
            return false;
        };
        let wanted = i128::from(address);
        function.address <= wanted && wanted < function.address + i128::from(function.size)
    }
}
