//! The check of an SFrame section: one contribution of version 2, whose functions ascend by address (SFrame 2).

ghost use Rattle.std.specs.Prelude.{◌≡◌, ⊤, None, MatchOption, MatchResult, OnOk, IfOk, IfErr};
ghost use Rattle.sframe_format.specs.Contribution.{header, functions_of};
ghost use Rattle.sframe_format.specs.Numbers.{sframe_magic};
ghost use Rattle.sframe_format.specs.Valid.{IsWellFormedContribution, contribution_fault};
ghost use Rattle.sframe_order.specs.Reader.{contribution_view};
ghost use Rattle.sframe_find.specs.Frames.{frames_of};
ghost use Rattle.sframe_find.specs.Ordered.{AddressesAscend, IsFirstDescent, IsOrdered, IsFindCause};
ghost use Rattle.sframe_find.specs.declared.fault.FindFault.{FindFault as FindFault_spec};
ghost use Rattle.sframe_find.specs.steps.Checked.{IsTruncation};

use crate::fault::FindFault;
use crate::frames::{OrderedFrames, address};
use sframe_format::{Header, SFRAME_F_FDE_SORTED, SframeFault};
use sframe_order::Contribution;

/// Returns the fault of a contribution that has the magic.
fn truncation(contribution: &Contribution) -> Option<FindFault>
    requires { (header (contribution_view contribution.now)).magic ≡ sframe_magic }
    ensures fault { MatchOption result (contribution_fault (contribution_view contribution.now) ≡ None) (IsTruncation (contribution_view contribution.now)) }
    ensures sound { MatchOption result (IsWellFormedContribution (contribution_view contribution.now)) (λ _. ⊤) }
{
    match contribution.fault() {
        Some(SframeFault::Truncated { kind, offset }) => {
            Some(FindFault::Truncated { kind, offset })
        }
        _ => None,
    }
}

/// Returns the first function whose address is below the one before it.
fn first_descent(contribution: &Contribution, base: u64) -> Option<u32>
    requires { IsWellFormedContribution (contribution_view contribution.now) }
    ensures { MatchOption result (AddressesAscend base (functions_of (contribution_view contribution.now))) (IsFirstDescent base (functions_of (contribution_view contribution.now))) }
{
    for d in 1..contribution.num_fdes() {
        if address(contribution, base, d) < address(contribution, base, d - 1) {
            return Some(d);
        }
    }
    None
}

/// Checks a section, and returns the first fault.
fn check<'a>(section: &'a [u8], base: u64) -> Result<OrderedFrames<'a>, FindFault>
    ensures ordered { OnOk result (IsOrdered section.now base) }
    ensures frames { IfOk result (λ f. f ≡ frames_of section.now base) }
    ensures cause { IfErr result (IsFindCause section.now base) }
{
    if section.len() < Header::SIZE {
        return Err(FindFault::Short);
    }
    let header = match Header::parse(section) {
        Ok(header) => header,
        Err(error) => return Err(FindFault::Header(error)),
    };
    if header.flags & SFRAME_F_FDE_SORTED == 0 {
        return Err(FindFault::NotSorted);
    }
    let contribution = Contribution {
        offset: 0,
        bytes: section,
    };
    if let Some(fault) = truncation(&contribution) {
        return Err(fault);
    }
    if let Some(index) = first_descent(&contribution, base) {
        return Err(FindFault::NotAscending(index as usize));
    }
    Ok(OrderedFrames::new(contribution, base))
}

/// Checks that a section is one contribution of version 2 with flag 1, that its parts are in range, and that its
/// functions ascend by address where its first byte is loaded at `base`. Then functions are found in it by address.
/// There is no assumption on the bytes. Linear in the number of functions; allocates nothing.
///
/// Each error of `FindFault` comes exactly where its cause is the first.
pub fn check_sframe<'a>(section: &'a [u8], base: u64) -> Result<OrderedFrames<'a>, FindFault>
    ensures ordered { OnOk result (IsOrdered section.now base) }
    ensures frames { IfOk result (λ f. f ≡ frames_of section.now base) }
    ensures cause { IfErr result (IsFindCause section.now base) }
    ensures exact { (e : FindFault_spec) → IsFindCause section.now base e → MatchResult result (λ _. ⊥) (λ f. f ≡ e) }
    ensures complete { IsOrdered section.now base → IfErr result (λ _. ⊥) }
{
    match check(section, base) {
        Ok(frames) => Ok(frames),
        Err(fault) => Err(fault),
    }
}
