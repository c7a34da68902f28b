//! A step along a chain of records.

ghost use Rattle.std.specs.Prelude.{◌≡◌, ◌+◌, ◌-◌, ◌<◌, ◌≤◌, ◌==◌, ◌∷◌, [], ℕ, length, MatchOption, if◌then◌else◌};
ghost use Rattle.elf_format.specs.Bytes.{bytes_at};
ghost use Rattle.elf_format.specs.Chain.{on_ok};
ghost use Rattle.elf_format.specs.VersionChain as chain;
ghost use Rattle.elf_format.specs.VersionChain.{ChainForm, offsets_from};

use crate::chain::ChainRecord;
use elf_format::ElfError;
use elf_words::Record;

/// Where a chain goes on: it has at most `count` more records, the next at the offset `at`.
#[derive(Clone, Copy)]
pub(crate) struct Position {
    pub at: usize,
    pub count: u32,
}

/// Returns the record at an offset, or None exactly where the bytes end inside it.
fn record_at<R: Record>(bytes: &[u8], at: usize) -> Option<R>
    ensures { MatchOption result (length bytes.now < at + R.SIZE) (λ r. (at + R.SIZE ≤ length bytes.now) × (R.contents r ≡ bytes_at bytes.now at R.SIZE)) }
{
    R::read(bytes.get(at..)?)
}

/// Returns the offset at a distance from another. One that does not fit is past all bytes.
#[tactic(auto, using(crate::proofs::ChainLemmas::offsets_past))]
pub(crate) fn offset_after(bytes: &[u8], at: usize, distance: u32) -> usize
    ensures { (form : ChainForm) (count : ℕ) → 0 < form.size → offsets_from form bytes.now count result ≡ offsets_from form bytes.now count (at + distance) }
{
    match at.checked_add(distance as usize) {
        Some(offset) => offset,
        None => bytes.len(),
    }
}

/// Returns the position after a record, by the distance to the next record.
fn position_after<R: ChainRecord>(bytes: &[u8], position: Position, distance: u32) -> Position
    requires { 0 < position.count }
    ensures { offsets_from R.form bytes.now result.count result.at ≡ (if distance == 0 then [] else offsets_from R.form bytes.now (position.count - 1) (position.at + distance)) }
{
    if distance == 0 {
        return Position {
            at: position.at,
            count: 0,
        };
    }
    Position {
        at: offset_after(bytes, position.at, distance),
        count: position.count - 1,
    }
}

/// Reads the record at a position, and returns the position of the next. `VersionTable` where the bytes end inside
/// the record; no record follows then. Requires that the chain goes on.
#[tactic(auto, using(crate::proofs::ChainLemmas::offsets_error, crate::proofs::ChainLemmas::offsets_more))]
pub(crate) fn read_step<R: ChainRecord>(
    bytes: &[u8],
    position: Position,
) -> (Result<R, ElfError>, Position)
    requires { 0 < position.count }
    ensures offsets { offsets_from R.form bytes.now position.count position.at ≡ on_ok (λ _. position.at) result.0 ∷ offsets_from R.form bytes.now result.1.count result.1.at }
    ensures item { on_ok R.contents result.0 ≡ on_ok (λ _. chain.record_at R.form bytes.now position.at) result.0 }
{
    let Some(record) = record_at::<R>(bytes, position.at) else {
        let end = Position {
            at: position.at,
            count: 0,
        };
        return (Err(ElfError::VersionTable), end);
    };
    let next = position_after::<R>(bytes, position, record.next_distance());
    (Ok(record), next)
}
