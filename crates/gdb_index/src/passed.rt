//! Counts the probe steps that are known to meet taken slots while a hash table is filled. All names whose probes begin
//! at one slot have one probe, so a name skips the steps at which an earlier name met taken slots. Each slot has three
//! bytes for its count. The bytes lie where the CU vectors will stand: a vector has eight bytes or more, and there are at
//! most eight slots for three names.

ghost use Rattle.std.specs.Prelude.{◌≡◌, ℕ, ◌+◌, ◌*◌, ◌<◌, ◌≤◌, ◌^◌, length, min};
ghost use Rattle.gdb_index.specs.steps.Passed as passed_by;

/// The size of a slot's count in bytes.
pub(crate) const PASSED_LEN: usize = 3;

/// Returns how many steps of the probes that begin at a slot are known to meet taken slots.
pub(crate) fn steps_passed(passed: &[u8], slot: usize) -> usize
    requires { slot < 2 ^ 32 }
    ensures { result ≡ passed_by.steps_passed passed.now slot }
{
    let at = PASSED_LEN * slot;
    if at + PASSED_LEN > passed.len() {
        return 0;
    }
    usize::from(passed[at])
        + 256 * usize::from(passed[at + 1])
        + 65536 * usize::from(passed[at + 2])
}

/// Records that so many steps of the probes that begin at a slot meet taken slots, at most 16,777,215.
pub(crate) fn pass_steps(passed: &mut [u8], slot: usize, steps: usize)
    requires { slot < 2 ^ 32 }
    ensures at_most { passed_by.steps_passed passed.new slot ≤ steps }
    ensures noted { 3 * slot + 3 ≤ length passed.old → passed_by.steps_passed passed.new slot ≡ min steps 16777215 }
    ensures others { (s : ℕ) → (s ≡ slot → ⊥) → passed_by.steps_passed passed.new s ≡ passed_by.steps_passed passed.old s }
{
    let at = PASSED_LEN * slot;
    if at + PASSED_LEN > passed.len() {
        return;
    }
    let noted = steps.min(0xff_ffff);
    passed[at] = (noted % 256) as u8;
    passed[at + 1] = (noted / 256 % 256) as u8;
    passed[at + 2] = (noted / 65536) as u8;
}
