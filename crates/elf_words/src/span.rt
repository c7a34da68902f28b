//! Spans of a buffer, and whether they lie in it.

ghost use Rattle.std.specs.Prelude.{◌≡◌, None, not, position};
ghost use Rattle.elf_format.specs.Span.{AreInside, is_inside};

use elf_format::Span;

/// Returns the index of the first span that is reversed or ends after `len` bytes, or None where there is none.
#[tactic(auto, using(crate::proofs::SpanLemmas::inside_from_none))]
pub fn first_outside(len: usize, spans: &[Span]) -> Option<usize>
    ensures first { result ≡ position (λ span. not (is_inside len span)) spans.now }
    ensures none { result ≡ None → AreInside len spans.now }
{
    let index = spans
        .iter()
        .position(|span| !(span.start <= span.stop && span.stop <= len));
    index
}
