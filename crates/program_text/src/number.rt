//! Decimal numbers of the layout: below 2^64, without needless zeros.
//!
//! Each number has one text, so a word that is read is exactly what a number is written as.
ghost use Rattle.std.specs.Prelude.{◌≡◌};
ghost use Rattle.program_text.specs.Number.{number_of};

/// Returns the number that a word is the decimal text of; none where it is no such text.
pub fn read_number(word: &[u8]) -> Option<u64>
    ensures { result ≡ number_of word.now }
{
    let [first, rest @ ..] = word else {
        return None;
    };
    if *first == b'+' || *first == b'0' && !rest.is_empty() {
        return None;
    }
    fast_float::parse_u64(word).ok()
}
