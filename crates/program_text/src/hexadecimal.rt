//! Arguments that are bytes in hexadecimal digits of either case, two for each byte.
ghost use Rattle.std.specs.Prelude.{◌≡◌, ◌↔◌, ◌%◌, length, IsTrue};
ghost use Rattle.std.specs.Result.{is_ok};
ghost use Rattle.std.specs.List.{AllPass};
ghost use Rattle.hex.specs.Hex.{decode_of, is_hex_digit};

/// Reports whether a byte is a hexadecimal digit of either case.
fn is_digit(byte: u8) -> bool
    ensures { result ≡ is_hex_digit byte }
{
    matches!(byte, b'0'..=b'9' | b'a'..=b'f' | b'A'..=b'F')
}

/// Reports whether a word is an even number of hexadecimal digits.
fn are_pairs(word: &str) -> bool
    ensures { IsTrue result ↔ ((length word.now % 2 ≡ 0) × AllPass is_hex_digit word.now) }
{
    word.len() % 2 == 0 && word.as_bytes().iter().all(|byte| is_digit(*byte))
}

/// Reports whether a word is the digits of some bytes.
pub(crate) fn is_hexadecimal(word: &str) -> bool
    ensures { result ≡ is_ok (decode_of word.now) }
{
    are_pairs(word)
}
