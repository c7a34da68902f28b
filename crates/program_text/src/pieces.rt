//! Texts cut into lines, and lines into words.
//!
//! A line ends before a line feed or with the text; words stand between single spaces. No byte is copied.
ghost use Rattle.std.specs.Prelude.{◌≡◌, ◌∷◌, ◌<◌, length, option_map};
ghost use Rattle.program_text.specs.Lines.{lines_of, line_words, words_after};

use memchr::memchr;

/// Returns the first line of a text that is not empty, and what follows its line feed.
pub fn split_line(text: &[u8]) -> (&[u8], &[u8])
    requires { 0 < length text.now }
    ensures lines { lines_of text.now ≡ result.0.now ∷ lines_of result.1.now }
    ensures shorter { length result.1.now < length text.now }
{
    match memchr(b'\n', text) {
        Some(end) => (&text[..end], &text[end + 1..]),
        None => (text, &[]),
    }
}

/// Returns the first word of a line, and what follows the space after it; none where the line ends with the word.
pub fn split_word(line: &[u8]) -> (&[u8], Option<&[u8]>)
    ensures { line_words line.now ≡ result.0.now ∷ words_after (option_map (λ rest. rest.now) result.1) }
{
    match memchr(b' ', line) {
        Some(end) => (&line[..end], Some(&line[end + 1..])),
        None => (line, None),
    }
}
