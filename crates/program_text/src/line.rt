//! One line of the layout: `place OBJECT SECTION ADDRESS SIZE`, `range START STOP` or `base ADDRESS`.
//!
//! Its words stand between single spaces, and its numbers are decimal. An empty line and a line that begins with `#` are skipped.
ghost use Rattle.std.specs.Prelude.{◌≡◌, ◌∷◌, option_map, MatchOption};
ghost use Rattle.std.specs.Option.{unwrap_or};
ghost use Rattle.program_text.specs.Layout.{numbers_after, first_number, place_line, range_of, base_of, words_say, line_of};
ghost use Rattle.program_text.specs.Lines.{line_words};

use crate::number::read_number;
use crate::pieces::split_word;
use elf_format::Span;
use gdb_index_format::Placement;

/// The entry of one line.
#[derive(Clone, Copy)]
pub enum Line {
    /// Nothing: it is empty or a comment.
    Skipped,
    /// Where a section has been placed.
    Place(Placement),
    /// A range of the SFrame bytes that is one contribution.
    Range(Span),
    /// The address of the first of the SFrame bytes.
    Base(u64),
    /// It is none of these.
    Wrong,
}

/// Returns the number that is the first of some words, and the words after it; none where there is no word, or it is no number.
fn next_number(words: Option<&[u8]>) -> Option<(u64, Option<&[u8]>)>
    ensures { MatchOption result
        (first_number (numbers_after (option_map (λ w. w.now) words.entry)) ≡ None)
        (λ next. numbers_after (option_map (λ w. w.now) words.entry)
        ≡ Some next.0 ∷ numbers_after (option_map (λ w. w.now) next.1)) }
{
    let (word, rest) = split_word(words?);
    let number = read_number(word)?;
    Some((number, rest))
}

/// Reads what follows `place`: object, section, address and size.
fn read_place(words: Option<&[u8]>) -> Option<Line>
    ensures { unwrap_or result Line.Wrong ≡ place_line (numbers_after (option_map (λ w. w.now) words.entry)) }
{
    let (object, words) = next_number(words)?;
    let (section, words) = next_number(words)?;
    let (address, words) = next_number(words)?;
    let (size, words) = next_number(words)?;
    if words.is_some() {
        return None;
    }
    Some(Line::Place(Placement {
        object: object as usize,
        section: section as usize,
        address,
        size,
    }))
}

/// Reads what follows `range`: start and stop.
fn read_range(words: Option<&[u8]>) -> Option<Line>
    ensures { unwrap_or result Line.Wrong ≡ range_of (numbers_after (option_map (λ w. w.now) words.entry)) }
{
    let (start, words) = next_number(words)?;
    let (stop, words) = next_number(words)?;
    if words.is_some() {
        return None;
    }
    Some(Line::Range(Span {
        start: start as usize,
        stop: stop as usize,
    }))
}

/// Reads what follows `base`: an address.
fn read_base(words: Option<&[u8]>) -> Option<Line>
    ensures { unwrap_or result Line.Wrong ≡ base_of (numbers_after (option_map (λ w. w.now) words.entry)) }
{
    let (address, words) = next_number(words)?;
    if words.is_some() {
        return None;
    }
    Some(Line::Base(address))
}

/// Reads a line that is not skipped; none where it is wrong.
fn read_entry(line: &[u8]) -> Option<Line>
    ensures { unwrap_or result Line.Wrong ≡ words_say (line_words line.now) }
{
    let (keyword, words) = split_word(line);
    match keyword {
        b"place" => read_place(words),
        b"range" => read_range(words),
        b"base" => read_base(words),
        _ => None,
    }
}

/// Reads one line, without its line feed.
pub fn read_line(line: &[u8]) -> Line
    ensures { result ≡ line_of line.now }
{
    match line {
        [] | [b'#', ..] => Line::Skipped,
        _ => read_entry(line).unwrap_or(Line::Wrong),
    }
}
