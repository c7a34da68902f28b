//! The SFrame contributions (SFrame 2): each of one function, with one FRE.

ghost use Rattle.std.specs.Prelude.{◌≡◌, ◌<◌, ◌≤◌};
ghost use Rattle.demo_input.specs.Contribution.{numbered_contribution};

/// A contribution with a function of 16 bytes that starts at 0.
const CONTRIBUTION: [u8; 51] = *b"\
    \xe2\xde\x02\0\x03\0\xf8\0\x01\0\0\0\x01\0\0\0\x03\0\0\0\0\0\0\0\x14\0\0\0\
    \0\0\0\0\x10\0\0\0\0\0\0\0\x01\0\0\0\0\0\0\0\
    \0\0\xee";

/// Returns, of so many contributions, the one with a number: the starts descend.
pub(crate) fn contribution(count: usize, number: usize) -> [u8; 51]
    requires few { count ≤ 1000 }
    requires inside { number < count }
    ensures { result ≡ numbered_contribution count number }
{
    let start = 4096 + 16 * (count - 1 - number) as u32;
    let mut bytes = CONTRIBUTION;
    bytes[28..32].copy_from_slice(&start.to_le_bytes());
    bytes[48] = (number % 256) as u8;
    bytes[49] = (number / 256) as u8;
    bytes
}
