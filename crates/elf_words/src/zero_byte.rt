//! The zero byte that ends a string (gABI, String Table).

ghost use Rattle.std.specs.Prelude.{◌≡◌, ◌==◌, ◌<◌, length, position, IfSome};

use memchr::memchr;

/// Returns the offset of the first zero byte, or None where there is none.
pub fn first_zero(bytes: &[u8]) -> Option<usize>
    ensures value { result ≡ position (λ byte. byte == 0) bytes.now }
    ensures bound { IfSome result (λ offset. offset < length bytes.now) }
{
    memchr(0, bytes)
}
