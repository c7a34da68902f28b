//! Records: values of a fixed number of bytes, as a file holds them. A record is stored as its bytes. A getter
//! decodes a field when it is called.

ghost use Rattle.std.specs.Prelude.{◌≡◌, ℕ, ◌<◌, ◌≤◌, List, length, take, replicate, MatchOption};

/// A value of `SIZE` bytes of a file.
pub trait Record: Copy {
    ghost SIZE: { ℕ };

    // the bytes of a record
    ghost contents: { Self → List ℕ };

    /// The size of a record in bytes, at least 1.
    const SIZE: usize;

    /// Returns the record of zero bytes.
    fn zeroed() -> Self
        ensures { contents result ≡ replicate SIZE 0 };

    /// Returns the record of the first `SIZE` bytes, or None exactly where there are fewer.
    fn read(bytes: &[u8]) -> Option<Self>
        ensures { MatchOption result (length bytes.now < SIZE) (λ record_read. (SIZE ≤ length bytes.now) × (contents record_read ≡ take SIZE bytes.now)) };

    /// Returns the bytes of the record, as a file holds them.
    fn as_bytes(&self) -> &[u8]
        ensures bytes { result.now ≡ contents self.now }
        ensures size { length result.now ≡ SIZE };

    ghost has_bytes: { 0 < SIZE };
}
