//! The header of an SFrame section (SFrame 2, SFrame Header): the first 28 bytes of a contribution. Both offsets
//! in it count from the end of the header and its auxiliary bytes.

ghost use Rattle.std.specs.Prelude.{◌≡◌, ◌≢◌, ◌+◌, ◌≤◌, ◌++◌, List, ℕ, length, drop, MatchResult, IfOk, Ok};
ghost use Rattle.sframe_format.specs.Fields.{header_of, header_bytes, IsParsedHeader};

use elf_words::{read_u16, read_u32};
use thiserror::Error;

/// Why bytes are not a header of version 2. The magic is tested first.
#[derive(Clone, Copy, Debug, PartialEq, Eq, Error)]
pub enum SframeError {
    /// The first two bytes are this number, not the magic.
    #[error("Invalid SFrame magic {0:#x}")]
    BadMagicBytes(u16),
    /// The magic is right, and the version is this one, not 2.
    #[error("Unsupported SFrame version {0}")]
    UnsupportedVersion(u8),
}

/// The fields of a header (SFrame 2, SFrame Header). Lengths and offsets are in bytes.
#[derive(Clone, Copy, Debug, PartialEq, Eq)]
pub struct Header {
    /// `sfp_magic`: 0xdee2.
    pub magic: u16,
    /// `sfp_version`: 2.
    pub version: u8,
    /// `sfp_flags`. 1: FDEs ascend by address; 2: all functions keep a frame pointer; 4: a start value counts from its
    /// own field; 8: return addresses are signed.
    pub flags: u8,
    /// `sfh_abi_arch`: the machine and its byte order.
    pub abi_arch: u8,
    /// `sfh_cfa_fixed_fp_offset`: the offset of the saved frame pointer from the CFA; 0 where it is not fixed.
    pub cfa_fixed_fp_offset: i8,
    /// `sfh_cfa_fixed_ra_offset`: the offset of the saved return address from the CFA; 0 where it is not fixed.
    pub cfa_fixed_ra_offset: i8,
    /// `sfh_auxhdr_len`: the number of auxiliary bytes after the header.
    pub aux_len: u8,
    /// `sfh_num_fdes`: the number of FDEs, of 20 bytes each.
    pub num_fdes: u32,
    /// `sfh_num_fres`: the number of FREs of all functions.
    pub num_fres: u32,
    /// `sfh_fre_len`: the size of all FREs.
    pub fre_len: u32,
    /// `sfh_fdeoff`: the offset of the first FDE.
    pub fde_start_offset: u32,
    /// `sfh_freoff`: the offset of the first FRE.
    pub fre_start_offset: u32,
}

impl Header {
    /// The size of a header in bytes.
    pub const SIZE: usize = 28;

    /// The number in the first two bytes of a header.
    pub const MAGIC: u16 = 0xdee2;

    /// The version that is read and written.
    pub const VERSION: u8 = 2;

    /// Returns the fields of the first 28 bytes, whatever they hold. Requires 28 bytes.
    pub fn read(bytes: &[u8]) -> Header
        requires { 28 ≤ length bytes.now }
        ensures { result ≡ header_of bytes.now }
    {
        Header {
            magic: read_u16(bytes, 0),
            version: bytes[2],
            flags: bytes[3],
            abi_arch: bytes[4],
            cfa_fixed_fp_offset: bytes[5].cast_signed(),
            cfa_fixed_ra_offset: bytes[6].cast_signed(),
            aux_len: bytes[7],
            num_fdes: read_u32(bytes, 8),
            num_fres: read_u32(bytes, 12),
            fre_len: read_u32(bytes, 16),
            fde_start_offset: read_u32(bytes, 20),
            fre_start_offset: read_u32(bytes, 24),
        }
    }

    /// Returns the header of version 2 in the first 28 bytes. Requires 28 bytes. `BadMagicBytes` exactly where the
    /// magic is another one, else `UnsupportedVersion` exactly where the version is.
    pub fn parse(bytes: &[u8]) -> Result<Header, SframeError>
        requires { 28 ≤ length bytes.now }
        ensures { IsParsedHeader (header_of bytes.now) result }
    {
        let header = Header::read(bytes);
        if header.magic != Header::MAGIC {
            return Err(SframeError::BadMagicBytes(header.magic));
        }
        if header.version != Header::VERSION {
            return Err(SframeError::UnsupportedVersion(header.version));
        }
        Ok(header)
    }

    /// Writes the header into the first 28 bytes and leaves the others. Requires 28 bytes.
    pub fn write(&self, out: &mut [u8])
        requires { 28 ≤ length out.old }
        ensures { out.new ≡ header_bytes self.now ++ drop 28 out.old }
    {
        out[..28].copy_from_slice(&self.to_bytes());
    }

    /// Returns the 28 bytes of the header.
    pub fn to_bytes(&self) -> [u8; 28]
        ensures value { result ≡ header_bytes self.now }
        ensures len { length result ≡ 28 }
    {
        let [m0, m1] = self.magic.to_le_bytes();
        let [d0, d1, d2, d3] = self.num_fdes.to_le_bytes();
        let [r0, r1, r2, r3] = self.num_fres.to_le_bytes();
        let [l0, l1, l2, l3] = self.fre_len.to_le_bytes();
        let [s0, s1, s2, s3] = self.fde_start_offset.to_le_bytes();
        let [t0, t1, t2, t3] = self.fre_start_offset.to_le_bytes();
        [
            m0,
            m1,
            self.version,
            self.flags,
            self.abi_arch,
            self.cfa_fixed_fp_offset.cast_unsigned(),
            self.cfa_fixed_ra_offset.cast_unsigned(),
            self.aux_len,
            d0,
            d1,
            d2,
            d3,
            r0,
            r1,
            r2,
            r3,
            l0,
            l1,
            l2,
            l3,
            s0,
            s1,
            s2,
            s3,
            t0,
            t1,
            t2,
            t3,
        ]
    }
}

/// A header that is written is read again.
pub fn written_then_read(header: Header)
    ensures { (rest : List ℕ) → header_of (header_bytes header ++ rest) ≡ header }
{}
