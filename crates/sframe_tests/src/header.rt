//! The header of a contribution, and the texts of its errors.

use sframe_format::{Header, SframeError};
use std::test::Fail;

#[test]
fn a_header_is_read_and_written(rt: HostRuntime) -> Result<(), Fail> {
    let bytes = [
        0xe2, 0xde, 2, 4, 3, 0, 0xf8, 0, 1, 0, 0, 0, 2, 0, 0, 0, 3, 0, 0, 0, 0, 0, 0, 0, 20, 0, 0,
        0,
    ];
    let header = Header::parse(&bytes).expect(&rt, "a header of version 2");
    assert_eq!(rt; (header.flags, header.cfa_fixed_ra_offset), (4, -8));
    assert_eq!(rt;
        (header.num_fdes, header.num_fres, header.fre_start_offset),
        (1, 2, 20)
    );
    let mut out = [0xff; 29];
    header.write(&mut out);
    assert_eq!(rt; &out[..28], bytes.as_slice());
    assert_eq!(rt; out[28], 0xff);
    Ok(())
}

#[test]
fn the_texts_of_errors(rt: HostRuntime) -> Result<(), Fail> {
    let alloc = rt.alloc();
    let mut bytes = [0; 28];
    bytes[0] = 0x34;
    bytes[1] = 0x12;
    bytes[2] = 1;
    let magic = Header::parse(&bytes).unwrap_err();
    assert_eq!(rt; magic, SframeError::BadMagicBytes(0x1234));
    assert_eq!(rt;
        magic.to_string(alloc)?.as_str(),
        "Invalid SFrame magic 0x1234"
    );
    bytes[0] = 0xe2;
    bytes[1] = 0xde;
    let version = Header::parse(&bytes).unwrap_err();
    assert_eq!(rt; version, SframeError::UnsupportedVersion(1));
    assert_eq!(rt;
        version.to_string(alloc)?.as_str(),
        "Unsupported SFrame version 1"
    );
    Ok(())
}
