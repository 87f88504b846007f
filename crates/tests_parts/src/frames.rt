//! The largest frame as bytes (`frame_codec`).

use frame_codec::reading::decode;
use frame_codec::writing::encode;
use frame_region::buffer::FrameBuf;
use std::alloc::{AllocError, Global};
use std::process::Abort;
use std::test::Fail;

// What is before the body in a frame from port 1 of life 1.1 to port 1 of life 2.1.
const HEAD: [u8; 35] = [
    1, 0, 0, 0, 0, 0, 0, 0, 2, 0, 0, 0, 0, 0, 1, 0, 0, 0, 1, 1, 0, 0, 0, 0, 0, 2, 0, 0, 0, 1, 1, 0,
    0, 0, 1,
];

// Asserts that these bytes decode to a frame that encodes to the same bytes.
fn is_read<R: Abort + AllocGlobal>(rt: &R, bytes: &[u8], out: &mut FrameBuf) -> Result<(), Fail> {
    match decode(rt.alloc(), bytes) {
        Ok(frame) => {
            encode(&frame, out);
            assert_eq!(rt; out.bytes(), bytes);
            Ok(())
        }
        Err(_refusal) => Err("no frame".into()),
    }
}

// An entry of the deepest level, up to its links, of which there are twelve.
fn push_head(bytes: &mut Vec<u8>, uid: u8) -> Result<(), AllocError> {
    bytes.extend_from_slice(&[
        0, 0, 0, 0, 0, uid, 0, 0, 0, 1, 0, 0, 0, 0, 0, 9, 0, 0, 0, 1, 125, 0, 0, 0, 0, 0, 9, 0, 0,
        0, 1, 12, 126, 12,
    ])
}

// Adds the whole entry.
fn push_entry(bytes: &mut Vec<u8>, uid: u8) -> Result<(), AllocError> {
    push_head(bytes, uid)?;
    'links: for port in 1..13u8 {
        bytes.extend_from_slice(&[port, 0, 0, 0, 0, 0, 9, 0, 0, 0, 1, 12])?;
    }
    Ok(())
}

// Adds `entries` entries.
fn push_entries(bytes: &mut Vec<u8>, entries: u8) -> Result<(), AllocError> {
    'entries: for uid in 0..entries {
        push_entry(bytes, uid)?;
    }
    Ok(())
}

// Adds a topology of `entries` entries, and their numbers.
fn push_topology(bytes: &mut Vec<u8>, entries: u8) -> Result<(), AllocError> {
    bytes.extend_from_slice(&HEAD)?;
    bytes.extend_from_slice(&[4, entries])?;
    push_entries(bytes, entries)?;
    'numbers: for below in 0..entries {
        bytes.push(below.saturating_add(1))?;
    }
    Ok(())
}

// Returns the encoding of a topology of `entries` entries with twelve links each.
fn topology(alloc: Global, entries: u8) -> Result<Vec<u8>, AllocError> {
    let mut bytes = Vec::new(alloc);
    push_topology(&mut bytes, entries)?;
    Ok(bytes)
}

#[test]
fn the_greatest_frame_has_22591_bytes(rt: HostRuntime) -> Result<(), Fail> {
    let bytes = topology(rt.alloc(), 126)?;
    assert_eq!(rt; bytes.len(), 22_591);
    is_read(&rt, &bytes, &mut FrameBuf::new(rt.alloc())?)
}
