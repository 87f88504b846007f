//! Regions of blocks, and buffers (`frame_region`).

ghost use Rattle.std.specs.Prelude.{◌≡◌, ◌<◌, ◌≤◌, IfOk, None, length};
ghost use Rattle.frame_region.specs.Regions.{held_at, with_put};
ghost use Rattle.frame_region.specs.declared.buffer.TheConstants.{MOST_FRAME};

use frame_region::buffer::FrameBuf;
use frame_region::region::{NoRoom, Region, Slip};
use std::process::Abort;
use std::test::Fail;

// Asserts that a region with one block less has no room for the frame.
fn has_no_room<R: Abort + AllocGlobal>(rt: &R, frame: &[u8; 22_591]) -> Result<(), Fail> {
    let mut region = Region::new(rt.alloc(), 352)?;
    let no_room = NoRoom {
        need: 353,
        free: 352,
    };
    assert!(rt; region.put(frame).err() == Some(no_room));
    Ok(())
}

// Asserts that a region with just enough blocks is full with the frame, and returns it.
fn is_full(
    rt: &impl Abort,
    region: &mut Region,
    out: &mut FrameBuf,
    frame: &[u8; 22_591],
) -> Result<(), Fail> {
    let slip = region.put(frame).ok().ok_or("no room")?;
    assert!(rt; region.free_blocks() == 0);
    region.take(slip, out);
    assert!(rt; out.bytes() == frame.as_slice());
    Ok(())
}

#[test]
fn the_largest_frame_needs_353_blocks(rt: HostRuntime) -> Result<(), Fail> {
    let frame = [9u8; 22_591];
    has_no_room(&rt, &frame)?;
    let mut region = Region::new(rt.alloc(), 353)?;
    is_full(&rt, &mut region, &mut FrameBuf::new(rt.alloc())?, &frame)
}

// Puts bytes for which there is room.
fn put(region: &mut Region, bytes: &[u8]) -> Result<Slip, Fail>
    requires least { 1 ≤ length bytes.now }
    requires most { length bytes.now ≤ MOST_FRAME }
    ensures put { IfOk result (λ slip. region.new ≡ with_put slip bytes.now region.old) }
    ensures new { IfOk result (λ slip. (slip < length region.old.held) × (held_at region.old slip ≡ None)) }
{
    match region.put(bytes) {
        Ok(slip) => Ok(slip),
        Err(_no_room) => Err("no room".into()),
    }
}

// Asserts that there is no room for bytes.
fn refuses(rt: &impl Abort, region: &mut Region, bytes: &[u8], no_room: NoRoom)
    requires least { 1 ≤ length bytes.now }
    requires most { length bytes.now ≤ MOST_FRAME }
    ensures { region.new ≡ region.old }
{
    match region.put(bytes) {
        Ok(_slip) => assert!(rt; false),
        Err(why) => assert!(rt; why == no_room),
    }
}

#[test]
fn frames_share_the_blocks_of_a_region(rt: HostRuntime) -> Result<(), Fail> {
    let mut out = FrameBuf::new(rt.alloc())?;
    let mut region = Region::new(rt.alloc(), 2)?;
    let first = put(&mut region, &[1; 64])?;
    refuses(&rt, &mut region, &[2; 65], NoRoom { need: 2, free: 1 });
    let _second = put(&mut region, &[3])?;
    refuses(&rt, &mut region, &[4], NoRoom { need: 1, free: 0 });
    region.take(first, &mut out);
    assert!(rt; out.bytes() == [1; 64].as_slice());
    assert!(rt; region.free_blocks() == 1);
    Ok(())
}

#[test]
fn two_blocks_serve_a_thousand_frames_in_turn(rt: HostRuntime) -> Result<(), Fail> {
    let mut region = Region::new(rt.alloc(), 2)?;
    let mut out = FrameBuf::new(rt.alloc())?;
    for _ in 0..1000 {
        let slip = region.put(&[5; 65]).ok().ok_or("no room")?;
        region.take(slip, &mut out);
        assert!(rt; region.free_blocks() == 2);
    }
    Ok(())
}
