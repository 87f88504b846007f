//! library: one switch for C programs, as a static library.
//! Its exports are the calls of `switch_core`.
//!
//! It depends on the control program of one switch (`switch_core`), and on no simulated network. Its contract: C
//! holds a switch by a handle, and each export does to the switch of a handle what the call of `switch_core` does,
//! with the same postconditions. Every call within the ranges of the types returns a return code. A rejected call
//! changes nothing, and writes nothing except the length of a frame for which there is too little space. Rows,
//! members and frames are delivered one by one, in their order.
//!
//! `embed/autonet.h` lists the return codes of each export, and what is unchanged after each. It also says what the
//! C side must ensure, because no contract can see it: that a handle is zero before its first start and is written
//! only by these calls, and that pointers point to what they say.
#![tactic(auto)]

mod block;
pub mod handle;
pub mod instance;
pub mod shown;
pub mod status;

ghost use Rattle.std.specs.Prelude.{◌≡◌};
ghost use Rattle.switch_c.specs.Answers.{Asks, Calls, Ends, IsHandle, Starts, Writes};
ghost use Rattle.switch_c.specs.Calls.{Clocks, HandsOut, Loads, TakesFrame};
ghost use Rattle.switch_c.specs.Shows.{AsksMember, AsksPort, AsksRow, Shows};
ghost use Rattle.switch_c.specs.Fields.{frame_fields, member_fields, port_fields, row_fields, shown_fields};

use crate::handle::Handle;
use crate::instance::Instance;
use crate::shown::{FrameShown, MemberShown, PortShown, RowShown, Shown};
use crate::status::Status;
use std::alloc::Global;

/// Starts a switch in a life that no switch had before: `uid` below 2^48, and `boot` from 1. It starts in the epoch
/// `epoch`, which it has not joined, with the short address `had` (1 to 126) that it had before. Its tables have
/// all legal routes if `any` is true, otherwise only the shortest. The handle must hold no switch.
#[unsafe(no_mangle)]
pub extern "C" fn autonet_start(
    alloc: Global,
    switch: &mut Handle,
    uid: u64,
    boot: u32,
    epoch: u64,
    had: u8,
    any: bool,
) -> u32
    requires handle { IsHandle switch.old.held switch.old.block.instance }
    ensures handle { IsHandle switch.new.held switch.new.block.instance }
    ensures starts { Starts uid boot epoch had any switch.old.block.instance switch.new.block.instance result }
{
    match switch.take(alloc) {
        Some(instance) => {
            switch.put(instance);
            Status::Started.code()
        }
        None => match Instance::boxed(alloc, uid, boot, epoch, had, any) {
            Ok(instance) => {
                switch.put(instance);
                Status::Done.code()
            }
            Err(status) => status.code(),
        },
    }
}

/// Passes a clock event at the tick `now` to the switch. Bit `p` of `up` says that port `p`, 1 to 12, has a link,
/// and bit `p` of `hosts` that a host is at its other end; the other bits are ignored.
#[unsafe(no_mangle)]
pub extern "C" fn autonet_clock(
    alloc: Global,
    switch: &mut Handle,
    now: u64,
    up: u16,
    hosts: u16,
) -> u32
    requires handle { IsHandle switch.old.held switch.old.block.instance }
    ensures handle { IsHandle switch.new.held switch.new.block.instance }
    ensures clocks { Calls (Clocks now up hosts) switch.old.block.instance switch.new.block.instance result }
{
    match switch.take(alloc) {
        Some(mut instance) => {
            let status = instance.clock(now, up, hosts);
            switch.put(instance);
            status.code()
        }
        None => Status::NotStarted.code(),
    }
}

/// Passes `bytes`, which came by `port`, 1 to 12, to the switch.
#[unsafe(no_mangle)]
pub extern "C" fn autonet_frame(alloc: Global, switch: &mut Handle, port: u8, bytes: &[u8]) -> u32
    requires handle { IsHandle switch.old.held switch.old.block.instance }
    ensures handle { IsHandle switch.new.held switch.new.block.instance }
    ensures takes { Calls (TakesFrame port bytes.now) switch.old.block.instance switch.new.block.instance result }
{
    match switch.take(alloc) {
        Some(mut instance) => {
            let status = instance.frame(port, bytes);
            switch.put(instance);
            status.code()
        }
        None => Status::NotStarted.code(),
    }
}

/// Copies the next outgoing frame of the last clock or frame into `bytes`, and its port and length into `frame`. If
/// `bytes` is too short, only the length is set.
#[unsafe(no_mangle)]
pub extern "C" fn autonet_next(
    alloc: Global,
    switch: &mut Handle,
    frame: &mut FrameShown,
    bytes: &mut [u8],
) -> u32
    requires handle { IsHandle switch.old.held switch.old.block.instance }
    ensures handle { IsHandle switch.new.held switch.new.block.instance }
    ensures hands { Writes HandsOut (frame.old, bytes.old) (frame.new, bytes.new) switch.old.block.instance switch.new.block.instance result }
{
    match switch.take(alloc) {
        Some(mut instance) => {
            let status = instance.next(frame, bytes);
            switch.put(instance);
            status.code()
        }
        None => Status::NotStarted.code(),
    }
}

/// Loads the table that is due. Its rows are then those of the switch.
#[unsafe(no_mangle)]
pub extern "C" fn autonet_load(alloc: Global, switch: &mut Handle) -> u32
    requires handle { IsHandle switch.old.held switch.old.block.instance }
    ensures handle { IsHandle switch.new.held switch.new.block.instance }
    ensures loads { Calls Loads switch.old.block.instance switch.new.block.instance result }
{
    match switch.take(alloc) {
        Some(mut instance) => {
            let status = instance.load();
            switch.put(instance);
            status.code()
        }
        None => Status::NotStarted.code(),
    }
}

/// Writes what the switch shows of itself into `shown`.
#[unsafe(no_mangle)]
pub extern "C" fn autonet_show(alloc: Global, switch: &mut Handle, shown: &mut Shown) -> u32
    requires handle { IsHandle switch.old.held switch.old.block.instance }
    ensures handle { IsHandle switch.new.held switch.new.block.instance }
    ensures shows { Asks (λ _. Shows) shown.old shown.new switch.old.block.instance switch.new.block.instance result }
{
    match switch.take(alloc) {
        Some(instance) => {
            let status = instance.show(shown);
            switch.put(instance);
            status.code()
        }
        None => Status::NotStarted.code(),
    }
}

/// Writes what the switch takes the other end of `port`, 1 to 12, to be into `shown`.
#[unsafe(no_mangle)]
pub extern "C" fn autonet_port(
    alloc: Global,
    switch: &mut Handle,
    port: u8,
    shown: &mut PortShown,
) -> u32
    requires handle { IsHandle switch.old.held switch.old.block.instance }
    ensures handle { IsHandle switch.new.held switch.new.block.instance }
    ensures shows { Asks (AsksPort port) shown.old shown.new switch.old.block.instance switch.new.block.instance result }
{
    match switch.take(alloc) {
        Some(instance) => {
            let status = instance.port(port, shown);
            switch.put(instance);
            status.code()
        }
        None => Status::NotStarted.code(),
    }
}

/// Writes the row at the index `place`, from 0, of the table that was loaded last into `row`.
#[unsafe(no_mangle)]
pub extern "C" fn autonet_row(
    alloc: Global,
    switch: &mut Handle,
    place: usize,
    row: &mut RowShown,
) -> u32
    requires handle { IsHandle switch.old.held switch.old.block.instance }
    ensures handle { IsHandle switch.new.held switch.new.block.instance }
    ensures shows { Asks (AsksRow place) row.old row.new switch.old.block.instance switch.new.block.instance result }
{
    match switch.take(alloc) {
        Some(instance) => {
            let status = instance.row(place, row);
            switch.put(instance);
            status.code()
        }
        None => Status::NotStarted.code(),
    }
}

/// Writes the member at the index `place`, from 0, of what the switch has now finished with into `member`.
#[unsafe(no_mangle)]
pub extern "C" fn autonet_member(
    alloc: Global,
    switch: &mut Handle,
    place: usize,
    member: &mut MemberShown,
) -> u32
    requires handle { IsHandle switch.old.held switch.old.block.instance }
    ensures handle { IsHandle switch.new.held switch.new.block.instance }
    ensures shows { Asks (AsksMember place) member.old member.new switch.old.block.instance switch.new.block.instance result }
{
    match switch.take(alloc) {
        Some(instance) => {
            let status = instance.member(place, member);
            switch.put(instance);
            status.code()
        }
        None => Status::NotStarted.code(),
    }
}

/// Ends the life of the switch and frees its memory. The handle then holds no switch.
#[unsafe(no_mangle)]
pub extern "C" fn autonet_end(alloc: Global, switch: &mut Handle) -> u32
    requires handle { IsHandle switch.old.held switch.old.block.instance }
    ensures handle { IsHandle switch.new.held switch.new.block.instance }
    ensures ends { Ends switch.old.block.instance switch.new.block.instance result }
{
    match switch.take(alloc) {
        Some(_instance) => Status::Done.code(),
        None => Status::NotStarted.code(),
    }
}

/// Fills each byte of each field with the index of the field in its struct, from 1, so that a program can check
/// that its header has the fields where this library has them.
#[unsafe(no_mangle)]
pub extern "C" fn autonet_fields(
    shown: &mut Shown,
    port: &mut PortShown,
    row: &mut RowShown,
    member: &mut MemberShown,
    frame: &mut FrameShown,
)
    ensures shown { shown.new ≡ shown_fields }
    ensures port { port.new ≡ port_fields }
    ensures row { row.new ≡ row_fields }
    ensures member { member.new ≡ member_fields }
    ensures frame { frame.new ≡ frame_fields }
{
    *shown = Shown::by_place();
    *port = PortShown::by_place();
    *row = RowShown::by_place();
    *member = MemberShown::by_place();
    *frame = FrameShown::by_place();
}
