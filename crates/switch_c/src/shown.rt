//! What C sees of a switch. The fields are those of `autonet.h`, in the same order.

ghost use Rattle.std.specs.Prelude.{◌≡◌};
ghost use Rattle.switch_core.specs.Kept.{StandsFor};
ghost use Rattle.switch_core.specs.Switch.{SwitchOf, finish_of};
ghost use Rattle.switch_c.specs.Fields.{frame_fields, member_fields, port_fields, row_fields, shown_fields};
ghost use Rattle.switch_c.specs.Shows.{IsPortShown, IsRowShown, IsShown, flag_of, member_count, number_of, state_of, table_epoch_of};

use crate::instance::Instance;
use an_base::life::Life;
use an_base::port::{PortState, PortView};
use an_base::row::Row;

/// What a switch shows of itself.
#[repr(C)]
#[derive(Clone, Copy)]
pub struct Shown {
    /// The present epoch.
    pub epoch: u64,
    /// The epoch of the table that was loaded last; 0 if `number` is 0.
    pub table_epoch: u64,
    /// The number of clocks and frames in this life, at most 2^60.
    pub works: u64,
    /// The number of frames with a body in this epoch, at most 2^28.
    pub carried: u32,
    /// The number of members that the switch has finished with in this epoch; 0 if it has not
    /// finished.
    pub members: u32,
    /// The short address of the switch in the table that was loaded last, 1 to 126; 0 if none was
    /// loaded.
    pub number: u8,
    /// 1 if a table is to be loaded, otherwise 0.
    pub load_due: u8,
    /// 1 if something that the switch sent is not acknowledged, otherwise 0.
    pub unacked: u8,
    /// 1 if no epoch is left, otherwise 0.
    pub spent: u8,
    /// 1 if the last bytes that came in are not a frame, otherwise 0.
    pub noframe: u8,
    /// 1 if memory ran out for a clock or a frame, otherwise 0.
    pub lost: u8,
}

/// What a switch takes the other end of a port to be.
#[repr(C)]
#[derive(Clone, Copy)]
pub struct PortShown {
    /// The identifier of the switch at the other end; 0 if `boot` is 0.
    pub uid: u64,
    /// Its boot; 0 if it is not known.
    pub boot: u32,
    /// Its port; 0 if `boot` is 0.
    pub port: u8,
    /// The state of the port: 0 dead, 1 checking, 2 host, 3 who, 4 loop, 5 good.
    pub state: u8,
}

/// A row of a table.
#[repr(C)]
#[derive(Clone, Copy)]
pub struct RowShown {
    /// The exits (egress ports): bit `p` says that port `p` is one.
    pub exits: u16,
    /// The port at which packets come in, 0 for the packets of the switch itself.
    pub entry: u8,
    /// The short address of the switch to which they go.
    pub to: u8,
}

/// A member of a topology.
#[repr(C)]
#[derive(Clone, Copy)]
pub struct MemberShown {
    /// Its identifier.
    pub uid: u64,
    /// Its boot.
    pub boot: u32,
    /// Its short address in the topology, 1 to 126.
    pub number: u8,
}

/// An outgoing frame.
#[repr(C)]
#[derive(Clone, Copy)]
pub struct FrameShown {
    /// The number of its bytes.
    pub length: usize,
    /// The port by which it goes out, 1 to 12.
    pub port: u8,
}

// Returns 1 for true and 0 for false.
fn flag(is: bool) -> u8
    ensures { result ≡ flag_of is }
{
    if is { 1 } else { 0 }
}

// Returns the number of a port state.
fn state(state: PortState) -> u8
    ensures { result ≡ state_of state }
{
    match state {
        PortState::Dead => 0,
        PortState::Checking => 1,
        PortState::Host => 2,
        PortState::Who => 3,
        PortState::Loop => 4,
        PortState::Good => 5,
    }
}

impl Shown {
    /// Returns what a switch shows of itself.
    pub fn of(instance: &Instance) -> Shown
        ensures { IsShown instance.now result }
    {
        let note = instance.switch.note();
        let (table_epoch, number) = table_of(instance);
        Shown {
            epoch: note.epoch,
            table_epoch,
            works: instance.switch.works(),
            carried: instance.switch.carried(),
            members: members_of(instance),
            number,
            load_due: flag(note.load_due),
            unacked: flag(note.unacked),
            spent: flag(instance.switch.is_spent()),
            noframe: flag(instance.out.noframe),
            lost: flag(instance.lost),
        }
    }

    /// Returns the struct in which each byte of each field is the index of the field, from 1.
    pub fn by_place() -> Shown
        ensures { result ≡ shown_fields }
    {
        Shown {
            epoch: 0x0101_0101_0101_0101,
            table_epoch: 0x0202_0202_0202_0202,
            works: 0x0303_0303_0303_0303,
            carried: 0x0404_0404,
            members: 0x0505_0505,
            number: 6,
            load_due: 7,
            unacked: 8,
            spent: 9,
            noframe: 10,
            lost: 11,
        }
    }
}

// Returns the epoch of the table that was loaded last, and the short address of the switch in it.
fn table_of(instance: &Instance) -> (u64, u8)
    ensures epoch { result.0 ≡ table_epoch_of instance.now }
    ensures number { result.1 ≡ number_of instance.now }
{
    match &instance.loaded {
        Some(loaded) => (loaded.epoch, loaded.table.number()),
        None => (0, 0),
    }
}

// Returns the number of members that a switch has finished with.
fn members_of(instance: &Instance) -> u32
    ensures { (s : SwitchOf) → StandsFor instance.now.switch s → result ≡ member_count (finish_of s) }
{
    match instance.switch.finish() {
        Some(topo) => topo.entries().as_slice().len() as u32,
        None => 0,
    }
}

impl PortShown {
    /// Returns what a switch takes the other end of a port to be.
    pub fn of(view: PortView) -> PortShown
        ensures { IsPortShown view result }
    {
        let state = state(view.state);
        match view.peer {
            Some(peer) => PortShown {
                uid: peer.life().uid(),
                boot: peer.life().boot(),
                port: peer.port(),
                state,
            },
            None => PortShown {
                uid: 0,
                boot: 0,
                port: 0,
                state,
            },
        }
    }

    /// Returns the struct in which each byte of each field is the index of the field, from 1.
    pub fn by_place() -> PortShown
        ensures { result ≡ port_fields }
    {
        PortShown {
            uid: 0x0101_0101_0101_0101,
            boot: 0x0202_0202,
            port: 3,
            state: 4,
        }
    }
}

impl RowShown {
    /// Returns a row of a table.
    pub fn of(row: &Row) -> RowShown
        ensures { IsRowShown row.now result }
    {
        RowShown {
            exits: row.exits.as_set(),
            entry: row.entry,
            to: row.to,
        }
    }

    /// Returns the struct in which each byte of each field is the index of the field, from 1.
    pub fn by_place() -> RowShown
        ensures { result ≡ row_fields }
    {
        RowShown {
            exits: 0x0101,
            entry: 2,
            to: 3,
        }
    }
}

impl MemberShown {
    /// Returns a member of a topology.
    pub fn of(life: Life, number: u8) -> MemberShown
        ensures { result ≡ record { uid = life.uid; boot = life.boot; number = number } }
    {
        MemberShown {
            uid: life.uid(),
            boot: life.boot(),
            number,
        }
    }

    /// Returns the struct in which each byte of each field is the index of the field, from 1.
    pub fn by_place() -> MemberShown
        ensures { result ≡ member_fields }
    {
        MemberShown {
            uid: 0x0101_0101_0101_0101,
            boot: 0x0202_0202,
            number: 3,
        }
    }
}

impl FrameShown {
    /// Returns the struct in which each byte of each field is the index of the field, from 1.
    pub fn by_place() -> FrameShown
        ensures { result ≡ frame_fields }
    {
        FrameShown {
            length: 0x0101_0101_0101_0101,
            port: 2,
        }
    }
}
