//! The service levels that are given, and those in use.

ghost use Rattle.std.specs.Prelude.{◌≡◌, ◌<◌, ◌≤◌, ◌*◌, ◌↔◌, ◌⊎◌, ℕ, length, IfOk, IfSome, IsTrue, Some, OnOk, true, ◌^◌};
ghost use Rattle.std.specs.Int.{bit_at};
ghost use Rattle.fabric_model.specs.declared.node.EndPort.TheVariants as kind;
ghost use Rattle.fabric_model.specs.Fabric.{FabricOf, IsFabric, switch_count};
ghost use Rattle.fabric_lane_tables.specs.InUse.{AddsLevels, AreLevelsGiven, AreLevelsInUse, AreLidsOf, AreUsedRows, HasRoom, HasRoomFor, HasSameRoom};
ghost use Rattle.fabric_lane_tables.specs.InUse.{IsAskedTo, IsLevelInUse, IsLevelOfPair, IsUsedBelow, IsUsedTo, levels_in_use, used_or};
ghost use Rattle.fabric_lane_tables.specs.Levels.{levels_of};
ghost use Rattle.fabric_lane_tables.specs.PathLevels.{IsPlaced, told_levels};

use crate::lanes::LEVELS;
use crate::levels::{LevelRows, Levels};
use common_values::memory::OutOfMemory;
use fabric_model::fabric::Fabric;
use fabric_model::node::EndPort;
use std::alloc::Global;

/// The service levels of a call.
#[derive(Drop)]
pub struct UsedLevels {
    /// Those that are given.
    pub given: Levels,
    /// Those in use, with replies; none if they are those that are given.
    pub replied: Option<Levels>,
}

impl UsedLevels {
    /// Those in use.
    pub fn levels(&self) -> &Levels
        ensures { levels_of result.now ≡ levels_in_use self.now }
    {
        match &self.replied {
            Some(used) => used,
            None => &self.given,
        }
    }
}

// Whether an owner is this end port.
fn is_owner(owner: Option<EndPort>, source: EndPort) -> bool
    ensures { IsTrue result ↔ (owner ≡ Some source) }
{
    match (owner, source) {
        (Some(EndPort::Host(one)), EndPort::Host(other)) => one == other,
        (Some(EndPort::Switch(one)), EndPort::Switch(other)) => one == other,
        _ => false,
    }
}

// The LIDs of an end port.
fn lids_of(alloc: Global, fabric: &Fabric, source: EndPort) -> Result<Vec<usize>, OutOfMemory>
    ensures { IfOk result (λ lids. AreLidsOf fabric.now source lids.items) }
{
    let mut lids = Vec::new(alloc);
    'lids: for lid in 0..fabric.lids() {
        if is_owner(fabric.owner(lid), source) {
            lids.push(lid)?;
        }
    }
    Ok(lids)
}

// The levels with which an end port sends to some LIDs.
fn asked_to(given: &Levels, owner: EndPort, lids: &[usize]) -> u16
    ensures { (level : ℕ) → level < 16
        → ((bit_at result level ≡ 1) ↔ IsAskedTo (levels_of given.now) owner lids.now level) }
{
    let mut levels = 0u16;
    'lids: for lid in lids {
        levels = levels | given.levels(owner, *lid);
    }
    levels
}

// The levels with which an end port, of which these are the LIDs, sends to a LID, those of replies among them.
fn used_at(fabric: &Fabric, given: &Levels, source: EndPort, lids: &[usize], lid: usize) -> u16
    requires { AreLidsOf fabric.now source lids.now }
    ensures { (level : ℕ) → level < 16
        → ((bit_at result level ≡ 1) ↔ IsLevelInUse fabric.now true (levels_of given.now) source lid level) }
{
    let asked = given.levels(source, lid);
    match fabric.owner(lid) {
        None => asked,
        Some(owner) => asked | asked_to(given, owner, lids),
    }
}

// Adds some levels of an end port and a LID.
fn add_levels(
    rows: &mut LevelRows,
    source: EndPort,
    lid: usize,
    levels: u16,
) -> Result<(), OutOfMemory>
    requires source { IsPlaced rows.old source }
    requires lid { lid < 64 * rows.old.blocks }
    ensures room { OnOk result (HasSameRoom rows.old rows.new) }
    ensures added { OnOk result (AddsLevels (told_levels rows.old) (told_levels rows.new)
        (IsLevelOfPair source lid levels)) }
{
    'levels: for level in 0..LEVELS {
        if levels >> level == 0 {
            return Ok(());
        }
        if levels >> level & 1 == 1 {
            rows.add(source, lid, level)?;
        }
    }
    Ok(())
}

// Adds the levels of an end port to each LID for which there is room.
fn add_source(
    alloc: Global,
    rows: &mut LevelRows,
    fabric: &Fabric,
    given: &Levels,
    source: EndPort,
) -> Result<(), OutOfMemory>
    requires { IsPlaced rows.old source }
    ensures room { OnOk result (HasSameRoom rows.old rows.new) }
    ensures added { OnOk result (AddsLevels (told_levels rows.old) (told_levels rows.new)
        (IsUsedTo fabric.now (levels_of given.now) source (64 * rows.old.blocks))) }
{
    let lids = lids_of(alloc, fabric, source)?;
    'lids: for lid in 0..rows.lids() {
        let levels = used_at(fabric, given, source, &lids, lid);
        add_levels(rows, source, lid, levels)?;
    }
    Ok(())
}

// Adds those of adapters and routers.
fn add_ends(
    alloc: Global,
    rows: &mut LevelRows,
    fabric: &Fabric,
    given: &Levels,
) -> Result<(), OutOfMemory>
    requires { rows.old.ends ≡ length fabric.now.cables }
    ensures room { OnOk result (HasSameRoom rows.old rows.new) }
    ensures added { OnOk result (AddsLevels (told_levels rows.old) (told_levels rows.new)
        (IsUsedBelow fabric.now (levels_of given.now) kind.Host (length fabric.now.cables) (64 * rows.old.blocks))) }
{
    'ends: for end in 0..fabric.ends() {
        add_source(alloc, rows, fabric, given, EndPort::Host(end as u32))?;
    }
    Ok(())
}

// Adds those of switches.
fn add_switches(
    alloc: Global,
    rows: &mut LevelRows,
    fabric: &Fabric,
    given: &Levels,
) -> Result<(), OutOfMemory>
    requires { rows.old.switches ≡ switch_count fabric.now }
    ensures room { OnOk result (HasSameRoom rows.old rows.new) }
    ensures added { OnOk result (AddsLevels (told_levels rows.old) (told_levels rows.new)
        (IsUsedBelow fabric.now (levels_of given.now) kind.Switch (switch_count fabric.now) (64 * rows.old.blocks))) }
{
    'switches: for switch in 0..fabric.switches() {
        add_source(alloc, rows, fabric, given, EndPort::Switch(switch as u32))?;
    }
    Ok(())
}

// The levels in use of each end port of the fabric to each LID below a number.
fn rows_of(
    alloc: Global,
    fabric: &Fabric,
    given: &Levels,
    lids: usize,
) -> Result<LevelRows, OutOfMemory>
    requires { lids ≤ 2 ^ 16 }
    ensures fabric { IfOk result (λ rows. IsFabric fabric.now) }
    ensures lids { IfOk result (λ rows. lids ≤ 64 * rows.blocks) }
    ensures rows { IfOk result (AreUsedRows fabric.now (levels_of given.now)) }
{
    let mut rows = LevelRows::new(alloc, fabric.ends(), fabric.switches(), lids)?;
    add_ends(alloc, &mut rows, fabric, given)?;
    add_switches(alloc, &mut rows, fabric, given)?;
    Ok(rows)
}

// The levels that are given with those of replies; none if these are the same.
fn with_replies(
    alloc: Global,
    fabric: &Fabric,
    given: &Levels,
) -> Result<Option<Levels>, OutOfMemory>
    requires { HasRoomFor fabric.now given.now }
    ensures { IfOk result (λ replied.
        AreLevelsInUse fabric.now true (levels_of given.now) (levels_of (used_or given.now replied))) }
{
    match given {
        Levels::Same(_) => Ok(None),
        Levels::Told(told) => {
            let rows = rows_of(alloc, fabric, given, told.lids())?;
            Ok(Some(Levels::Told(rows)))
        }
        Levels::Filled(told, silent) => {
            let rows = rows_of(alloc, fabric, given, told.lids())?;
            Ok(Some(Levels::Filled(rows, *silent)))
        }
    }
}

/// The levels that are given, by those that were told: a pair that was told none has the level of silent pairs, if there is
/// one.
pub fn given_by(told: LevelRows, silent: Option<u8>) -> Levels
    requires { IfSome silent (λ level. level < 16) }
    ensures given { AreLevelsGiven silent (told_levels told) (levels_of result) }
    ensures room { (fabric : FabricOf) → HasRoom fabric told → HasRoomFor fabric result }
{
    match silent {
        None => Levels::Told(told),
        Some(level) => Levels::Filled(told, level),
    }
}

/// The levels in use: those that are given and, if replies count, theirs. The error is out of memory.
pub fn in_use(
    alloc: Global,
    fabric: &Fabric,
    given: Levels,
    replies: bool,
) -> Result<UsedLevels, OutOfMemory>
    requires { HasRoomFor fabric.now given }
    ensures given { IfOk result (λ levels. levels.given ≡ given) }
    ensures used { IfOk result (λ levels.
        AreLevelsInUse fabric.now replies (levels_of given) (levels_in_use levels)) }
{
    if !replies {
        return Ok(UsedLevels {
            given,
            replied: None,
        });
    }
    let replied = with_replies(alloc, fabric, &given)?;
    Ok(UsedLevels { given, replied })
}
