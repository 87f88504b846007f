//! Ranks, and lowest numbers of steps to a goal. Each round assigns them to the spots that the last round made due.

ghost use Rattle.std.specs.Prelude.{◌≡◌, ◌<◌, ◌↔◌, ◌++◌, ℕ, List, Option, [], ◌∷◌, length, None, IsTrue};
ghost use Rattle.std.specs.Prelude.{Contains, IfOk, OnOk, MatchBool};
ghost use Rattle.dep_check.specs.declared.channel.Channel.{Channel};
ghost use Rattle.dep_check.specs.Tables.{IsSpot, level_at};
ghost use Rattle.dep_check.specs.Search.{AreNearest, AreRanked, ComesIn, HasNext, HasNextBy, IsDue, IsHeld, Step};
ghost use Rattle.dep_check.specs.Rounds.{AddsDue, AreDue, AreGoals, AreLevels, AreLevelsBelow, IsRaisedTo};
ghost use Rattle.dep_check.specs.Rounds.{LeadsToOne};

use crate::channel::Channel;
use crate::spot::{SPOTS, place_of, spot_at};
use crate::steps::Steps;
use an_base::port_set::{lowest, without};
use common_values::memory::OutOfMemory;
use std::alloc::Global;

/// The rule for when a spot without a level gets one.
#[derive(Clone, Copy)]
pub enum Rule {
    /// Some step from it leads to a spot with a level. The goal has the level 0.
    Nearest {
        /// The goal.
        goal: Channel,
    },
    /// It is a channel, and all steps from it lead to spots with levels.
    Rank,
}

/// Returns the level of `spot`, if it has one.
pub fn level_of(levels: &[Option<u16>], spot: Channel) -> Option<u16>
    requires { IsSpot spot }
    ensures { result ≡ level_at levels.now spot }
{
    levels.get(place_of(spot)).copied().flatten()
}

// Whether the step by an exit leads to a spot that has a level, or to one that has none.
fn has_next_by(steps: &Steps, levels: &[Option<u16>], spot: Channel, exit: u8, has: bool) -> bool
    requires spot { IsSpot spot }
    requires exit { exit < 13 }
    ensures { IsTrue result ↔ HasNextBy steps.now levels.now spot has exit }
{
    match steps.next(spot, exit) {
        Some(next) => level_of(levels, next).is_some() == has,
        None => false,
    }
}

// Whether some step from a spot leads to one that has a level, or to one that has none.
fn has_next(steps: &Steps, levels: &[Option<u16>], spot: Channel, has: bool) -> bool
    requires { IsSpot spot }
    ensures { IsTrue result ↔ HasNext steps.now levels.now spot has }
{
    let mut left = steps.exits_from(spot);
    'exits: while left > 0 {
        let exit = lowest(left);
        left = without(left, exit);
        if has_next_by(steps, levels, spot, exit, has) {
            return true;
        }
    }
    false
}

// Whether a spot without a level gets the next one.
fn is_due(rule: Rule, steps: &Steps, levels: &[Option<u16>], spot: Channel) -> bool
    requires { IsSpot spot }
    ensures { MatchBool result (IsDue rule steps.now levels.now spot)
        (IsHeld rule steps.now levels.now spot) }
{
    match rule {
        Rule::Nearest { .. } => has_next(steps, levels, spot, true),
        Rule::Rank => {
            if steps.far(spot).is_none() {
                return false;
            }
            !has_next(steps, levels, spot, false)
        }
    }
}

// Adds a spot, if it gets a level next.
fn add_due(
    rule: Rule,
    steps: &Steps,
    levels: &[Option<u16>],
    due: &mut Vec<Channel>,
    spot: Channel,
) -> Result<(), OutOfMemory>
    requires { IsSpot spot }
    ensures { OnOk result (AddsDue rule steps.now levels.now (λ s. s ≡ spot) due.old.items due.new.items) }
{
    if level_of(levels, spot).is_some() {
        return Ok(());
    }
    if !is_due(rule, steps, levels, spot) {
        return Ok(());
    }
    due.push(spot)?;
    Ok(())
}

// Adds the channel that leads to this one by what comes in at an entry, if it gets a level next.
fn add_before(
    rule: Rule,
    steps: &Steps,
    levels: &[Option<u16>],
    due: &mut Vec<Channel>,
    spot: Channel,
    entry: u8,
) -> Result<(), OutOfMemory>
    requires channels { steps.now.to ≡ None }
    requires spot { IsSpot spot }
    requires entry { entry < 13 }
    ensures { OnOk result (AddsDue rule steps.now levels.now (λ s. ComesIn steps.now s spot entry)
        due.old.items due.new.items) }
{
    let Some(before) = steps.before(spot, entry) else {
        return Ok(());
    };
    add_due(rule, steps, levels, due, before)
}

// Adds those channels that lead to this one and get a level next.
fn add_all_before(
    rule: Rule,
    steps: &Steps,
    levels: &[Option<u16>],
    due: &mut Vec<Channel>,
    spot: Channel,
) -> Result<(), OutOfMemory>
    requires channels { steps.now.to ≡ None }
    requires spot { IsSpot spot }
    ensures { OnOk result (AddsDue rule steps.now levels.now (λ s. Step steps.now s spot)
        due.old.items due.new.items) }
{
    'entries: for entry in 0..13u8 {
        add_before(rule, steps, levels, due, spot, entry)?;
    }
    Ok(())
}

// The channels that get a level next, once or more, of those that lead to one of the last.
fn due_before(
    alloc: Global,
    rule: Rule,
    steps: &Steps,
    levels: &[Option<u16>],
    last: &[Channel],
) -> Result<Vec<Channel>, OutOfMemory>
    requires channels { steps.now.to ≡ None }
    requires spots { (s : Channel) → Contains last.now s → IsSpot s }
    ensures { IfOk result (λ due. AddsDue rule steps.now levels.now
        (LeadsToOne steps.now last.now) [] due.items) }
{
    let mut due = Vec::new(alloc);
    'last: for spot in last {
        add_all_before(rule, steps, levels, &mut due, *spot)?;
    }
    Ok(due)
}

// The spots that get a level next.
fn all_due(
    alloc: Global,
    rule: Rule,
    steps: &Steps,
    levels: &[Option<u16>],
) -> Result<Vec<Channel>, OutOfMemory>
    ensures { IfOk result (λ due. AreDue rule steps.now levels.now due.items) }
{
    let mut due = Vec::new(alloc);
    'spots: for place in 0..SPOTS {
        add_due(rule, steps, levels, &mut due, spot_at(place))?;
    }
    Ok(due)
}

// Gives this level to a spot that has none, and adds it to those that were raised.
fn raise_one(
    levels: &mut Vec<Option<u16>>,
    raised: &mut Vec<Channel>,
    spot: Channel,
    level: u16,
) -> Result<(), OutOfMemory>
    requires count { length levels.old.items ≡ 1651 }
    requires spot { IsSpot spot }
    ensures { OnOk result ((had : List (Option ℕ)) (due : List Channel)
        → IsRaisedTo level had due levels.old.items raised.old.items
        → IsRaisedTo level had (due ++ spot ∷ []) levels.new.items raised.new.items) }
{
    let place = place_of(spot);
    if levels[place].is_some() {
        return Ok(());
    }
    levels[place] = Some(level);
    raised.push(spot)?;
    Ok(())
}

// Gives this level to those of the spots that have none, and answers them, each once.
fn raise(
    alloc: Global,
    levels: &mut Vec<Option<u16>>,
    due: &[Channel],
    level: u16,
) -> Result<Vec<Channel>, OutOfMemory>
    requires count { length levels.old.items ≡ 1651 }
    requires spots { (s : Channel) → Contains due.now s → IsSpot s }
    ensures { IfOk result (λ raised. IsRaisedTo level levels.old.items due.now
        levels.new.items raised.items) }
{
    let mut raised = Vec::new(alloc);
    'due: for spot in due {
        raise_one(levels, &mut raised, *spot, level)?;
    }
    Ok(raised)
}

fn no_levels(alloc: Global) -> Result<Vec<Option<u16>>, OutOfMemory>
    ensures none { IfOk result (λ levels. (s : Channel) → level_at levels.items s ≡ None) }
    ensures count { IfOk result (λ levels. length levels.items ≡ 1651) }
{
    let mut levels = Vec::with_capacity(alloc, usize::from(SPOTS))?;
    'spots: for _ in 0..SPOTS {
        levels.push(None)?;
    }
    Ok(levels)
}

// Gives levels to the spots that are due, to those that are due next, and so on until none is.
fn all_levels(
    alloc: Global,
    rule: Rule,
    steps: &Steps,
    levels: Vec<Option<u16>>,
    due: Vec<Channel>,
    first: u16,
) -> Result<Vec<Option<u16>>, OutOfMemory>
    requires channels { steps.now.to ≡ None }
    requires count { length levels.items ≡ 1651 }
    requires below { AreLevelsBelow rule steps.now first levels.items }
    requires due { AreDue rule steps.now levels.items due.items }
    ensures { IfOk result (λ levels. AreLevels rule steps.now levels.items) }
{
    let mut levels = levels;
    let mut due = due;
    'rounds: for round in first..SPOTS + 1 {
        let raised = raise(alloc, &mut levels, &due, round)?;
        if raised.as_slice().is_empty() {
            return Ok(levels);
        }
        due = due_before(alloc, rule, steps, &levels, &raised)?;
    }
    unreachable!()
}

/// Returns the ranks of channels. The caller must pass the steps of channels.
///
/// A rank is 0 if the channel leads nowhere, otherwise one more than the highest rank that it leads to.
/// Channels that lead for ever to others without a rank have none. By design, not proved, it visits each
/// step a few times.
///
/// # Errors
/// `OutOfMemory` if an allocation fails.
pub fn ranks_of(alloc: Global, steps: &Steps) -> Result<Vec<Option<u16>>, OutOfMemory>
    requires { steps.now.to ≡ None }
    ensures { IfOk result (λ levels. AreRanked steps.now levels.items) }
{
    let levels = no_levels(alloc)?;
    let due = all_due(alloc, Rule::Rank, steps, &levels)?;
    all_levels(alloc, Rule::Rank, steps, levels, due, 0)
}

// The level 0 at one spot, and no other level.
fn goal_level(alloc: Global, goal: Channel) -> Result<Vec<Option<u16>>, OutOfMemory>
    requires { IsSpot goal }
    ensures { IfOk result (λ levels. AreGoals (λ s. s ≡ goal) levels.items) }
{
    let mut levels = no_levels(alloc)?;
    levels[place_of(goal)] = Some(0);
    Ok(levels)
}

/// Returns the lowest number of steps from each channel to `goal`. The caller must pass the steps of channels.
///
/// By design, not proved, it visits each step a few times.
///
/// # Errors
/// `OutOfMemory` if an allocation fails.
pub fn nearest_to(
    alloc: Global,
    steps: &Steps,
    goal: Channel,
) -> Result<Vec<Option<u16>>, OutOfMemory>
    requires channels { steps.now.to ≡ None }
    requires goal { IsSpot goal }
    ensures { IfOk result (λ levels. AreNearest steps.now (λ s. s ≡ goal) levels.items) }
{
    let rule = Rule::Nearest { goal };
    let levels = goal_level(alloc, goal)?;
    let due = due_before(alloc, rule, steps, &levels, &[goal])?;
    all_levels(alloc, rule, steps, levels, due, 1)
}
