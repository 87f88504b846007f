//! The names of the nodes in an output.

ghost use Rattle.std.specs.Prelude.{◌≡◌, ◌++◌, OnOk, IfOk, nat_eq, option_copied};
ghost use Rattle.indexmap.specs.IndexSet.{insert_key};
ghost use Rattle.fabric_judge_commands.specs.Names.{mentioned, told_name, names_for};

use common_values::memory::OutOfMemory;
use common_values::text::Word;
use fabric_print::answer::{LoopStep, Lost, Name};
use fabric_topology::names::names_of;
use indexmap::IndexSet;
use std::alloc::Global;

/// Returns the names that the topology `text` gives to the nodes of `steps` and `lost`, each once, in the order in
/// which they occur there.
///
/// # Errors
/// `OutOfMemory`.
pub fn names_in(
    alloc: Global,
    text: &[u8],
    steps: &[LoopStep],
    lost: &[Lost],
) -> Result<Vec<Name>, OutOfMemory>
    ensures { IfOk result (λ names. names.items ≡ names_for text.now (mentioned steps.now lost.now)) }
{
    let guids = guids_in(alloc, steps, lost)?;
    names_for(alloc, text, &guids)
}

/// Returns the names that the topology `text` gives to the nodes with these GUIDs, in the order of `guids`.
///
/// # Errors
/// `OutOfMemory`.
pub fn names_for(
    alloc: Global,
    text: &[u8],
    guids: &IndexSet<u64>,
) -> Result<Vec<Name>, OutOfMemory>
    ensures { IfOk result (λ names. names.items ≡ names_for text.now guids.now.keys) }
{
    let told = names_of(alloc, text, guids)?;
    let mut names = Vec::new(alloc);
    'guids: for guid in guids.as_slice() {
        push_name(alloc, &mut names, *guid, told.get(guid))?;
    }
    Ok(names)
}

// Appends the name of a node, if it has one.
fn push_name(
    alloc: Global,
    names: &mut Vec<Name>,
    guid: u64,
    name: Option<&Word>,
) -> Result<(), OutOfMemory>
    ensures { OnOk result (names.new.items ≡ names.old.items ++ told_name guid (option_copied name.entry)) }
{
    let Some(name) = name else {
        return Ok(());
    };
    let text = Word::of(alloc, name.as_bytes())?;
    names.push(Name { guid, text })?;
    Ok(())
}

// The nodes of steps and of lost routes.
fn guids_in(alloc: Global, steps: &[LoopStep], lost: &[Lost]) -> Result<IndexSet<u64>, OutOfMemory>
    ensures { IfOk result (λ guids. guids.keys ≡ mentioned steps.now lost.now) }
{
    let mut guids = IndexSet::new(alloc);
    'steps: for step in steps {
        insert_two(&mut guids, step.guid, step.source)?;
    }
    'lost: for route in lost {
        insert_two(&mut guids, route.source, route.at)?;
    }
    Ok(guids)
}

/// Adds `one` and `other` to `guids`, each unless it is there already.
///
/// # Errors
/// `OutOfMemory`.
pub fn insert_two(guids: &mut IndexSet<u64>, one: u64, other: u64) -> Result<(), OutOfMemory>
    ensures { OnOk result (guids.new.keys ≡ insert_key nat_eq (insert_key nat_eq guids.old.keys one) other) }
{
    guids.insert(one)?;
    guids.insert(other)?;
    Ok(())
}
