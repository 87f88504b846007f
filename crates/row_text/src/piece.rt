//! Appends the names of switches and lives to a text.

ghost use Rattle.std.specs.Prelude.{◌≡◌, ◌==◌, ◌+◌, ◌<◌, ◌≤◌, ◌++◌, length, position, OnOk, IfOk, IfSome, vec_capacity, vec_len};
ghost use Rattle.row_text.specs.Names.{life_text, name_of, switch_name};

use an_base::entry::Entry;
use an_base::life::Life;
use common_values::text::push_decimal;
use net_graph::wiring::SwitchAt;
use net_names::names::Names;
use net_script::script::Script;
use std::alloc::{AllocError, Global};

/// Returns the index of the switch with identifier `uid`, if there is one.
pub fn place_of(switches: &[SwitchAt], uid: u64) -> Option<usize>
    ensures { result ≡ position (λ s. s.uid == uid) switches.now }
{
    switches.iter().position(|switch| switch.uid == uid)
}

// The name of the switch with this identifier.
fn switch_name<'a>(names: &'a Names, switches: &[SwitchAt], uid: u64) -> &'a [u8]
    ensures { result.now ≡ switch_name names.now switches.now uid }
{
    let Some(s) = place_of(switches, uid) else {
        return &[];
    };
    if s >= names.len() {
        return &[];
    }
    names.get(s)
}

/// Appends `bytes` to `text`, without allocating. The caller must have reserved the space.
pub fn push_bytes(text: &mut Vec<u8>, bytes: &[u8])
    requires { vec_len text.old + length bytes.now ≤ vec_capacity text.old }
    ensures text { text.new.items ≡ text.old.items ++ bytes.now }
    ensures len { vec_len text.new ≡ vec_len text.old + length bytes.now }
    ensures capacity { vec_capacity text.new ≡ vec_capacity text.old }
{
    'bytes: for byte in bytes {
        text.push_reserved(*byte);
    }
}

/// Appends `life` to `text`: the name of its switch, then a point and the boot if that is above 1.
///
/// # Errors
/// `AllocError` if an allocation fails; `text` is then unspecified.
pub fn push_life(
    alloc: Global,
    text: &mut Vec<u8>,
    script: &Script,
    life: Life,
) -> Result<(), AllocError>
    ensures { OnOk result (text.new.items ≡ text.old.items ++ life_text script.now life) }
{
    let switches = script.wiring().switches();
    text.extend_from_slice(switch_name(script.switch_names(), switches, life.uid))?;
    if life.boot != 1 {
        text.extend_from_slice(b".")?;
        push_decimal(alloc, text, u64::from(life.boot))?;
    }
    Ok(())
}

// Returns the index of `number` in `numbers`, if it is one of them.
fn place_in(numbers: &[u8], number: u8) -> Option<usize>
    ensures place { result ≡ position (λ other. other == number) numbers.now }
    ensures range { IfSome result (λ place. place < length numbers.now) }
{
    numbers.iter().position(|other| *other == number)
}

/// Appends the name of the member that has `number`, and nothing if no member has it.
///
/// The caller must pass one number for each entry, in the same order.
///
/// # Errors
/// `AllocError` if an allocation fails; `text` is then unspecified.
pub fn push_name(
    alloc: Global,
    text: &mut Vec<u8>,
    script: &Script,
    entries: &[Entry],
    numbers: &[u8],
    number: u8,
) -> Result<(), AllocError>
    requires { length numbers.now ≡ length entries.now }
    ensures { OnOk result (text.new.items ≡ text.old.items ++ name_of script.now entries.now numbers.now number) }
{
    let Some(place) = place_in(numbers, number) else {
        return Ok(());
    };
    let entry = &entries[place];
    push_life(alloc, text, script, entry.life)
}

/// Returns the printed form of `life`.
///
/// # Errors
/// `AllocError` if an allocation fails.
pub fn life_word(alloc: Global, script: &Script, life: Life) -> Result<Vec<u8>, AllocError>
    ensures { IfOk result (λ word. word.items ≡ life_text script.now life) }
{
    let mut word = Vec::new(alloc);
    push_life(alloc, &mut word, script, life)?;
    Ok(word)
}

/// What is needed to print the lives of a script's switches: the script, and an allocator.
#[derive(Clone, Copy, Drop)]
pub struct Lives<'a> {
    /// The allocator of the printed words.
    pub alloc: Global,
    /// The script that names the switches.
    pub script: &'a Script,
}

impl Lives<'_> {
    /// Returns the printed form of `life`.
    ///
    /// # Errors
    /// `AllocError` if an allocation fails.
    pub fn word(&self, life: Life) -> Result<Vec<u8>, AllocError>
        ensures { IfOk result (λ word. word.items ≡ life_text self.now.script.now life) }
    {
        life_word(self.alloc, self.script, life)
    }
}
