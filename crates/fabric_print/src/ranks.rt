//! Ranks as text, and the answer to whether they fall.

ghost use Rattle.std.specs.Prelude.{◌≡◌, ◌++◌, IfOk, OnOk};
ghost use Rattle.common_lines.specs.Lines.{lines_text};
ghost use Rattle.fabric_print.specs.Ranks.{ranks_text, risen_rows, verified_text};

use crate::answer::LoopStep;
use crate::printer::push_judged;
use crate::row::RowWord::{Guid, Number, Text};
use crate::row::{HasRow, push_row, push_rows};
use common_values::memory::OutOfMemory;
use std::alloc::Global;

/// The rank of a channel.
#[derive(Clone, Copy)]
pub struct Rank {
    /// The GUID of its switch.
    pub guid: u64,
    /// The port out of which it leads.
    pub port: u8,
    /// Its rank.
    pub rank: u32,
}

/// A dependency along which ranks do not fall.
#[derive(Clone, Copy)]
pub struct Risen {
    /// The channel that depends, with the route that makes the dependency.
    pub step: LoopStep,
    /// The rank of this channel.
    pub own: Rank,
    /// The rank of the channel on which it depends.
    pub next: Rank,
}

/// The answer for ranks, a topology and tables.
#[derive(Clone, Copy)]
pub struct Verified {
    /// The word for the traffic that was judged.
    pub traffic: &'static str,
    /// The first dependency along which the ranks do not fall, or `None` if they fall along every dependency.
    pub rise: Option<Risen>,
}

/// Returns the text of `ranks`.
///
/// # Errors
/// `OutOfMemory`.
pub fn print_ranks(alloc: Global, ranks: &[Rank]) -> Result<Vec<u8>, OutOfMemory>
    ensures { IfOk result (λ text. text.items ≡ ranks_text ranks.now) }
{
    let mut text = Vec::new(alloc);
    match push_ranks(alloc, &mut text, ranks) {
        Ok(()) => Ok(text),
        Err(error) => Err(error),
    }
}

fn push_ranks(alloc: Global, text: &mut Vec<u8>, ranks: &[Rank]) -> Result<(), OutOfMemory>
    ensures { OnOk result (text.new.items ≡ text.old.items ++ ranks_text ranks.now) }
{
    push_row(alloc, text, Text(b"ranks"), &[Text(b"1")])?;
    push_rows(alloc, text, ranks)
}

impl HasRow for Rank {
    ghost use Rattle.fabric_print.specs.Ranks.{rank_row};

    ghost words = { rank_row };

    fn push(&self, alloc: Global, text: &mut Vec<u8>) -> Result<(), OutOfMemory> {
        push_row(
            alloc,
            text,
            Text(b"rank"),
            &[
                Guid(self.guid),
                Number(u64::from(self.port)),
                Number(u64::from(self.rank)),
            ],
        )
    }
}

/// Returns the text of `answer`.
///
/// # Errors
/// `OutOfMemory`.
pub fn print_verified(alloc: Global, answer: &Verified) -> Result<Vec<u8>, OutOfMemory>
    ensures { IfOk result (λ text. text.items ≡ verified_text answer.now.traffic.now answer.now.rise) }
{
    let mut text = Vec::new(alloc);
    match push_verified(alloc, &mut text, answer) {
        Ok(()) => Ok(text),
        Err(error) => Err(error),
    }
}

fn push_verified(alloc: Global, text: &mut Vec<u8>, answer: &Verified) -> Result<(), OutOfMemory>
    ensures { OnOk result
        (text.new.items ≡ text.old.items ++ verified_text answer.now.traffic.now answer.now.rise) }
{
    push_row(alloc, text, Text(b"fabric"), &[Text(b"1")])?;
    push_judged(alloc, text, answer.traffic.as_bytes())?;
    push_risen(alloc, text, answer.rise)
}

// Whether ranks fall, or the dependency along which they do not.
fn push_risen(alloc: Global, text: &mut Vec<u8>, rise: Option<Risen>) -> Result<(), OutOfMemory>
    ensures { OnOk result (text.new.items ≡ text.old.items ++ lines_text (risen_rows rise)) }
{
    let Some(rise) = rise else {
        return push_row(alloc, text, Text(b"ranks"), &[Text(b"fall")]);
    };
    push_row(alloc, text, Text(b"ranks"), &[Text(b"rise")])?;
    rise.step.push(alloc, text)?;
    rise.own.push(alloc, text)?;
    rise.next.push(alloc, text)
}
