//! The answer as a text.

ghost use Rattle.std.specs.Prelude.{◌≡◌, ◌++◌, IfOk, OnOk};
ghost use Rattle.common_lines.specs.Lines.{line_text, lines_text};
ghost use Rattle.fabric_between_command.specs.Lines.{between_row, between_text, by_word, loop_rows, looped_word};

use common_values::memory::OutOfMemory;
use fabric_mixtures::looped::Looped;
use fabric_mixtures::turn::By;
use fabric_print::answer::{Name, Read};
use fabric_print::printer::{push_channels, push_read, push_unset};
use fabric_print::row::RowWord::{Guid, Number, Text};
use fabric_print::row::{HasRow, push_row, push_rows};
use std::alloc::Global;

/// A channel of a cycle, and by what the next one may follow it.
#[derive(Clone, Copy)]
pub struct TurnTold {
    /// The GUID of the switch of the channel.
    pub guid: u64,
    /// The port of the channel.
    pub port: u8,
    /// The LID for which the next one may follow it.
    pub lid: u16,
    /// By which tables the channel is taken for this LID.
    pub by: By,
    /// By which the next one is.
    pub next_by: By,
}

/// What was read of the new tables.
#[derive(Clone, Copy)]
pub struct NewRows {
    /// Rows that name a port.
    pub rows: u64,
    /// Those of these rows that are for LIDs without an owner.
    pub unowned: u64,
    /// Rows that have not the same port in both tables.
    pub changed: u64,
}

/// The answer for a topology and two tables.
#[derive(Drop)]
pub struct Between {
    /// What was read of the topology and of the old tables.
    pub read: Read,
    /// What was read of the new ones.
    pub new: NewRows,
    /// How many channels the fabric has.
    pub channels: u64,
    /// How many pairs of channels may follow one another.
    pub dependencies: u64,
    /// Which of the two tables have a cycle by them alone, or none if they have none together.
    pub looped: Option<Looped>,
    /// The channels of the least cycle, or none if no cycle exists.
    pub cycle: Vec<TurnTold>,
    /// How many switches and end ports of the topology say that their base LID is 65535.
    pub unset: u64,
    /// The names of the nodes above.
    pub names: Vec<Name>,
}

/// The text of the answer for two tables.
pub fn print_between(alloc: Global, answer: &Between) -> Result<Vec<u8>, OutOfMemory>
    ensures { IfOk result (λ text. text.items ≡ between_text answer.now) }
{
    let mut text = Vec::new(alloc);
    match push_between(alloc, &mut text, answer) {
        Ok(()) => Ok(text),
        Err(error) => Err(error),
    }
}

fn push_between(alloc: Global, text: &mut Vec<u8>, answer: &Between) -> Result<(), OutOfMemory>
    ensures { OnOk result (text.new.items ≡ text.old.items ++ between_text answer.now) }
{
    push_row(alloc, text, Text(b"fabric"), &[Text(b"1")])?;
    push_read(alloc, text, answer.read)?;
    push_new(alloc, text, answer.new)?;
    push_channels(alloc, text, answer.channels, answer.dependencies)?;
    push_loop(alloc, text, answer.looped, &answer.cycle)?;
    push_unset(alloc, text, answer.unset)?;
    push_rows(alloc, text, &answer.names)
}

// What was read of the new tables.
fn push_new(alloc: Global, text: &mut Vec<u8>, new: NewRows) -> Result<(), OutOfMemory>
    ensures { OnOk result (text.new.items ≡ text.old.items ++ line_text (between_row new)) }
{
    push_row(
        alloc,
        text,
        Text(b"between"),
        &[
            Text(b"rows"),
            Number(new.rows),
            Text(b"unowned"),
            Number(new.unowned),
            Text(b"changed"),
            Number(new.changed),
        ],
    )
}

// The cycle, if there is one: how many channels it has, which tables have one by them alone, and its channels.
fn push_loop(
    alloc: Global,
    text: &mut Vec<u8>,
    looped: Option<Looped>,
    cycle: &[TurnTold],
) -> Result<(), OutOfMemory>
    ensures { OnOk result (text.new.items ≡ text.old.items ++ lines_text (loop_rows looped cycle.now)) }
{
    let Some(looped) = looped else {
        return push_row(alloc, text, Text(b"cycle"), &[Text(b"none")]);
    };
    push_row(alloc, text, Text(b"cycle"), &[Number(cycle.len() as u64)])?;
    push_row(
        alloc,
        text,
        Text(b"looped"),
        &[Text(looped_word(looped).as_bytes())],
    )?;
    push_rows(alloc, text, cycle)
}

fn looped_word(looped: Looped) -> &'static str
    ensures { result.now ≡ looped_word looped }
{
    match looped {
        Looped::Old => "old",
        Looped::New => "new",
        Looped::Both => "both",
        Looped::Mixture => "mixture",
    }
}

impl HasRow for TurnTold {
    ghost use Rattle.fabric_between_command.specs.Lines.{turn_row};

    ghost words = { turn_row };

    fn push(&self, alloc: Global, text: &mut Vec<u8>) -> Result<(), OutOfMemory> {
        push_row(
            alloc,
            text,
            Text(b"channel"),
            &[
                Guid(self.guid),
                Number(u64::from(self.port)),
                Text(b"lid"),
                Number(u64::from(self.lid)),
                Text(b"by"),
                Text(by_word(self.by).as_bytes()),
                Text(b"then"),
                Text(by_word(self.next_by).as_bytes()),
            ],
        )
    }
}

fn by_word(by: By) -> &'static str
    ensures { result.now ≡ by_word by }
{
    match by {
        By::Old => "old",
        By::New => "new",
        By::Both => "both",
    }
}
