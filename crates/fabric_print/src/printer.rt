//! The printer of answers.

ghost use Rattle.std.specs.Prelude.{◌≡◌, ◌++◌, OnOk, IfOk};
ghost use Rattle.common_lines.specs.Lines.{line_text, lines_text};
ghost use Rattle.fabric_print.specs.Answers.{answer_text, read_row, routes_row, channels_row, cycle_rows_by, cycle_word, judged_row, losses_row, lost_rows, unset_rows, cause_word};
ghost use Rattle.fabric_print.specs.RowWords.{word_text};

use crate::answer::{Answer, LoopStep, Lost, LostCounts, Name, Read, Routes, WhyLost};
use crate::row::RowWord::{Guid, Number, Text};
use crate::row::{HasRow, RowWord, push_row, push_rows};
use common_values::memory::OutOfMemory;
use std::alloc::Global;

/// Returns the text of `answer`.
///
/// # Errors
/// `OutOfMemory`.
pub fn print(alloc: Global, answer: &Answer) -> Result<Vec<u8>, OutOfMemory>
    ensures { IfOk result (λ text. text.items ≡ answer_text answer.now) }
{
    let mut text = Vec::new(alloc);
    match push_answer(alloc, &mut text, answer) {
        Ok(()) => Ok(text),
        Err(error) => Err(error),
    }
}

fn push_answer(alloc: Global, text: &mut Vec<u8>, answer: &Answer) -> Result<(), OutOfMemory>
    ensures { OnOk result (text.new.items ≡ text.old.items ++ answer_text answer.now) }
{
    push_row(alloc, text, Text(b"fabric"), &[Text(b"1")])?;
    push_read(alloc, text, answer.read)?;
    push_judged(alloc, text, answer.traffic.as_bytes())?;
    push_routes(alloc, text, answer.routes)?;
    push_channels(alloc, text, answer.channels, answer.dependencies)?;
    push_cycle(alloc, text, &answer.cycle)?;
    push_lost(alloc, text, answer.losses, &answer.lost)?;
    push_unset(alloc, text, answer.unset)?;
    push_rows(alloc, text, &answer.names)
}

/// Appends the row of what was read.
///
/// # Errors
/// `OutOfMemory`.
pub fn push_read(alloc: Global, text: &mut Vec<u8>, read: Read) -> Result<(), OutOfMemory>
    ensures { OnOk result (text.new.items ≡ text.old.items ++ line_text (read_row read)) }
{
    push_row(
        alloc,
        text,
        Text(b"read"),
        &[
            Text(b"switches"),
            Number(read.switches),
            Text(b"ends"),
            Number(read.ends),
            Text(b"links"),
            Number(read.links),
            Text(b"rows"),
            Number(read.rows),
            Text(b"unowned"),
            Number(read.unowned),
        ],
    )
}

// Which traffic was judged.
pub(crate) fn push_judged(
    alloc: Global,
    text: &mut Vec<u8>,
    traffic: &[u8],
) -> Result<(), OutOfMemory>
    ensures { OnOk result (text.new.items ≡ text.old.items ++ line_text (judged_row traffic.now)) }
{
    push_row(
        alloc,
        text,
        Text(b"judged"),
        &[
            Text(b"traffic"),
            Text(traffic),
            Text(b"lanes"),
            Text(b"one"),
        ],
    )
}

/// Appends the row of the routes.
///
/// # Errors
/// `OutOfMemory`.
pub fn push_routes(alloc: Global, text: &mut Vec<u8>, of: Routes) -> Result<(), OutOfMemory>
    ensures { OnOk result (text.new.items ≡ text.old.items ++ line_text (routes_row of)) }
{
    let routes = Number(of.routes);
    let arrived = Number(of.arrived);
    let hops = Number(of.hops);
    match of.unowned {
        None => push_row(
            alloc,
            text,
            Text(b"routes"),
            &[routes, Text(b"arrived"), arrived, Text(b"hops"), hops],
        ),
        Some(unowned) => push_row(
            alloc,
            text,
            Text(b"routes"),
            &[
                routes,
                Text(b"arrived"),
                arrived,
                Text(b"hops"),
                hops,
                Text(b"unowned"),
                Number(unowned),
            ],
        ),
    }
}

/// Appends the row of the numbers of channels and dependencies.
///
/// # Errors
/// `OutOfMemory`.
pub fn push_channels(
    alloc: Global,
    text: &mut Vec<u8>,
    channels: u64,
    dependencies: u64,
) -> Result<(), OutOfMemory>
    ensures { OnOk result
        (text.new.items ≡ text.old.items ++ line_text (channels_row channels dependencies)) }
{
    push_row(
        alloc,
        text,
        Text(b"channels"),
        &[
            Number(channels),
            Text(b"dependencies"),
            Number(dependencies),
        ],
    )
}

/// Appends the rows of a cycle with these channels; without channels there is none.
///
/// # Errors
/// `OutOfMemory`.
pub fn push_cycle<T: HasRow>(
    alloc: Global,
    text: &mut Vec<u8>,
    cycle: &[T],
) -> Result<(), OutOfMemory>
    ensures { OnOk result (text.new.items ≡ text.old.items ++ lines_text (cycle_rows_by T.words cycle.now)) }
{
    push_row(alloc, text, Text(b"cycle"), &[cycle_word(cycle.len())])?;
    push_rows(alloc, text, cycle)
}

fn cycle_word(many: usize) -> RowWord<'static>
    ensures { word_text result ≡ cycle_word many }
{
    if many == 0 {
        Text(b"none")
    } else {
        Number(many as u64)
    }
}

impl HasRow for LoopStep {
    ghost use Rattle.fabric_print.specs.Answers.{channel_row};

    ghost words = { channel_row };

    fn push(&self, alloc: Global, text: &mut Vec<u8>) -> Result<(), OutOfMemory> {
        push_row(
            alloc,
            text,
            Text(b"channel"),
            &[
                Guid(self.guid),
                Number(u64::from(self.port)),
                Text(b"lid"),
                Number(u64::from(self.lid)),
                Text(b"from"),
                Guid(self.source),
            ],
        )
    }
}

// The routes that are lost, if any are.
fn push_lost(
    alloc: Global,
    text: &mut Vec<u8>,
    losses: LostCounts,
    lost: &[Lost],
) -> Result<(), OutOfMemory>
    ensures { OnOk result (text.new.items ≡ text.old.items ++ lines_text (lost_rows losses lost.now)) }
{
    if losses.all == 0 {
        return Ok(());
    }
    push_losses(alloc, text, losses)?;
    push_rows(alloc, text, lost)
}

fn push_losses(alloc: Global, text: &mut Vec<u8>, losses: LostCounts) -> Result<(), OutOfMemory>
    ensures { OnOk result (text.new.items ≡ text.old.items ++ line_text (losses_row losses)) }
{
    push_row(
        alloc,
        text,
        Text(b"lost"),
        &[
            Number(losses.all),
            Text(b"missing"),
            Number(losses.missing),
            Text(b"dead"),
            Number(losses.dead),
            Text(b"wrong"),
            Number(losses.wrong),
            Text(b"loop"),
            Number(losses.looping),
        ],
    )
}

impl HasRow for Lost {
    ghost use Rattle.fabric_print.specs.Answers.{lost_row};

    ghost words = { lost_row };

    fn push(&self, alloc: Global, text: &mut Vec<u8>) -> Result<(), OutOfMemory> {
        push_row(
            alloc,
            text,
            Text(cause_word(self.cause).as_bytes()),
            &[
                Text(b"lid"),
                Number(u64::from(self.lid)),
                Text(b"from"),
                Guid(self.source),
                Text(b"at"),
                Guid(self.at),
            ],
        )
    }
}

fn cause_word(cause: WhyLost) -> &'static str
    ensures { result.now ≡ cause_word cause }
{
    match cause {
        WhyLost::Missing => "missing",
        WhyLost::Dead => "dead",
        WhyLost::Wrong => "wrong",
        WhyLost::Loop => "loop",
    }
}

/// Appends the row of the ports whose base LID nobody has set, if there are any.
///
/// # Errors
/// `OutOfMemory`.
pub fn push_unset(alloc: Global, text: &mut Vec<u8>, unset: u64) -> Result<(), OutOfMemory>
    ensures { OnOk result (text.new.items ≡ text.old.items ++ lines_text (unset_rows unset)) }
{
    if unset == 0 {
        return Ok(());
    }
    push_row(alloc, text, Text(b"note"), &[Text(b"unset"), Number(unset)])
}

impl HasRow for Name {
    ghost use Rattle.fabric_print.specs.Answers.{name_row};

    ghost words = { name_row };

    fn push(&self, alloc: Global, text: &mut Vec<u8>) -> Result<(), OutOfMemory> {
        push_row(
            alloc,
            text,
            Text(b"name"),
            &[Guid(self.guid), Text(self.text.as_bytes())],
        )
    }
}
