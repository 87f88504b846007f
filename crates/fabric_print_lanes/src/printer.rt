//! The printer of answers for tables with lanes.

ghost use Rattle.std.specs.Prelude.{◌≡◌, ◌++◌, map, OnOk, IfOk};
ghost use Rattle.common_lines.specs.Lines.{line_text, lines_text};
ghost use Rattle.fabric_print.specs.RowWords.{word_text};
ghost use Rattle.fabric_print_lanes.specs.LaneAnswers.{asked_words, lane_answer_text, lane_judged_row, lane_losses_row, lane_lost_rows, levels_word, loss_word, mute_rows, note_rows, silent_rows};

use crate::answer::{
    Asked, LaneAnswer, LaneLosses, LaneLost, LaneStep, LevelsAsked, LossCause, Mute,
};
use common_values::memory::OutOfMemory;
use fabric_print::printer::{push_channels, push_cycle, push_read, push_routes, push_unset};
use fabric_print::row::RowWord::{Guid, Number, Text};
use fabric_print::row::{HasRow, RowWord, push_row, push_rows};
use std::alloc::Global;

/// The text of an answer.
pub fn print(alloc: Global, answer: &LaneAnswer) -> Result<Vec<u8>, OutOfMemory>
    ensures { IfOk result (λ text. text.items ≡ lane_answer_text answer.now) }
{
    let mut text = Vec::new(alloc);
    match push_answer(alloc, &mut text, answer) {
        Ok(()) => Ok(text),
        Err(error) => Err(error),
    }
}

fn push_answer(alloc: Global, text: &mut Vec<u8>, answer: &LaneAnswer) -> Result<(), OutOfMemory>
    ensures { OnOk result (text.new.items ≡ text.old.items ++ lane_answer_text answer.now) }
{
    push_row(alloc, text, Text(b"fabric"), &[Text(b"1")])?;
    push_read(alloc, text, answer.read)?;
    push_judged(
        alloc,
        text,
        answer.traffic.as_bytes(),
        answer.lanes,
        answer.asked,
    )?;
    push_routes(alloc, text, answer.routes)?;
    push_silent(alloc, text, answer.silent)?;
    push_mute(alloc, text, answer.mute)?;
    push_channels(alloc, text, answer.channels, answer.dependencies)?;
    push_cycle(alloc, text, &answer.cycle)?;
    push_note(alloc, text, answer.asked.levels, &answer.cycle)?;
    push_lost(alloc, text, answer.losses, &answer.lost)?;
    push_unset(alloc, text, answer.unset)?;
    push_rows(alloc, text, &answer.names)
}

// The words that say which traffic was judged, on how many lanes, and with which levels.
pub(crate) fn asked_words<'a>(
    alloc: Global,
    traffic: &'a [u8],
    lanes: u64,
    asked: Asked,
) -> Result<Vec<RowWord<'a>>, OutOfMemory>
    ensures { IfOk result (λ words. map word_text words.items ≡ asked_words traffic.now lanes asked) }
{
    let on = Text(b"lanes");
    let with = Text(b"levels");
    let levels = levels_word(asked.levels);
    let mut words = vec![in alloc; Text(traffic), on, Number(lanes), with, levels]?;
    if !asked.replies {
        words.push(Text(b"replies no"))?;
    }
    if let Some(level) = asked.silent {
        words.push(Text(b"silent"))?;
        words.push(Number(u64::from(level)))?;
    }
    Ok(words)
}

fn push_judged(
    alloc: Global,
    text: &mut Vec<u8>,
    traffic: &[u8],
    lanes: u64,
    asked: Asked,
) -> Result<(), OutOfMemory>
    ensures { OnOk result
        (text.new.items ≡ text.old.items ++ line_text (lane_judged_row traffic.now lanes asked)) }
{
    let mut words = vec![in alloc; Text(b"traffic")]?;
    words.extend_from_slice(&asked_words(alloc, traffic, lanes, asked)?)?;
    push_row(alloc, text, Text(b"judged"), &words)
}

pub(crate) fn levels_word(levels: LevelsAsked) -> RowWord<'static>
    ensures { word_text result ≡ levels_word levels }
{
    match levels {
        LevelsAsked::File => Text(b"file"),
        LevelsAsked::Same(level) => Number(u64::from(level)),
        LevelsAsked::Any => Text(b"any"),
    }
}

// How many pairs have no level, if any have none.
fn push_silent(alloc: Global, text: &mut Vec<u8>, silent: u64) -> Result<(), OutOfMemory>
    ensures { OnOk result (text.new.items ≡ text.old.items ++ lines_text (silent_rows silent)) }
{
    if silent == 0 {
        return Ok(());
    }
    push_row(alloc, text, Text(b"silent"), &[Number(silent)])
}

// The first pair that has none.
fn push_mute(alloc: Global, text: &mut Vec<u8>, mute: Option<Mute>) -> Result<(), OutOfMemory>
    ensures { OnOk result (text.new.items ≡ text.old.items ++ lines_text (mute_rows mute)) }
{
    match mute {
        None => Ok(()),
        Some(pair) => push_row(
            alloc,
            text,
            Text(b"mute"),
            &[
                Text(b"lid"),
                Number(u64::from(pair.lid)),
                Text(b"from"),
                Guid(pair.source),
            ],
        ),
    }
}

// What a cycle says of the levels in use, if all sixteen were judged.
fn push_note(
    alloc: Global,
    text: &mut Vec<u8>,
    levels: LevelsAsked,
    cycle: &[LaneStep],
) -> Result<(), OutOfMemory>
    ensures { OnOk result (text.new.items ≡ text.old.items ++ lines_text (note_rows levels cycle.now)) }
{
    match (levels, cycle) {
        (LevelsAsked::Any, [_first, ..]) => push_row(
            alloc,
            text,
            Text(b"note"),
            &[Text(b"the levels in use need not close it")],
        ),
        _ => Ok(()),
    }
}

// The routes that are lost, if any are.
fn push_lost(
    alloc: Global,
    text: &mut Vec<u8>,
    losses: LaneLosses,
    lost: &[LaneLost],
) -> Result<(), OutOfMemory>
    ensures { OnOk result (text.new.items ≡ text.old.items ++ lines_text (lane_lost_rows losses lost.now)) }
{
    if losses.all == 0 {
        return Ok(());
    }
    push_losses(alloc, text, losses)?;
    push_rows(alloc, text, lost)
}

fn push_losses(alloc: Global, text: &mut Vec<u8>, losses: LaneLosses) -> Result<(), OutOfMemory>
    ensures { OnOk result (text.new.items ≡ text.old.items ++ line_text (lane_losses_row losses)) }
{
    push_row(
        alloc,
        text,
        Text(b"lost"),
        &[
            Number(losses.all),
            Text(b"missing"),
            Number(losses.missing),
            Text(b"dead"),
            Number(losses.dead),
            Text(b"wrong"),
            Number(losses.wrong),
            Text(b"discard"),
            Number(losses.discard),
            Text(b"loop"),
            Number(losses.looping),
        ],
    )
}

impl HasRow for LaneLost {
    ghost use Rattle.fabric_print_lanes.specs.LaneAnswers.{lane_lost_row};

    ghost words = { lane_lost_row };

    fn push(&self, alloc: Global, text: &mut Vec<u8>) -> Result<(), OutOfMemory> {
        push_row(
            alloc,
            text,
            Text(loss_word(self.cause).as_bytes()),
            &[
                Text(b"lid"),
                Number(u64::from(self.lid)),
                Text(b"from"),
                Guid(self.source),
                Text(b"level"),
                Number(u64::from(self.level)),
                Text(b"at"),
                Guid(self.at),
            ],
        )
    }
}

fn loss_word(cause: LossCause) -> &'static str
    ensures { result.now ≡ loss_word cause }
{
    match cause {
        LossCause::Missing => "missing",
        LossCause::Dead => "dead",
        LossCause::Wrong => "wrong",
        LossCause::Discard => "discard",
        LossCause::Loop => "loop",
    }
}

impl HasRow for LaneStep {
    ghost use Rattle.fabric_print_lanes.specs.LaneAnswers.{lane_channel_row};

    ghost words = { lane_channel_row };

    fn push(&self, alloc: Global, text: &mut Vec<u8>) -> Result<(), OutOfMemory> {
        push_row(
            alloc,
            text,
            Text(b"channel"),
            &[
                Guid(self.step.guid),
                Number(u64::from(self.step.port)),
                Text(b"lane"),
                Number(u64::from(self.lane)),
                Text(b"lid"),
                Number(u64::from(self.step.lid)),
                Text(b"from"),
                Guid(self.step.source),
                Text(b"level"),
                Number(u64::from(self.level)),
            ],
        )
    }
}
