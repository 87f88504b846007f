//! A question about tables is answered.

ghost use Rattle.std.specs.Prelude.{◌≡◌};
ghost use Rattle.fabric_call.specs.Answer.{streams};
ghost use Rattle.fabric_judge_call.specs.Questions.{IsAnswerToQuestion, IsVerifyAnswer, ranks_unread_as};

use crate::words::Question;
use common_call::input::{Unread, read_input};
use fabric_call::command::answer;
use fabric_call::status::{Status, finish};
use fabric_judge_commands::commands::{Judge, Ranks};
use fabric_judge_commands::dot::Dot;
use fabric_judge_commands::verify::Verify;
use fabric_model::traffic::Traffic;
use outside::sink::Sink;
use outside::source::Source;
use std::alloc::Global;

/// The most bytes of ranks.
pub const RANKS_LIMIT: usize = 1 << 28;

// The status of ranks that were not read.
fn ranks_unread(why: Unread) -> Status
    ensures { result ≡ ranks_unread_as why }
{
    match why {
        Unread::Fault => Status::ReadFault,
        Unread::TooLong { line } => Status::RanksTooLong { line },
        Unread::OutOfMemory => Status::OutOfMemory,
    }
}

// Answers `verify`.
fn answer_verify<T: Source, S: Source, R: Source, O: Sink, E: Sink>(
    alloc: Global,
    topology: &mut T,
    tables: &mut S,
    ranks: &mut R,
    out: &mut O,
    err: &mut E,
    traffic: Traffic,
) -> u8
    ensures { IsVerifyAnswer traffic (R.seen ranks.old) (R.seen ranks.new)
        (streams (T.seen topology.old) (S.seen tables.old) (O.seen out.old) (E.seen err.old))
        (streams (T.seen topology.new) (S.seen tables.new) (O.seen out.new) (E.seen err.new)) result }
{
    match read_input(alloc, ranks, RANKS_LIMIT) {
        Ok(ranks) => {
            let command = Verify { traffic, ranks };
            answer(&command, alloc, topology, tables, out, err)
        }
        Err(why) => finish(err, ranks_unread(why)),
    }
}

/// Answers a question about the tables of a topology, by the routes of a traffic. The sources are read to
/// their ends, for `Verify` that of ranks first; the other questions leave it alone. Out gains the verdict,
/// the ranks, a picture, or whether the ranks fall. The answer is the number of how the call ended, and its
/// line goes to err.
///
/// If a source is wrong, those that are read after it are left alone, and out gains nothing. Of ranks a
/// faulty line is told only after the topology and the tables were read.
pub fn answer_question<T: Source, S: Source, R: Source, O: Sink, E: Sink>(
    alloc: Global,
    topology: &mut T,
    tables: &mut S,
    ranks: &mut R,
    out: &mut O,
    err: &mut E,
    question: Question,
    traffic: Traffic,
) -> u8
    ensures { IsAnswerToQuestion question traffic (R.seen ranks.old) (R.seen ranks.new)
        (streams (T.seen topology.old) (S.seen tables.old) (O.seen out.old) (E.seen err.old))
        (streams (T.seen topology.new) (S.seen tables.new) (O.seen out.new) (E.seen err.new)) result }
{
    match question {
        Question::Judge => answer(&Judge { traffic }, alloc, topology, tables, out, err),
        Question::Ranks => answer(&Ranks { traffic }, alloc, topology, tables, out, err),
        Question::Verify => answer_verify(alloc, topology, tables, ranks, out, err, traffic),
        Question::Dot => answer(&Dot { traffic }, alloc, topology, tables, out, err),
    }
}
