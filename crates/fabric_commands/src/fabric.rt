//! The call.

ghost use Rattle.std.specs.Prelude.{◌≡◌, ◌<◌, ℕ, IfSome, List, Some, slice_get, slice_index};
ghost use Rattle.fabric_call.specs.Answer.{streams};
ghost use Rattle.fabric_commands.specs.Call.{IsAnswerTo, more};
ghost use Rattle.fabric_lane_commands.specs.Asked.{HasLowLevels, IsAskedBy};

use common_values::text::Word;
use fabric_between_command::between::between;
use fabric_call::command::answer;
use fabric_call::status::{Status, finish};
use fabric_judge_call::question::answer_question;
use fabric_judge_call::words::{Call, Task, call_of};
use fabric_lane_commands::asked::asked_by;
use fabric_lane_commands::lanes::lanes;
use fabric_lane_commands::picture::draw_lanes;
use fabric_print_lanes::answer::{Asked, LevelsAsked};
use fabric_repair_commands::commands::{Repair, RepairedTables};
use fabric_route_command::route::route;
use outside::sink::Sink;
use outside::source::Source;
use std::alloc::Global;

// The levels for which the words of a call ask: the last one of four files names them. Of other calls they mean nothing.
fn asked_for(words: &[Word], call: Call) -> Asked
    requires { IfSome call.silent (λ level. level < 16) }
    ensures named { (word : List ℕ) → slice_get words.now (slice_index call.files 3) ≡ Some word
        → IsAskedBy word result.levels }
    ensures replies { result.replies ≡ call.replies }
    ensures silent { result.silent ≡ call.silent }
    ensures low { HasLowLevels result }
{
    let levels = match words.get(call.files[3]) {
        None => LevelsAsked::Any,
        Some(word) => asked_by(word),
    };
    Asked {
        levels,
        replies: call.replies,
        silent: call.silent,
    }
}

/// Answers a call. Its words name a command and the sources that it reads to their ends, in this order:
///
/// - `judge` TOPOLOGY TABLES writes the verdict to out;
/// - `ranks` TOPOLOGY TABLES writes the ranks of the channels, or the verdict if there is a credit loop;
/// - `verify` TOPOLOGY TABLES RANKS writes whether the ranks fall, and reads RANKS first;
/// - `dot` TOPOLOGY TABLES writes a picture of the credit loop;
/// - `dot` TOPOLOGY TABLES SL2VL LEVELS writes one for tables with lanes;
/// - `route` TOPOLOGY writes tables, if some are found that pass;
/// - `repair` TOPOLOGY TABLES writes the rows that are to be set;
/// - `repaired` TOPOLOGY TABLES writes tables in which they are set;
/// - `lanes` TOPOLOGY TABLES SL2VL LEVELS writes the verdict for tables with lanes;
/// - `between` TOPOLOGY OLD NEW writes whether channels may lead round while NEW replaces OLD.
///
/// Options may stand among them, and a traffic may follow (`fabric_judge_call::words`). TABLES and OLD are read from the
/// second source, RANKS, SL2VL and NEW from the third, LEVELS from the fourth. If LEVELS are `any` or a number from
/// 0 to 15, the fourth is left alone. By `--replies no` a reply does not have the service level of its request; by
/// `--silent` a pair that has none gets one.
///
/// The answer is the number of how the call ended, and its line goes to err. If a source is wrong, those that
/// are read after it are left alone, and out gains nothing. Of RANKS a faulty line is told only after
/// TOPOLOGY and TABLES were read. For other words the sources and out are left alone.
pub fn fabric<T: Source, S: Source, R: Source, L: Source, O: Sink, E: Sink>(
    alloc: Global,
    topology: &mut T,
    tables: &mut S,
    third: &mut R,
    fourth: &mut L,
    out: &mut O,
    err: &mut E,
    words: &[Word],
) -> u8
    ensures { IsAnswerTo words.now (more (R.seen third.old) (L.seen fourth.old)) (more (R.seen third.new) (L.seen fourth.new))
        (streams (T.seen topology.old) (S.seen tables.old) (O.seen out.old) (E.seen err.old))
        (streams (T.seen topology.new) (S.seen tables.new) (O.seen out.new) (E.seen err.new)) result }
{
    let Some(call) = call_of(words) else {
        return finish(err, Status::Usage);
    };
    let traffic = call.traffic;
    let repaired = RepairedTables { traffic };
    let asked = asked_for(words, call);
    match call.task {
        Task::Answer(question) => {
            answer_question(alloc, topology, tables, third, out, err, question, traffic)
        }
        Task::Route => route(alloc, topology, out, err, traffic),
        Task::Repair => answer(&Repair { traffic }, alloc, topology, tables, out, err),
        Task::Repaired => answer(&repaired, alloc, topology, tables, out, err),
        Task::Lanes => lanes(
            alloc, topology, tables, third, fourth, asked, out, err, traffic,
        ),
        Task::LanesDot => draw_lanes(
            alloc, topology, tables, third, fourth, asked, out, err, traffic,
        ),
        Task::Between => between(alloc, topology, tables, third, out, err),
    }
}
