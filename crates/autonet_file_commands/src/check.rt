//! The command `check`: checks a script with tables.

ghost use Rattle.std.specs.Prelude.{◌≡◌, Bool, IfOk};
ghost use Rattle.table_script.specs.Tables.{AreTablesOf};
ghost use Rattle.check_text.specs.Check.{IsJudged};
ghost use Rattle.autonet_call.specs.Answer.{streams};
ghost use Rattle.autonet_file_commands.specs.Answers.{IsCheckAnswer};
ghost use Rattle.autonet_file_commands.specs.Check.{gives_judged, refuses_tables, status_of};

use autonet_call::command::{Command, Given, answer};
use autonet_call::status::Status;
use check_text::check::judge;
use common_values::memory::OutOfMemory;
use net_script::script::Script;
use outside::sink::Sink;
use outside::source::Source;
use std::alloc::Global;
use table_script::table_reader::read_with_tables;
use table_script::tables::Tables;

// The command `check`: for a script with routing tables, the ranks of the channels and `ok`, or the line that says
// why the tables are rejected.
#[derive(Clone, Copy)]
struct Check;

// Returns the status of tables that pass, or do not.
fn status_of(passed: bool) -> Status
    ensures { result ≡ status_of passed }
{
    if passed {
        Status::Ok
    } else {
        Status::TablesRefused
    }
}

// Returns the result of checking the tables of a script, with its status.
fn judged(alloc: Global, script: Script, tables: Tables) -> Result<Given, OutOfMemory>
    requires { AreTablesOf script.wires tables }
    ensures { IfOk result (λ given. (passed : Bool) × (given.status ≡ status_of passed)
        × IsJudged script tables passed given.text.items) }
{
    let judgement = judge(alloc, &script, tables)?;
    Ok(Given {
        status: status_of(judgement.passed),
        text: judgement.text,
    })
}

impl Command for Check {
    ghost gives = { λ _. gives_judged };

    ghost refuses = { λ _. refuses_tables };

    fn given(&self, alloc: Global, bytes: &[u8]) -> Result<Given, Status> {
        let (script, tables) = read_with_tables(alloc, bytes)?;
        Ok(judged(alloc, script, tables)?)
    }
}

/// Runs `check`: reads a script with routing tables from `source`, and writes the result of the check to `out`.
/// Returns the number of a status, whose line goes to `err`. If `source` fails or has more bytes than the limit, if
/// it has no script with tables, or if memory runs out, `out` is unchanged.
pub fn autonet_check<S: Source, O: Sink, E: Sink>(
    alloc: Global,
    source: &mut S,
    out: &mut O,
    err: &mut E,
) -> u8
    ensures { IsCheckAnswer
        (streams (S.seen source.old) (O.seen out.old) (E.seen err.old))
        (streams (S.seen source.new) (O.seen out.new) (E.seen err.new)) result }
{
    answer(&Check, alloc, source, out, err)
}
