//! The commands `judge` and `ranks`.

ghost use Rattle.std.specs.Prelude.{IfOk};
ghost use Rattle.fabric_tables.specs.Cells.{tables_of};
ghost use Rattle.fabric_read_tables.specs.Reads.{HasCells};
ghost use Rattle.fabric_verdict.specs.Judgements.{IsJudgement};
ghost use Rattle.fabric_call.specs.Answer.{IsEnding};
ghost use Rattle.fabric_judge_commands.specs.Given.{gives_judged, gives_ranks};
ghost use Rattle.fabric_judge_commands.specs.Judged.{IsJudged};

use crate::answer::{answer_for, status_of};
use crate::ranks::ranks_of;
use common_values::memory::OutOfMemory;
use fabric_call::command::{Command, Given};
use fabric_call::input::Topology;
use fabric_model::traffic::Traffic;
use fabric_print::printer::print;
use fabric_print::ranks::print_ranks;
use fabric_read_tables::reader::Tables;
use fabric_verdict::judge::{Judgement, judge};
use fabric_verdict::verdict::Verdict;
use std::alloc::Global;

/// The command `judge`: the verdict on the routes of a traffic.
#[derive(Clone, Copy)]
pub struct Judge {
    /// The traffic.
    pub traffic: Traffic,
}

impl Command for Judge {
    ghost gives = { λ judge. gives_judged judge.traffic };

    fn given(
        &self,
        alloc: Global,
        topology: &Topology,
        tables: &Tables,
    ) -> Result<Given, OutOfMemory> {
        let judged = judge(alloc, &topology.fabric, &tables.cells, self.traffic)?;
        given_judged(alloc, topology, tables, self.traffic, &judged)
    }
}

// What `judge` gives for tables that were judged.
fn given_judged(
    alloc: Global,
    topology: &Topology,
    tables: &Tables,
    traffic: Traffic,
    judged: &Judgement,
) -> Result<Given, OutOfMemory>
    requires cells { HasCells topology.now.fabric tables.now }
    requires judged { IsJudgement topology.now.fabric (tables_of tables.now.cells) traffic judged.now }
    ensures given { IfOk result (λ given. IsJudged traffic topology.now.text.items topology.now.fabric tables.now
        given.status given.text.items) }
    ensures ends { IfOk result (λ given. IsEnding given.status) }
{
    let answer = answer_for(alloc, topology, tables, traffic, judged)?;
    Ok(Given {
        status: status_of(judged),
        text: print(alloc, &answer)?,
    })
}

/// The command `ranks`: the ranks of the channels, or the verdict if there is a credit loop.
#[derive(Clone, Copy)]
pub struct Ranks {
    /// The traffic.
    pub traffic: Traffic,
}

impl Command for Ranks {
    ghost gives = { λ ranks. gives_ranks ranks.traffic };

    fn given(
        &self,
        alloc: Global,
        topology: &Topology,
        tables: &Tables,
    ) -> Result<Given, OutOfMemory> {
        let judged = judge(alloc, &topology.fabric, &tables.cells, self.traffic)?;
        match &judged.verdict {
            Verdict::Ranks { ranks } => {
                let told = ranks_of(alloc, &topology.fabric, ranks)?;
                Ok(Given {
                    status: status_of(&judged),
                    text: print_ranks(alloc, &told)?,
                })
            }
            Verdict::Cycle { channels: _ } => {
                given_judged(alloc, topology, tables, self.traffic, &judged)
            }
        }
    }
}
