//! The command `verify`: whether ranks from anywhere fall along every dependency.

ghost use Rattle.std.specs.Prelude.{◌≡◌, ℕ, List, IfOk};
ghost use Rattle.std.specs.Option.{option_map};
ghost use Rattle.fabric_tables.specs.Cells.{TablesOf, tables_of};
ghost use Rattle.fabric_model.specs.Fabric.{FabricOf};
ghost use Rattle.fabric_model.specs.declared.traffic.Traffic.{Traffic};
ghost use Rattle.fabric_read_tables.specs.Reads.{HasCells};
ghost use Rattle.fabric_read_ranks.specs.Ranks.{IsRanksText};
ghost use Rattle.fabric_verdict.specs.Verified.{IsVerified};
ghost use Rattle.fabric_call.specs.Answer.{IsEnding};
ghost use Rattle.fabric_judge_commands.specs.Given.{gives_verified};
ghost use Rattle.fabric_judge_commands.specs.Certified.{AreRanksJudged, IsEndBy, risen_of};

use crate::ranks::risen_of;
use crate::words::word_of;
use common_lines::stop::Refusal;
use common_values::memory::OutOfMemory;
use fabric_call::command::{Command, Given};
use fabric_call::input::Topology;
use fabric_call::status::Status;
use fabric_model::fabric::Fabric;
use fabric_model::traffic::Traffic;
use fabric_print::ranks::{Risen, Verified as Answer, print_verified};
use fabric_read_ranks::read::read_ranks;
use fabric_read_tables::reader::Tables;
use fabric_verdict::verify::{Rise, Verified, verify};
use std::alloc::Global;
use std::marker::Model;

/// The command `verify`: what the routes of a traffic say of ranks.
#[derive(Drop)]
pub struct Verify {
    /// The traffic.
    pub traffic: Traffic,
    /// The bytes of the ranks.
    pub ranks: Vec<u8>,
}

impl Model for Verify {
    ghost use Rattle.std.specs.Prelude.{◌<◌, ◌-◌, ◌^◌, length};
    ghost use Rattle.fabric_judge_commands.specs.Verifying.{AskedOf};

    ghost Value = { AskedOf };

    ghost view = { λ c. record { traffic = c.traffic; bytes = c.ranks.items } };

    ghost invariant = { λ c. length c.ranks.items < 2 ^ 32 - 1 };
}

impl Command for Verify {
    ghost gives = { λ verify. gives_verified verify.traffic verify.bytes };

    fn given(
        &self,
        alloc: Global,
        topology: &Topology,
        tables: &Tables,
    ) -> Result<Given, OutOfMemory> {
        match read_ranks(alloc, &topology.fabric, &self.ranks) {
            Ok(ranks) => given_verified(alloc, topology, tables, self.traffic, &ranks),
            Err(Refusal::Fault { line, cause }) => Ok(Given {
                status: Status::RanksRefused { line, cause },
                text: Vec::new(alloc),
            }),
            Err(Refusal::OutOfMemory) => Err(OutOfMemory),
        }
    }
}

// What `verify` gives for ranks.
fn given_verified(
    alloc: Global,
    topology: &Topology,
    tables: &Tables,
    traffic: Traffic,
    ranks: &[u32],
) -> Result<Given, OutOfMemory>
    requires cells { HasCells topology.now.fabric tables.now }
    ensures given { (bytes : List ℕ) → IsRanksText topology.now.fabric bytes ranks.now →
        IfOk result (λ given. AreRanksJudged traffic bytes topology.now.fabric (tables_of tables.now.cells)
        given.status given.text.items) }
    ensures ends { IfOk result (λ given. IsEnding given.status) }
{
    let fabric = &topology.fabric;
    let found = verify(alloc, fabric, &tables.cells, traffic, ranks)?;
    let answer = Answer {
        traffic: word_of(traffic),
        rise: told_rise(fabric, found.rise),
    };
    Ok(Given {
        status: status_of(found),
        text: print_verified(alloc, &answer)?,
    })
}

// A dependency along which ranks do not fall, if there is one.
fn told_rise(fabric: &Fabric, rise: Option<Rise>) -> Option<Risen>
    ensures { result ≡ option_map (risen_of fabric.now) rise }
{
    let rise = rise?;
    Some(risen_of(fabric, rise))
}

// How a call ends that judged ranks.
fn status_of(found: Verified) -> Status
    ensures { (fabric : FabricOf) (tables : TablesOf) (traffic : Traffic) (ranks : List ℕ)
        → IsVerified fabric tables traffic ranks found → IsEndBy fabric tables traffic found.rise result }
{
    match found.rise {
        Some(_) => Status::RanksRise,
        None => {
            if found.stops {
                return Status::RoutesLost;
            }
            Status::Ok
        }
    }
}
