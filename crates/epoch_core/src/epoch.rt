//! The core of one epoch. A body is recorded first; then position, stability and finish follow from the records.

ghost use Rattle.std.specs.Prelude.{◌≡◌, ◌≤◌, ℕ, [], ◌∷◌, ◌++◌, map, OnOk, IfOk, None, Some, option_copied};
ghost use Rattle.std.specs.List.{list_any, flat_map};
ghost use Rattle.std.specs.Ordering.{is_eq};
ghost use Rattle.an_base.specs.declared.limits.TheConstants.{LAST_PORT, MOST_NUMBER};
ghost use Rattle.an_base.specs.Order.{life_cmp};
ghost use Rattle.an_base.specs.declared.body.Body.TheVariants.{Pos, Answer, Stable, Topo};
ghost use Rattle.tree_position.specs.Position.{self_root};
ghost use Rattle.topo_report.specs.Report.{report_of};
ghost use Rattle.epoch_core.specs.Log.{Log};
ghost use Rattle.epoch_core.specs.Epoch.{position, version, is_stable, is_same, finish, positions_of, reported_on, claiming_among, passed_on, adds};
ghost use Rattle.epoch_core.specs.Heard.{HasHeard};
ghost use Rattle.epoch_core.specs.StandsFor.{StandsFor, Accepts};
ghost use Rattle.epoch_core.specs.Steps.{Settles, FinishesAsRoot, repositioned, told_by, entry_of};

use crate::card::Card;
use crate::ports::Ports;
use crate::sends::{Outgoing, Sends};
use an_base::body::{AnswerBody, Body, PosBody, TopoBody};
use an_base::entry::Entries;
use an_base::life::Life;
use an_base::links::Links;
use an_base::position::Position;
use common_values::memory::OutOfMemory;
use std::alloc::Global;
use std::marker::Model;
use switch_numbering::numbering::number;
use tree_position::offers::Offers;

/// The highest version at which the core accepts one more body.
///
/// A body raises the version by at most one, so fewer than 2^30 bodies never exceed it.
pub const MOST_VERSION: u32 = 1_073_741_824;

/// One epoch at one life.
///
/// It keeps one offer for each link, the last bodies of each kind on each port, and what follows from
/// them. The list of all accepted bodies exists only in contracts.
#[derive(Drop)]
pub struct Core {
    alloc: Global,
    card: Card,
    epoch: u64,
    offers: Offers,
    ports: Ports,
    position: Position,
    version: u32,
    is_stable: bool,
    finish: Option<TopoBody>,
}

impl Model for Core {
    ghost use Rattle.std.specs.Prelude.{◌≤◌};
    ghost use Rattle.epoch_core.specs.StandsFor.{CoreOf};

    ghost Value = { CoreOf };

    ghost view = { λ c. record { card = c.card; epoch = c.epoch; offers = c.offers; ports = c.ports; position = c.position; version = c.version; is_stable = c.is_stable; finish = c.finish } };

    ghost invariant = { λ c. 1 ≤ c.version };
}

// Reports whether one of the entries belongs to life `me`.
fn is_among(me: Life, entries: &Entries) -> bool
    ensures { result ≡ list_any (λ e. is_eq (life_cmp e.life me)) entries.now }
{
    'entries: for entry in entries.as_slice() {
        if entry.life == me {
            return true;
        }
    }
    false
}

// Sends a position of this version on each link, in ascending order of port.
fn tell_position(
    version: u32,
    position: &Position,
    links: &Links,
    sends: &mut Sends,
) -> Result<(), OutOfMemory>
    requires { 1 ≤ version }
    ensures { OnOk result (sends.new ≡ sends.old ++ positions_of version position.now links.now) }
{
    'links: for link in links.as_slice() {
        let port = link.port();
        let to_parent = port == position.port;
        let told = Body::Pos(PosBody::new(version, position.root, position.level, to_parent));
        sends.push(Outgoing { port, body: told })?;
    }
    Ok(())
}

impl Core {
    /// Joins an epoch with a `proposed` number, 1 to 126, and with these links.
    ///
    /// The life starts as its own root, and sends this position on each link, in ascending order of port. A
    /// life without links finishes at once. The core keeps `alloc` for later allocations.
    ///
    /// # Errors
    /// `OutOfMemory` if an allocation fails. `sends` is then unspecified.
    pub fn join(
        alloc: Global,
        me: Life,
        epoch: u64,
        proposed: u8,
        links: &Links,
        sends: &mut Sends,
    ) -> Result<Core, OutOfMemory>
        requires least { 1 ≤ proposed }
        requires most { proposed ≤ MOST_NUMBER }
        ensures card { IfOk result (λ core. core.card ≡ record { me = me; proposed = proposed; links = links.now }) }
        ensures epoch { IfOk result (λ core. core.epoch ≡ epoch) }
        ensures version { IfOk result (λ core. core.version ≡ 1) }
        ensures stands { IfOk result (λ core. StandsFor core []) }
        ensures sends { OnOk result (sends.new ≡ sends.old ++ adds (record { me = me; proposed = proposed; links = links.now }) []) }
    {
        let position = Position::new(me, 0, me, 0);
        tell_position(1, &position, links, sends)?;
        let is_alone = links.is_empty();
        let mut core = Core {
            alloc,
            card: Card::new(me, proposed, links),
            epoch,
            offers: Offers::new(me, links),
            ports: Ports::new(),
            position,
            version: 1,
            is_stable: is_alone,
            finish: None,
        };
        if is_alone {
            core.finish_as_root(sends)?;
        }
        Ok(core)
    }

    /// Accepts `body` on `port`, 0 to 12, and adds the bodies that it makes the life send to `sends`.
    ///
    /// They are: the position on each link, if it changed; then an answer, if the body is a position; then
    /// the report to the parent, if the life has become stable and is no root; then the topology on the
    /// links that claim, if the life finishes now. The version must be at most `MOST_VERSION`.
    ///
    /// # Errors
    /// `OutOfMemory` if an allocation fails. The core and `sends` are then unspecified; drop the core.
    pub fn accept(&mut self, port: u8, body: Body, sends: &mut Sends) -> Result<(), OutOfMemory>
        requires port { port ≤ LAST_PORT }
        requires room { self.old.version ≤ MOST_VERSION }
        ensures { OnOk result (Accepts self.old self.new (record { port = port; body = body }) sends.old sends.new) }
    {
        match body {
            Body::Pos(told) => self.accept_position(port, told, sends),
            Body::Answer(answer) => {
                self.ports.note_answer(port, answer);
                self.settle(sends)
            }
            Body::Stable { entries } => {
                self.ports.note_report(port, entries);
                self.settle(sends)
            }
            Body::Topo(topo) => self.accept_topo(topo, sends),
        }
    }

    /// Returns the position in the spanning tree.
    pub fn position(&self) -> &Position
        ensures { (log : Log) → StandsFor self.now log → result.now ≡ position self.now.card log }
    {
        &self.position
    }

    /// Returns the version of the position, from 1.
    pub fn version(&self) -> u32
        ensures version { result ≡ self.now.version }
        ensures least { 1 ≤ self.now.version }
        ensures stands { (log : Log) → StandsFor self.now log → result ≡ version self.now.card log }
    {
        self.version
    }

    /// Reports whether the life is stable.
    ///
    /// It is if each link has answered the current version, and each link that claims has reported since its
    /// last position.
    pub fn stable(&self) -> bool
        ensures { (log : Log) → StandsFor self.now log → result ≡ is_stable self.now.card log }
    {
        self.is_stable
    }

    /// Returns the topology that the life has finished with; `None` if and only if it has not finished.
    pub fn finish(&self) -> Option<&TopoBody>
        ensures { (log : Log) → StandsFor self.now log → option_copied result ≡ finish self.now.card log }
    {
        self.finish.as_ref()
    }

    /// Returns the epoch.
    pub fn epoch(&self) -> u64
        ensures { result ≡ self.now.epoch }
    {
        self.epoch
    }

    // Records the offer of a position, and that its port has not reported since; then follows it, and answers it.
    fn accept_position(
        &mut self,
        port: u8,
        told: PosBody,
        sends: &mut Sends,
    ) -> Result<(), OutOfMemory>
        requires port { port ≤ LAST_PORT }
        requires room { self.old.version ≤ MOST_VERSION }
        ensures { OnOk result (Accepts self.old self.new (record { port = port; body = Pos told }) sends.old sends.new) }
    {
        self.offers.note(port, told.root, told.level);
        self.ports.note_position(port, told);
        self.reposition(sends)?;
        let to_parent = port == self.position.port;
        let answer = AnswerBody::new(told.version, to_parent);
        let body = Body::Answer(answer);
        sends.push(Outgoing { port, body })?;
        self.settle(sends)
    }

    // Finishes with the first topology that names the life, and ignores every other.
    fn accept_topo(&mut self, topo: TopoBody, sends: &mut Sends) -> Result<(), OutOfMemory>
        ensures { OnOk result ((port : ℕ) → Accepts self.old self.new (record { port = port; body = Topo topo }) sends.old sends.new) }
    {
        if self.finish.is_some() {
            return Ok(());
        }
        if !is_among(self.card.me(), topo.entries()) {
            return Ok(());
        }
        self.finish_with(topo, sends)
    }

    // Takes the position that the offers give, and sends it if it changed.
    fn reposition(&mut self, sends: &mut Sends) -> Result<(), OutOfMemory>
        requires { self.old.version ≤ MOST_VERSION }
        ensures core { OnOk result (self.new ≡ repositioned self.old) }
        ensures sends { OnOk result (sends.new ≡ sends.old ++ told_by self.old) }
    {
        let before = self.position;
        self.position = self.offers.best();
        if self.position == before {
            return Ok(());
        }
        self.version += 1;
        tell_position(self.version, &self.position, self.card.links(), sends)
    }

    // Computes whether the life is stable, and acts on it.
    fn settle(&mut self, sends: &mut Sends) -> Result<(), OutOfMemory>
        ensures { OnOk result (Settles self.old self.new sends.old sends.new) }
    {
        let was_stable = self.is_stable;
        self.is_stable = self.ports.are_settled(self.card.links(), self.version);
        if !self.is_stable {
            return Ok(());
        }
        if self.is_root() {
            return self.finish_as_root(sends);
        }
        if was_stable {
            return Ok(());
        }
        self.report_up(sends)
    }

    fn is_root(&self) -> bool
        ensures { result ≡ is_same self.now.position (self_root self.now.card.me) }
    {
        let me = self.card.me();
        self.position == Position::new(me, 0, me, 0)
    }

    fn report(&self) -> Result<Entries, OutOfMemory>
        ensures { (log : Log) → HasHeard self.now.ports log → IfOk result (λ entries. entries ≡ report_of self.now.card.me (entry_of self.now ∷ flat_map (reported_on log) (claiming_among self.now.card.links log))) }
    {
        let own = self.card.entry(self.position);
        let report = self.ports.report(self.alloc, own, self.card.links())?;
        Ok(report.into_entries())
    }

    fn report_up(&self, sends: &mut Sends) -> Result<(), OutOfMemory>
        ensures { (log : Log) → HasHeard self.now.ports log → OnOk result (sends.new ≡ sends.old ++ record { port = self.now.position.port; body = Stable (report_of self.now.card.me (entry_of self.now ∷ flat_map (reported_on log) (claiming_among self.now.card.links log))) } ∷ []) }
    {
        let entries = self.report()?;
        let port = self.position.port;
        let body = Body::Stable { entries };
        sends.push(Outgoing { port, body })
    }

    // Finishes with the report and its numbering, unless the life has finished.
    fn finish_as_root(&mut self, sends: &mut Sends) -> Result<(), OutOfMemory>
        ensures { OnOk result (FinishesAsRoot self.old self.new sends.old sends.new) }
    {
        if self.finish.is_some() {
            return Ok(());
        }
        let entries = self.report()?;
        let numbers = number(self.alloc, &entries)?;
        self.finish_with(TopoBody::new(entries, numbers), sends)
    }

    // Finishes with a topology, and passes it on to the links that claim.
    fn finish_with(&mut self, topo: TopoBody, sends: &mut Sends) -> Result<(), OutOfMemory>
        ensures core { OnOk result (self.new ≡ record self.old { finish = Some topo }) }
        ensures sends { (log : Log) → HasHeard self.old.ports log → OnOk result (sends.new ≡ sends.old ++ map (passed_on topo) (claiming_among self.old.card.links log)) }
    {
        self.ports
            .pass_down(self.alloc, &topo, self.card.links(), sends)?;
        self.finish = Some(topo);
        Ok(())
    }
}
