//! What one epoch keeps for each port: a few flags, the version last answered, and the last report.

ghost use Rattle.std.specs.Prelude.{◌≡◌, ◌≤◌, ◌&&◌, ◌||◌, not, [], ◌∷◌, ◌++◌, map, OnOk, IfOk, option_copied};
ghost use Rattle.std.specs.List.{list_all, flat_map};
ghost use Rattle.an_base.specs.declared.limits.TheConstants.{LAST_PORT};
ghost use Rattle.an_base.specs.declared.body.Body.TheVariants.{Pos, Answer, Stable, Topo};
ghost use Rattle.topo_report.specs.Report.{report_of};
ghost use Rattle.epoch_core.specs.Log.{Log, on_port, last_report};
ghost use Rattle.epoch_core.specs.Epoch.{names, is_settled, claiming_among, reported_on, passed_on};
ghost use Rattle.epoch_core.specs.Heard.{HasHeard, heard_of};

use crate::sends::{Outgoing, Sends};
use an_base::body::{AnswerBody, Body, PosBody, TopoBody};
use an_base::entry::{Entries, Entry};
use an_base::links::Links;
use common_values::memory::OutOfMemory;
use std::alloc::Global;
use topo_report::report::Report;

/// What is kept of the bodies accepted on one port, except for the last report.
#[derive(Clone, Copy)]
pub struct Heard {
    /// The version that the last answer names.
    pub answered: Option<u32>,
    /// Whether the last position or answer says that the link is the sender's link to its parent.
    pub is_claimed: bool,
    /// Whether a report came after the last position.
    pub is_fresh: bool,
}

impl Heard {
    /// Reports whether the last answer names `version` and, on a link that claims, a report came since the
    /// last position.
    pub fn is_settled(self, version: u32) -> bool
        ensures { result ≡ (names self.answered version && (not self.is_claimed || self.is_fresh)) }
    {
        match self.answered {
            Some(answered) => answered == version && (!self.is_claimed || self.is_fresh),
            None => false,
        }
    }
}

// The record of a port on which nothing came.
const NOTHING: Heard = Heard {
    answered: None,
    is_claimed: false,
    is_fresh: false,
};

/// What is kept of the bodies accepted on each port, 0 to 12.
#[derive(Drop)]
pub struct Ports {
    /// The record of each port, except for the last report.
    pub heard: [Heard; 13],
    /// The last report on each port.
    pub reports: [Option<Entries>; 13],
}

impl Ports {
    /// Creates the records of ports on which nothing came.
    pub fn new() -> Self
        ensures { HasHeard result [] }
    {
        Ports {
            heard: [NOTHING; 13],
            reports: [
                None, None, None, None, None, None, None, None, None, None, None, None, None,
            ],
        }
    }

    /// Records position `told` on `port`, 0 to 12.
    pub fn note_position(&mut self, port: u8, told: PosBody)
        requires { port ≤ LAST_PORT }
        ensures { (log : Log) → HasHeard self.old log → HasHeard self.new (record { port = port; body = Pos told } ∷ log) }
    {
        let heard = &mut self.heard[usize::from(port)];
        heard.is_claimed = told.to_parent;
        heard.is_fresh = false;
    }

    /// Records `answer` on `port`, 0 to 12.
    pub fn note_answer(&mut self, port: u8, answer: AnswerBody)
        requires { port ≤ LAST_PORT }
        ensures { (log : Log) → HasHeard self.old log → HasHeard self.new (record { port = port; body = Answer answer } ∷ log) }
    {
        let heard = &mut self.heard[usize::from(port)];
        heard.answered = Some(answer.version);
        heard.is_claimed = answer.to_parent;
    }

    /// Records a report, `entries`, on `port`, 0 to 12.
    pub fn note_report(&mut self, port: u8, entries: Entries)
        requires { port ≤ LAST_PORT }
        ensures { (log : Log) → HasHeard self.old log → HasHeard self.new (record { port = port; body = Stable entries } ∷ log) }
    {
        self.heard[usize::from(port)].is_fresh = true;
        self.reports[usize::from(port)] = Some(entries);
    }

    // What was heard on a port, 0 to 12.
    fn heard_on(&self, port: u8) -> Heard
        requires { port ≤ LAST_PORT }
        ensures { (log : Log) → HasHeard self.now log → result ≡ heard_of (on_port port log) }
    {
        self.heard[usize::from(port)]
    }

    // The last report on a port, 0 to 12.
    fn report_on(&self, port: u8) -> Option<&Entries>
        requires { port ≤ LAST_PORT }
        ensures { (log : Log) → HasHeard self.now log → option_copied result ≡ last_report (on_port port log) }
    {
        self.reports[usize::from(port)].as_ref()
    }

    /// Reports whether, on each of the links, the last answer names `version` and, if the link claims, a
    /// report came since the last position.
    pub fn are_settled(&self, links: &Links, version: u32) -> bool
        ensures { (log : Log) → HasHeard self.now log → result ≡ list_all (is_settled version log) links.now }
    {
        'links: for link in links.as_slice() {
            if !self.heard_on(link.port()).is_settled(version) {
                return false;
            }
        }
        true
    }

    /// Returns the report that merges entry `own` with the last reports of the links that claim.
    ///
    /// # Errors
    /// `OutOfMemory` if an allocation fails.
    pub fn report(&self, alloc: Global, own: Entry, links: &Links) -> Result<Report, OutOfMemory>
        ensures { (log : Log) → HasHeard self.now log → IfOk result (λ report. report ≡ record { me = own.life; entries = report_of own.life (own ∷ flat_map (reported_on log) (claiming_among links.now log)) }) }
    {
        let mut report = Report::of(alloc, own)?;
        'links: for link in links.as_slice() {
            if self.heard_on(link.port()).is_claimed {
                if let Some(entries) = self.report_on(link.port()) {
                    report.merge(entries)?;
                }
            }
        }
        Ok(report)
    }

    /// Adds `topo` on each of the links that claim to `sends`, in ascending order of port.
    ///
    /// # Errors
    /// `OutOfMemory` if an allocation fails. `sends` is then unspecified.
    pub fn pass_down(
        &self,
        alloc: Global,
        topo: &TopoBody,
        links: &Links,
        sends: &mut Sends,
    ) -> Result<(), OutOfMemory>
        ensures { (log : Log) → HasHeard self.now log → OnOk result (sends.new ≡ sends.old ++ map (passed_on topo.now) (claiming_among links.now log)) }
    {
        'links: for link in links.as_slice() {
            let port = link.port();
            if self.heard_on(port).is_claimed {
                let body = Body::Topo(topo.copy(alloc)?);
                sends.push(Outgoing { port, body })?;
            }
        }
        Ok(())
    }
}
