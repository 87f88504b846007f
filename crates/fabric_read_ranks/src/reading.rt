//! The meaning of the lines of ranks read so far.

ghost use Rattle.std.specs.Prelude.{◌≡◌, ◌<◌, Ok, Err, None, IfOk, OnOk, length, map, replicate, slice_index_or, unwrap_or};
ghost use Rattle.common_lines.specs.Stops.{IsStep};
ghost use Rattle.fabric_model.specs.Fabric.{switch_count};
ghost use Rattle.fabric_routes.specs.Found.{number};
ghost use Rattle.fabric_read_ranks.specs.Ranks.{AddsTo, IsFaultyAfter, head_told, none_told, put_once, told_with};
ghost use Rattle.fabric_read_ranks.specs.Readings.{HasPlaces, told_of};

use crate::line::{RankLine, said_by};
use common_lines::line::{MOST_LINE, words};
use common_lines::stop::Stop;
use common_values::memory::OutOfMemory;
use fabric_model::fabric::Fabric;
use fabric_model::node::Side;
use fabric_words::ranks_cause::RanksCause;
use std::alloc::Global;

/// Why a line is rejected.
pub type RanksStop = Stop<RanksCause>;

/// The meaning of the lines read so far.
#[derive(Drop)]
pub struct Reading {
    // Whether the head was among them.
    begun: bool,
    // The rank of each channel, by its number.
    ranks: Vec<Option<u32>>,
}

// The ranks of so many channels, of which none is told.
fn no_ranks(alloc: Global, count: usize) -> Result<Vec<Option<u32>>, OutOfMemory>
    ensures { IfOk result (λ ranks. ranks.items ≡ replicate count None) }
{
    Ok(vec![in alloc; None; count]?)
}

impl Reading {
    /// Creates the meaning of no lines.
    ///
    /// # Errors
    /// `OutOfMemory`.
    pub fn new(alloc: Global, fabric: &Fabric) -> Result<Reading, OutOfMemory>
        ensures { IfOk result (λ reading. told_of reading ≡ none_told fabric.now) }
    {
        let ranks = no_ranks(alloc, fabric.switches() * fabric.most())?;
        Ok(Reading {
            begun: false,
            ranks,
        })
    }

    /// Reports whether the head was among the lines.
    pub fn has_begun(&self) -> bool
        ensures { result ≡ self.now.begun }
    {
        self.begun
    }

    /// Returns the ranks, 0 where the lines give none.
    ///
    /// # Errors
    /// `OutOfMemory`.
    pub fn ranks(&self, alloc: Global) -> Result<Vec<u32>, OutOfMemory>
        ensures { IfOk result (λ ranks. ranks.items ≡ map (λ rank. unwrap_or rank 0) self.now.ranks.items) }
    {
        let mut ranks = Vec::with_capacity(alloc, self.ranks.len())?;
        'channels: for rank in self.ranks.as_slice() {
            ranks.push(rank.unwrap_or(0))?;
        }
        Ok(ranks)
    }

    /// Adds the meaning of the next line, without its line end. The caller must pass the fabric for which the reading
    /// was created.
    ///
    /// # Errors
    /// The first reason for which the line is invalid, or out of memory.
    pub fn add_line(&mut self, alloc: Global, fabric: &Fabric, line: &[u8]) -> Result<(), RanksStop>
        requires { HasPlaces fabric.now self.old }
        ensures step { IsStep result (AddsTo fabric.now (told_of self.old) line.now (told_of self.new))
            (IsFaultyAfter fabric.now (told_of self.old) line.now) }
        ensures places { OnOk result (HasPlaces fabric.now self.new) }
    {
        if line.len() > MOST_LINE {
            return Err(Stop::Fault(RanksCause::LineTooLong));
        }
        let words = words(alloc, line)?;
        match said_by(&words) {
            Ok(said) => self.add(fabric, said),
            Err(cause) => Err(Stop::Fault(cause)),
        }
    }

    // Adds what a line says.
    fn add(&mut self, fabric: &Fabric, said: RankLine) -> Result<(), RanksStop>
        requires { HasPlaces fabric.now self.old }
        ensures step { IsStep result (told_with fabric.now (told_of self.old) said ≡ Ok (told_of self.new))
            (λ cause. told_with fabric.now (told_of self.old) said ≡ Err cause) }
        ensures places { OnOk result (HasPlaces fabric.now self.new) }
    {
        match said {
            RankLine::Nothing => Ok(()),
            RankLine::Head => self.begin(),
            RankLine::Rank(guid, port, rank) => self.add_rank(fabric, guid, port, rank),
        }
    }

    // Adds the head.
    fn begin(&mut self) -> Result<(), RanksStop>
        ensures step { IsStep result (head_told (told_of self.old) ≡ Ok (told_of self.new))
            (λ cause. head_told (told_of self.old) ≡ Err cause) }
        ensures ranks { self.new.ranks ≡ self.old.ranks }
    {
        if self.begun {
            return Err(Stop::Fault(RanksCause::OutOfPlace));
        }
        self.begun = true;
        Ok(())
    }

    // Adds the rank of the channel out of a port of the switch with a GUID.
    fn add_rank(&mut self, fabric: &Fabric, guid: u64, port: u8, rank: u32) -> Result<(), RanksStop>
        requires { HasPlaces fabric.now self.old }
        ensures step { IsStep result (told_with fabric.now (told_of self.old) (RankLine.Rank guid port rank) ≡ Ok (told_of self.new))
            (λ cause. told_with fabric.now (told_of self.old) (RankLine.Rank guid port rank) ≡ Err cause) }
        ensures places { OnOk result (HasPlaces fabric.now self.new) }
    {
        if !self.begun {
            return Err(Stop::Fault(RanksCause::OutOfPlace));
        }
        let Some(switch) = fabric.switch_with(guid) else {
            return Err(Stop::Fault(RanksCause::UnknownSwitch));
        };
        match fabric.side(switch as usize, port) {
            Side::To(_, _) => {
                let place = place_of(fabric, switch, port);
                self.put(place, rank)
            }
            Side::Bare | Side::End(_) => Err(Stop::Fault(RanksCause::NoChannel)),
        }
    }

    // Puts a rank at a place at which none was told.
    fn put(&mut self, place: usize, rank: u32) -> Result<(), RanksStop>
        requires { place < length self.old.ranks.items }
        ensures step { IsStep result (put_once (told_of self.old) place rank (slice_index_or self.old.ranks.items place None)
            ≡ Ok (told_of self.new))
            (λ cause. put_once (told_of self.old) place rank (slice_index_or self.old.ranks.items place None)
            ≡ Err cause) }
        ensures count { length self.new.ranks.items ≡ length self.old.ranks.items }
    {
        match self.ranks[place] {
            None => {
                self.ranks[place] = Some(rank);
                Ok(())
            }
            Some(_) => Err(Stop::Fault(RanksCause::RankTold)),
        }
    }
}

// The number of the channel out of a port.
fn place_of(fabric: &Fabric, switch: u32, port: u8) -> usize
    requires switch { switch < switch_count fabric.now }
    requires port { 0 < port }
    ensures { result ≡ number fabric.now (record { switch = switch; port = port }) }
{
    switch as usize * fabric.most() + (usize::from(port) - 1)
}
