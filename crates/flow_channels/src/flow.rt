//! The flow itself: packets enter, and each turn is an arrival if there is one, otherwise a departure.

ghost use Rattle.std.specs.Prelude.{◌≡◌, ◌+◌, ◌≤◌, ◌↔◌, List, [], ◌∷◌, ◌++◌, length, IfOk, IfSome, IfNone, IsNone};
ghost use Rattle.std.specs.Prelude.{MatchOption};
ghost use Rattle.an_base.specs.Rows.{RowOf};
ghost use Rattle.dep_check.specs.Channels.{far_at, LeadsTo};
ghost use Rattle.common_graph.specs.Cycles.{HasNoCycle};
ghost use Rattle.dep_check.specs.Packets.{AllAreJoined};
ghost use Rattle.flow_channels.specs.Board.{flow_of};
ghost use Rattle.flow_channels.specs.Exits.{AreExitsOf};
ghost use Rattle.flow_channels.specs.Flows.{enters, left_of};
ghost use Rattle.flow_channels.specs.Layout.{layout_of, LayoutOf};
ghost use Rattle.flow_channels.specs.Runs.{MayEnter};
ghost use Rattle.flow_channels.specs.Turns.{IsSame, NoneArrives};
ghost use Rattle.flow_channels.specs.View.{HasTurned, IsFresh, IsOver, IsRunning, IsStill, MayEnterNow};
ghost use Rattle.flow_channels.specs.View.{TurnsTo};
ghost use Rattle.flow_channels.specs.Watch.{IsWatched};

use crate::board::{Arrival, Board, Packet};
use crate::exits::ExitTable;
use crate::tables::Tables;
use crate::watch::Watch;
use crate::went::Went;
use an_base::numbers::Numbers;
use common_values::memory::OutOfMemory;
use std::alloc::Global;
use std::marker::Model;
use topo_graph::graph::Graph;

/// Packets on their way through a topology whose channels hold a few packets each.
#[derive(Drop)]
pub struct Flow {
    tables: Tables,
    board: Board,
    watch: Watch,
    left: u32,
}

impl Model for Flow {
    ghost use Rattle.flow_channels.specs.Board.{flow_of};
    ghost use Rattle.flow_channels.specs.View.{FlowView, HasLeft, view_of};
    ghost use Rattle.flow_channels.specs.Watch.{IsWatched};

    ghost Value = { FlowView };

    ghost view = { λ f. view_of f.tables f.board };

    ghost invariant = { λ f.
        HasLeft f.tables f.board f.left × IsWatched f.tables (flow_of f.board) f.watch };
}

// The first packet of the least channel whose first packet is at its target arrives.
fn arrive(tables: &Tables, board: &mut Board, watch: &mut Watch) -> Option<Went>
    requires running { IsRunning tables.now board.old }
    requires watched { IsWatched tables.now (flow_of board.old) watch.old }
    ensures turned { MatchOption result (NoneArrives tables.now board.old 1651)
        (HasTurned tables.now board.old board.new) }
    ensures same { IfNone result (board.new ≡ board.old) }
    ensures left { IfSome result (λ _. left_of (flow_of board.new) + 1 ≡ left_of (flow_of board.old)) }
    ensures watched { IsWatched tables.now (flow_of board.new) watch.new }
{
    let Some(Arrival { channel, packet }) = watch.arrival(tables, board) else {
        return None;
    };
    watch.leave(tables, board, channel);
    Some(Went::Arrived {
        packet: packet.packet,
        at: packet.to,
    })
}

// The packet that is let go at the least number goes out, if nobody arrives.
fn depart(tables: &Tables, board: &mut Board, watch: &mut Watch) -> Option<Went>
    requires running { IsRunning tables.now board.old }
    requires watched { IsWatched tables.now (flow_of board.old) watch.old }
    requires none { NoneArrives tables.now board.old 1651 }
    ensures turned { MatchOption result (IsStill tables.now board.old)
        (HasTurned tables.now board.old board.new) }
    ensures same { IfNone result (IsSame board.old board.new) }
    ensures running { IsNone result → IsRunning tables.now board.new }
    ensures left { IfSome result (λ _. left_of (flow_of board.new) ≡ left_of (flow_of board.old)) }
    ensures watched { IsWatched tables.now (flow_of board.new) watch.new }
{
    let Some(departure) = watch.departure(tables, board) else {
        return None;
    };
    let packet = board.packets[departure.slot as usize].packet;
    watch.go(tables, board, departure);
    Some(Went::Out {
        packet,
        at: departure.at,
        exit: departure.exit,
    })
}

impl Flow {
    /// Creates a flow without packets. A channel holds `b` packets, and at most `most` packets may enter.
    ///
    /// The caller must pass the exits of rows by which no channels form a cycle and every two switches are
    /// joined, as of rows that pass `check`; one number for each entry of the graph; a `b` of at least 1; and a
    /// `most` from 1 to 10,000.
    ///
    /// # Errors
    /// `OutOfMemory` if an allocation fails.
    pub fn new(
        alloc: Global,
        graph: &Graph,
        numbers: &Numbers,
        exits: ExitTable,
        b: u16,
        most: u32,
    ) -> Result<Self, OutOfMemory>
        ghost rows: { List RowOf }
        requires same { length numbers.now ≡ length graph.now }
        requires exits { AreExitsOf rows exits }
        requires no_cycle { HasNoCycle (LeadsTo (far_at graph.now numbers.now) rows) }
        requires joined { AllAreJoined (far_at graph.now numbers.now) numbers.now rows }
        requires room { 1 ≤ b }
        requires least { 1 ≤ most }
        requires limit { most ≤ 10000 }
        ensures { IfOk result (IsFresh (layout_of graph.now numbers.now rows b) most) }
    {
        let _count = graph.count();
        let _numbers = numbers.as_slice();
        let tables = Tables::of(alloc, graph, numbers, exits, usize::from(b), most)?;
        let board = Board::new(alloc, &tables)?;
        let watch = Watch::new(alloc, &tables, &board)?;
        Ok(Flow {
            tables,
            board,
            watch,
            left: 0,
        })
    }

    /// Lets `packet` enter at the switch with the number `from`, towards the number `to`, and ask there.
    ///
    /// The caller must pass a packet that has not entered before and two different numbers of the topology, and
    /// fewer packets than the limit must have entered. It does not allocate.
    pub fn enter(&mut self, packet: u32, from: u8, to: u8)
        requires { MayEnterNow self.old packet from to }
        ensures flow { self.new ≡ record self.old {
          known = self.old.known ++ (packet ∷ []);
          flow = enters packet from to self.old.flow;
        } }
        ensures over { (layout : LayoutOf) → IsOver layout self.old
            → MayEnter layout self.old.limit self.old.known packet from to → IsOver layout self.new }
    {
        self.watch
            .enter(&self.tables, &mut self.board, Packet { packet, to }, from);
        self.left += 1;
    }

    /// Makes the next move, and reports it.
    ///
    /// The first packet that is at its target, of the least such channel by number and port, arrives; otherwise
    /// the packet that is granted a port at the lowest number goes out. Returns `None`, and changes nothing, if
    /// and only if no packet is left. It does not allocate.
    pub fn turn(&mut self) -> Option<Went>
        ensures turned { (layout : LayoutOf) → IsOver layout self.old
            → TurnsTo layout self.old self.new result }
        ensures over { (layout : LayoutOf) → IsOver layout self.old → IsOver layout self.new }
        ensures none { IsNone result ↔ (left_of self.old.flow ≡ 0) }
    {
        if let Some(went) = arrive(&self.tables, &mut self.board, &mut self.watch) {
            self.left -= 1;
            return Some(went);
        }
        depart(&self.tables, &mut self.board, &mut self.watch)
    }

    /// Returns the number of packets that entered and have not arrived.
    pub fn left(&self) -> u32
        ensures { result ≡ left_of self.now.flow }
    {
        self.left
    }
}
