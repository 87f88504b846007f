//! The sessions of a switch, one at each port, each with two directions.

ghost use Rattle.std.specs.Prelude.{◌≡◌, ◌+◌, ◌-◌, ◌<◌, ◌≤◌, ◌^◌, ℕ, All, IfOk, IfSome, Some, length, slice_get};
ghost use Rattle.ordered_link.specs.Sending.{IsOut, Sending, acknowledge, next_to_send, push, send_again, send_next, sent_by_ack, sent_by_push, unused, first_due};
ghost use Rattle.ordered_link.specs.Receiving.{Receiving, come, follow, last, untouched, verdict};
ghost use Rattle.std.specs.List.{list_any};
ghost use Rattle.an_base.specs.declared.limits.TheConstants.{LAST_PORT};
ghost use Rattle.port_monitor.specs.Histories.{externals};
ghost use Rattle.switch_core.specs.Switch.{at_port, is_unacked};
ghost use Rattle.switch_core.specs.Sessions.{AreSessions, IsNew, IsOutAt, IsSessionOf, OfSender, Receives, ReceivesBy, Sends, SendsBy, wanted};

use an_base::body::Body;
use common_values::memory::OutOfMemory;
use ordered_link::receiver::{Receiver, Verdict};
use ordered_link::sender::Sender;
use std::alloc::Global;

// What a switch keeps of the session at a port.
#[derive(Drop)]
struct Session {
    // The direction in which it sends.
    sender: Sender,
    // The direction in which it receives.
    receiver: Receiver,
}

impl Session {
    // A session in which nothing was sent or received, without allocating.
    fn new(alloc: Global) -> Self
        ensures { IsNew result }
    {
        Session {
            sender: Sender::new(alloc),
            receiver: Receiver::new(),
        }
    }

    // Pushes a body, and returns its number if it is sent now.
    fn push(&mut self, body: Body, now: u64) -> Result<Option<u32>, OutOfMemory>
        requires { self.old.sender.acked + length self.old.sender.bodies < 2 ^ 31 }
        ensures ok { IfOk result (λ number. SendsBy (push body now) (sent_by_push body) self.old self.new number) }
        ensures out { IfOk result (λ number. IfSome number (IsOut self.new.sender)) }
    {
        self.sender.push(body, now)
    }

    // The number of the first waiting body, if it is sent now.
    fn more(&mut self, now: u64) -> Option<u32>
        ensures sent { SendsBy (send_next now) next_to_send self.old self.new result }
        ensures out { IfSome result (IsOut self.new.sender) }
    {
        self.sender.more(now)
    }

    // Records an acknowledgement, and returns the number of the body that is sent now.
    fn on_ack(&mut self, n: u32, now: u64) -> Option<u32>
        ensures sent { SendsBy (acknowledge n now) (sent_by_ack n) self.old self.new result }
        ensures out { IfSome result (IsOut self.new.sender) }
    {
        self.sender.on_ack(n, now)
    }

    // Reports whether some body that was pushed is not acknowledged.
    fn is_unacked(&self) -> bool
        ensures { (t : Sending) (r : Receiving) → IsSessionOf self.now t r → result ≡ is_unacked t }
    {
        self.sender.unacked()
    }

    // The lowest number of an outstanding body that is due to be sent again.
    fn due(&self, now: u64) -> Option<u32>
        ensures first { (t : Sending) (r : Receiving) → IsSessionOf self.now t r → result ≡ first_due now t }
        ensures out { IfSome result (IsOut self.now.sender) }
    {
        self.sender.due(now)
    }

    // Records that an outstanding body is sent again.
    fn resent(&mut self, k: u32, now: u64)
        requires { IsOut self.old.sender k }
        ensures { (t : Sending) (r : Receiving) → IsSessionOf self.old t r → IsSessionOf self.new (send_again k now t) r }
    {
        self.sender.resent(k, now);
    }

    // Receives a body.
    fn on_carry(&mut self, k: u32, body: Body) -> Verdict
        ensures { ReceivesBy (come k body) (verdict k body) self.old self.new result }
    {
        self.receiver.on_carry(k, body)
    }

    // Accepts the wanted body if it is held, and returns it.
    fn next(&mut self) -> Option<Body>
        ensures { ReceivesBy follow wanted self.old self.new result }
    {
        self.receiver.next()
    }
}

/// The sessions at the ports 1 to 12. Ticks count from the start of the run.
#[derive(Drop)]
pub struct Sessions {
    items: [Session; 12],
    // For each port, whether some body that was pushed is not acknowledged.
    unacked: [bool; 12],
}

impl Sessions {
    /// Creates sessions in which nothing was sent or received, without allocating.
    pub fn new(alloc: Global) -> Self
        ensures { AreSessions result (λ port. unused) (λ port. untouched) }
    {
        Sessions {
            items: new_sessions(alloc),
            unacked: [false; 12],
        }
    }

    /// Queues `body` at `port`, 1 to 12, and returns its number if it is sent now.
    ///
    /// Fewer than 2^31 bodies must have been pushed at the port before.
    ///
    /// # Errors
    /// `OutOfMemory` if the allocation fails. The sessions are then unspecified.
    pub fn push(&mut self, port: u8, body: Body, now: u64) -> Result<Option<u32>, OutOfMemory>
        requires least { 1 ≤ port }
        requires most { port ≤ LAST_PORT }
        requires room { OfSender self.old port (λ v. v.acked + length v.bodies < 2 ^ 31) }
        ensures ok { IfOk result (λ number. Sends port (push body now) (sent_by_push body) self.old self.new number) }
        ensures out { IfOk result (λ number. IfSome number (IsOutAt self.new port)) }
    {
        let session = &mut self.items[usize::from(port - 1)];
        let number = session.push(body, now)?;
        self.unacked[usize::from(port - 1)] = session.is_unacked();
        Ok(number)
    }

    /// Sends the first waiting body of `port`, 1 to 12, if the window permits, and returns its number.
    pub fn more(&mut self, port: u8, now: u64) -> Option<u32>
        requires least { 1 ≤ port }
        requires most { port ≤ LAST_PORT }
        ensures sent { Sends port (send_next now) next_to_send self.old self.new result }
        ensures out { IfSome result (IsOutAt self.new port) }
    {
        self.items[usize::from(port - 1)].more(now)
    }

    /// Records an acknowledgement of all bodies up to `n` at `port`, 1 to 12, and returns the number of the
    /// body that is sent now, if one is.
    pub fn on_ack(&mut self, port: u8, n: u32, now: u64) -> Option<u32>
        requires least { 1 ≤ port }
        requires most { port ≤ LAST_PORT }
        ensures sent { Sends port (acknowledge n now) (sent_by_ack n) self.old self.new result }
        ensures out { IfSome result (IsOutAt self.new port) }
    {
        let session = &mut self.items[usize::from(port - 1)];
        let number = session.on_ack(n, now);
        self.unacked[usize::from(port - 1)] = session.is_unacked();
        number
    }

    /// Returns the lowest-numbered outstanding body of `port`, 1 to 12, that was last sent at least four
    /// ticks ago.
    ///
    /// Returns `None` if and only if there is none.
    pub fn due(&self, port: u8, now: u64) -> Option<u32>
        requires least { 1 ≤ port }
        requires most { port ≤ LAST_PORT }
        ensures first { (t : ℕ → Sending) (r : ℕ → Receiving) → AreSessions self.now t r → result ≡ first_due now (t port) }
        ensures out { IfSome result (IsOutAt self.now port) }
    {
        self.items[usize::from(port - 1)].due(now)
    }

    /// Records that body `k`, which must be outstanding at `port`, 1 to 12, is sent again at tick `now`.
    pub fn resent(&mut self, port: u8, k: u32, now: u64)
        requires least { 1 ≤ port }
        requires most { port ≤ LAST_PORT }
        requires out { IsOutAt self.old port k }
        ensures { (t : ℕ → Sending) (r : ℕ → Receiving) → AreSessions self.old t r → AreSessions self.new (at_port port (send_again k now (t port)) t) r }
    {
        self.items[usize::from(port - 1)].resent(k, now);
    }

    /// Returns body `k`, which must be outstanding at `port`, 1 to 12.
    pub fn body(&self, port: u8, k: u32) -> &Body
        requires least { 1 ≤ port }
        requires most { port ≤ LAST_PORT }
        requires out { IsOutAt self.now port k }
        ensures { (t : ℕ → Sending) (r : ℕ → Receiving) → AreSessions self.now t r → slice_get (t port).pushed (k - 1) ≡ Some result.now }
    {
        self.items[usize::from(port - 1)].sender.body(k)
    }

    /// Returns the number of bodies that were accepted at `port`, 1 to 12.
    pub fn last(&self, port: u8) -> u32
        requires least { 1 ≤ port }
        requires most { port ≤ LAST_PORT }
        ensures { (t : ℕ → Sending) (r : ℕ → Receiving) → AreSessions self.now t r → result ≡ last (r port) }
    {
        self.items[usize::from(port - 1)].receiver.last()
    }

    /// Reports whether some body that was pushed at some port is not acknowledged.
    pub fn is_unacked(&self) -> bool
        ensures { (t : ℕ → Sending) (r : ℕ → Receiving) → AreSessions self.now t r → result ≡ list_any (λ port. is_unacked (t port)) externals }
    {
        'ports: for unacked in &self.unacked {
            if *unacked {
                return true;
            }
        }
        false
    }

    /// Receives `body` with number `k` at `port`, 1 to 12: it is accepted, held, a repeat, or ahead.
    pub fn on_carry(&mut self, port: u8, k: u32, body: Body) -> Verdict
        requires least { 1 ≤ port }
        requires most { port ≤ LAST_PORT }
        ensures { Receives port (come k body) (verdict k body) self.old self.new result }
    {
        self.items[usize::from(port - 1)].on_carry(k, body)
    }

    /// Accepts the wanted body of `port`, 1 to 12, if it is held, and returns it.
    pub fn next(&mut self, port: u8) -> Option<Body>
        requires least { 1 ≤ port }
        requires most { port ≤ LAST_PORT }
        ensures { Receives port follow wanted self.old self.new result }
    {
        self.items[usize::from(port - 1)].next()
    }
}

// Twelve new sessions.
fn new_sessions(alloc: Global) -> [Session; 12]
    ensures { All IsNew result }
{
    [
        Session::new(alloc),
        Session::new(alloc),
        Session::new(alloc),
        Session::new(alloc),
        Session::new(alloc),
        Session::new(alloc),
        Session::new(alloc),
        Session::new(alloc),
        Session::new(alloc),
        Session::new(alloc),
        Session::new(alloc),
        Session::new(alloc),
    ]
}
