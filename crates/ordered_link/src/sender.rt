//! The sending end of a session. One queue has the outstanding bodies, then those that wait; a body's position in it
//! gives its number.

ghost use Rattle.std.specs.Prelude.{◌≡◌, ◌+◌, ◌-◌, ◌<◌, ◌≤◌, ◌^◌, ℕ, length, OnErr, IfOk, IfSome, IfNone, nat_lt, Some, slice_get, slice_index_or, drop};
ghost use Rattle.ordered_link.specs.Sending.{Sending, IsDue, IsOut, IsKeptOf, acknowledge, forget, next_to_send, push, send_again, send_next, sent_by_ack, sent_by_push, unused};

use an_base::body::Body;
use common_values::memory::OutOfMemory;
use std::alloc::Global;
use std::collections::VecDeque;
use std::marker::Model;

/// The largest number of bodies that are sent and not yet acknowledged.
pub const WINDOW: usize = 8;

/// The number of ticks after which an outstanding body is sent again.
pub const PATIENCE: u64 = 4;

/// The sender of one direction of a session.
///
/// Bodies are numbered from 1 in the order in which they are pushed. At most eight are outstanding (sent
/// and not acknowledged); the others wait. Time is counted in ticks. The sender keeps only the bodies
/// that are not acknowledged.
#[derive(Drop)]
pub struct Sender {
    acked: u32,
    outstanding: usize,
    sent: [u64; 8],
    bodies: VecDeque<Body>,
}

impl Model for Sender {
    ghost use Rattle.std.specs.Prelude.{◌+◌, ◌<◌, ◌≤◌, ◌^◌, take, length};
    ghost use Rattle.ordered_link.specs.Sending.{SenderOf};

    ghost Value = { SenderOf };

    ghost view = { λ s. record { acked = s.acked; sent = take s.outstanding s.sent; bodies = s.bodies.items } };

    ghost invariant = { λ s. (s.outstanding ≤ 8) × (s.outstanding ≤ length s.bodies.items) × (s.acked + length s.bodies.items ≤ 2 ^ 31) };
}

impl Sender {
    /// Creates a sender without bodies, without allocating. It keeps `alloc` for the bodies that come.
    pub fn new(alloc: Global) -> Self
        ensures { IsKeptOf result unused }
    {
        Sender {
            acked: 0,
            outstanding: 0,
            sent: [0; WINDOW],
            bodies: VecDeque::new(alloc),
        }
    }

    /// Queues `body` at tick `now`, and returns its number if it is sent now.
    ///
    /// Returns `None` if eight bodies are outstanding or another one waits. Fewer than 2^31 bodies must have
    /// been pushed before.
    ///
    /// # Errors
    /// `OutOfMemory` if the allocation fails. The sender is then unchanged.
    pub fn push(&mut self, body: Body, now: u64) -> Result<Option<u32>, OutOfMemory>
        requires { self.old.acked + length self.old.bodies < 2 ^ 31 }
        ensures ok { IfOk result (λ number. (s : Sending) → IsKeptOf self.old s → IsKeptOf self.new (push body now s) × (number ≡ sent_by_push body s)) }
        ensures out { IfOk result (λ number. IfSome number (IsOut self.new)) }
        ensures err { OnErr result (self.new ≡ self.old) }
    {
        let is_waiting = self.outstanding < self.bodies.len();
        self.bodies.push_back(body)?;
        if is_waiting {
            return Ok(None);
        }
        Ok(self.more(now))
    }

    /// Sends the first waiting body at tick `now`, and returns its number.
    ///
    /// Returns `None`, and changes nothing, if and only if eight are outstanding or none waits.
    pub fn more(&mut self, now: u64) -> Option<u32>
        ensures sent { (s : Sending) → IsKeptOf self.old s → IsKeptOf self.new (send_next now s) × (result ≡ next_to_send s) }
        ensures out { IfSome result (IsOut self.new) }
    {
        if self.outstanding == WINDOW || self.outstanding == self.bodies.len() {
            return None;
        }
        self.sent[self.outstanding] = now;
        self.outstanding += 1;
        Some(self.acked + self.outstanding as u32)
    }

    /// Records an acknowledgement, at tick `now`, of all bodies up to `n`.
    ///
    /// It counts if body `n` is outstanding. The first waiting body, if any, is then sent, and its number
    /// returned. Returns `None` if and only if the acknowledgement does not count or no body waits.
    pub fn on_ack(&mut self, n: u32, now: u64) -> Option<u32>
        ensures sent { (s : Sending) → IsKeptOf self.old s → IsKeptOf self.new (acknowledge n now s) × (result ≡ sent_by_ack n s) }
        ensures out { IfSome result (IsOut self.new) }
    {
        if n <= self.acked || (n - self.acked) as usize > self.outstanding {
            return None;
        }
        self.forget((n - self.acked) as usize);
        self.more(now)
    }

    /// Returns the lowest-numbered outstanding body that was last sent at least four ticks ago.
    ///
    /// Returns `None` if and only if there is none.
    pub fn due(&self, now: u64) -> Option<u32>
        ensures out { IfSome result (IsOut self.now) }
        ensures due { IfSome result (λ k. (s : Sending) → IsKeptOf self.now s → IsDue s now k) }
        ensures least { IfSome result (λ k. (s : Sending) (j : ℕ) → IsKeptOf self.now s → IsDue s now j → k ≤ j) }
        ensures none { IfNone result ((s : Sending) (j : ℕ) → IsKeptOf self.now s → IsDue s now j → ⊥) }
    {
        let latest = now.checked_sub(PATIENCE)?;
        let place = first_until(&self.sent[..self.outstanding], latest)?;
        Some(self.acked + 1 + place as u32)
    }

    /// Records that body `k`, which must be outstanding, is sent again at tick `now`.
    pub fn resent(&mut self, k: u32, now: u64)
        requires { IsOut self.old k }
        ensures { (s : Sending) → IsKeptOf self.old s → IsKeptOf self.new (send_again k now s) }
    {
        self.sent[(k - self.acked - 1) as usize] = now;
    }

    /// Returns body `k`, which must be outstanding.
    pub fn body(&self, k: u32) -> &Body
        requires { IsOut self.now k }
        ensures { (s : Sending) → IsKeptOf self.now s → slice_get s.pushed (k - 1) ≡ Some result.now }
    {
        &self.bodies[(k - self.acked - 1) as usize]
    }

    /// Returns the number of bodies that were pushed, at most 2^31.
    pub fn pushed(&self) -> u32
        ensures pushed { result ≡ self.now.acked + length self.now.bodies }
        ensures stands { (s : Sending) → IsKeptOf self.now s → result ≡ length s.pushed }
    {
        self.acked + self.bodies.len() as u32
    }

    /// Reports whether some body that was pushed is not acknowledged.
    pub fn unacked(&self) -> bool
        ensures { (s : Sending) → IsKeptOf self.now s → result ≡ nat_lt s.acked (length s.pushed) }
    {
        !self.bodies.is_empty()
    }

    // Marks the first `count` outstanding bodies as acknowledged.
    fn forget(&mut self, count: usize)
        requires { count ≤ length self.old.sent }
        ensures { (s : Sending) → IsKeptOf self.old s → IsKeptOf self.new (forget (s.acked + count) s) }
    {
        self.sent.rotate_left(count);
        self.outstanding -= count;
        self.acked += count as u32;
        drop_front(&mut self.bodies, count);
    }
}

// Drops the first `count` bodies.
fn drop_front(bodies: &mut VecDeque<Body>, count: usize)
    requires { count ≤ length bodies.old.items }
    ensures { bodies.new.items ≡ drop count bodies.old.items }
{
    'dropped: for _ in 0..count {
        let _acknowledged = bodies.pop_front();
    }
}

// The first position with a tick that is at most `latest`.
fn first_until(ticks: &[u64], latest: u64) -> Option<usize>
    ensures some { IfSome result (λ i. (i < length ticks.now) × (slice_index_or ticks.now i 0 ≤ latest)) }
    ensures least { IfSome result (λ i. (j : ℕ) → j < i → latest < slice_index_or ticks.now j 0) }
    ensures none { IfNone result ((j : ℕ) → j < length ticks.now → latest < slice_index_or ticks.now j 0) }
{
    'ticks: for i in 0..ticks.len() {
        if ticks[i] <= latest {
            return Some(i);
        }
    }
    None
}
