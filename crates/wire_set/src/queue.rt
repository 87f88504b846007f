//! Queues of slips. A slip is in at most one queue, so all queues are chains in one list of slots.

ghost use Rattle.std.specs.Prelude.{◌≡◌, ◌≢◌, ◌+◌, ◌-◌, ◌<◌, ◌≤◌, ◌++◌, ◌∷◌, [], ℕ, length, take, drop};
ghost use Rattle.std.specs.Prelude.{replicate};
ghost use Rattle.std.specs.Prelude.{None, Some, IfOk, slice_index_or, vec_capacity};
ghost use Rattle.frame_region.specs.declared.region.TheConstants.{MOST_BLOCKS};
ghost use Rattle.wire_set.specs.Queues.{QueuesOf, IsApart, IsNew, empty, queue_at, slot, with_queue};

use common_values::memory::OutOfMemory;
use frame_region::region::Slip;
use std::alloc::Global;
use std::marker::Model;

// The first and the last slip of a queue, by number, and the length of the queue.
#[derive(Clone, Copy)]
struct Queue {
    first: u32,
    last: u32,
    count: u32,
}

/// Queues of slips that share their slots: the slot of a slip is at the slip's number.
///
/// The memory for the slots is allocated at once. A slot is first used when a slip with its number, or a
/// higher one, is first put in a queue.
#[derive(Drop)]
pub struct Queues {
    slips: Vec<Option<Slip>>,
    next: Vec<u32>,
    queues: Vec<Queue>,
    places: u32,
}

impl Model for Queues {
    ghost use Rattle.std.specs.Prelude.{◌≤◌, vec_capacity};
    ghost use Rattle.wire_set.specs.Queues.{QueuesOf, shown, IsLinked};

    ghost Value = { QueuesOf };

    ghost view = { λ q. shown q.next.items q.queues.items q.places };

    ghost invariant = { λ q. IsLinked q.slips.items q.next.items q.queues.items q.places
        × (q.places ≤ vec_capacity q.slips) × (q.places ≤ vec_capacity q.next) };
}

// The queue with one more slip at its end.
fn appended(queue: Queue, number: u32) -> Queue
    requires { queue.count ≤ MOST_BLOCKS }
    ensures first { queue.count ≡ 0 → result.first ≡ number }
    ensures kept { 1 ≤ queue.count → result.first ≡ queue.first }
    ensures last { result.last ≡ number }
    ensures count { result.count ≡ queue.count + 1 }
{
    Queue {
        first: if queue.count == 0 {
            number
        } else {
            queue.first
        },
        last: number,
        count: queue.count + 1,
    }
}

// The slip that slip `number` follows in the queue: the last one, or itself if the queue is empty.
fn place_before(queue: Queue, number: u32) -> u32
    ensures empty { queue.count ≡ 0 → result ≡ number }
    ensures some { 1 ≤ queue.count → result ≡ queue.last }
{
    if queue.count == 0 { number } else { queue.last }
}

// The queue without its second slip.
fn shortened(queue: Queue, second: u32) -> Queue
    requires { 1 ≤ queue.count }
    ensures first { result.first ≡ queue.first }
    ensures only { second ≡ queue.last → result.last ≡ queue.first }
    ensures last { second ≢ queue.last → result.last ≡ queue.last }
    ensures count { result.count + 1 ≡ queue.count }
{
    Queue {
        first: queue.first,
        last: if second == queue.last {
            queue.first
        } else {
            queue.last
        },
        count: queue.count - 1,
    }
}

fn empty_queues(alloc: Global, queues: usize) -> Result<Vec<Queue>, OutOfMemory>
    ensures { IfOk result (λ all. all.items ≡ replicate queues empty) }
{
    let mut all = Vec::with_capacity(alloc, queues)?;
    'queues: for _ in 0..queues {
        all.push(Queue {
            first: 0,
            last: 0,
            count: 0,
        })?;
    }
    Ok(all)
}

// Makes the lists long enough for slot `number`, without allocating.
fn reach(slips: &mut Vec<Option<Slip>>, next: &mut Vec<u32>, number: u32)
    requires size { length slips.old.items ≡ length next.old.items }
    requires slips { number < vec_capacity slips.old }
    requires next { number < vec_capacity next.old }
    ensures there { (number < length slips.new.items) × (number < length next.new.items) }
    ensures slips { slips.new.items
        ≡ slips.old.items ++ replicate (number + 1 - length next.old.items) None }
    ensures next { next.new.items
        ≡ next.old.items ++ replicate (number + 1 - length next.old.items) 0 }
    ensures room { (vec_capacity slips.new ≡ vec_capacity slips.old)
        × (vec_capacity next.new ≡ vec_capacity next.old) }
{
    'places: for _ in next.len()..number as usize + 1 {
        slips.push_reserved(None);
        next.push_reserved(0);
    }
}

impl Queues {
    /// Creates `queues` empty queues with `places` slots, at most 1,048,576.
    ///
    /// # Errors
    /// `OutOfMemory` if an allocation fails.
    pub fn new(alloc: Global, queues: usize, places: u32) -> Result<Self, OutOfMemory>
        requires { places ≤ MOST_BLOCKS }
        ensures { IfOk result (λ all. all ≡ record { queues = replicate queues []; places = places }) }
    {
        Ok(Queues {
            slips: Vec::with_capacity(alloc, places as usize)?,
            next: Vec::with_capacity(alloc, places as usize)?,
            queues: empty_queues(alloc, queues)?,
            places,
        })
    }

    /// Returns the number of slips in queue `q`, at most 1,048,576.
    pub fn len(&self, q: usize) -> u32
        requires { q < length self.now.queues }
        ensures len { result ≡ length (queue_at self.now q) }
        ensures most { result ≤ MOST_BLOCKS }
        ensures apart { IsApart self.now }
    {
        self.queues[q].count
    }

    /// Appends a slip, which must be in no queue, to queue `q`.
    pub fn push(&mut self, q: usize, slip: Slip)
        requires q { q < length self.old.queues }
        requires place { slip < self.old.places }
        requires room { length (queue_at self.old q) < self.old.places }
        requires new { IsNew slip self.old }
        ensures { self.new ≡ with_queue q (queue_at self.old q ++ slip ∷ []) self.old }
    {
        let queue = self.queues[q];
        let number = slip.number();
        reach(&mut self.slips, &mut self.next, number);
        self.next[place_before(queue, number) as usize] = number;
        self.slips[number as usize] = Some(slip);
        self.queues[q] = appended(queue, number);
    }

    /// Removes and returns the first slip of queue `q`, which must have one.
    pub fn pop(&mut self, q: usize) -> Slip
        requires { 1 ≤ length (queue_at self.old q) }
        ensures slip { result ≡ slot self.old q 0 }
        ensures rest { self.new ≡ with_queue q (drop 1 (queue_at self.old q)) self.old }
        ensures apart { IsApart self.old }
        ensures place { result < self.old.places }
    {
        let queue = self.queues[q];
        let slip = self.slips[queue.first as usize].take();
        self.queues[q] = Queue {
            first: self.next[queue.first as usize],
            last: queue.last,
            count: queue.count - 1,
        };
        slip.unwrap()
    }

    /// Removes and returns the second slip of queue `q`, which must have two.
    pub fn pop_second(&mut self, q: usize) -> Slip
        requires { 2 ≤ length (queue_at self.old q) }
        ensures slip { result ≡ slot self.old q 1 }
        ensures rest { self.new
            ≡ with_queue q (take 1 (queue_at self.old q) ++ drop 2 (queue_at self.old q)) self.old }
        ensures apart { IsApart self.old }
        ensures place { result < self.old.places }
    {
        let queue = self.queues[q];
        let second = self.next[queue.first as usize];
        let slip = self.slips[second as usize].take();
        self.next[queue.first as usize] = self.next[second as usize];
        self.queues[q] = shortened(queue, second);
        slip.unwrap()
    }
}
