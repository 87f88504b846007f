//! Finds the first of many requests that names a free port, without visiting the requests before it.

ghost use Rattle.std.specs.Prelude.{◌≡◌, ◌<◌, ◌≤◌, ◌+◌, ◌*◌, ◌++◌, ◌^◌, ℕ, drop, length, replicate};
ghost use Rattle.std.specs.Prelude.{slice_index, slice_set, vec_capacity, All, IfOk, IsTrue, MatchOption};
ghost use Rattle.std.specs.Int.{IsPowerOfTwo};
ghost use Rattle.fcfc_router.specs.Tree.{HasNone, IsFirst, IsHalf, IsTree};

use common_values::memory::OutOfMemory;
use std::alloc::Global;
use std::marker::Model;

/// A list of sets of ports, whose length is a power of two. Contracts see it as the list of all sets.
///
/// It keeps the union of the sets in each half, quarter and so on of the list, so that the first set with
/// one of some ports is found in logarithmic time. It keeps only as many sets as were needed; the sets after
/// them are empty.
#[derive(Drop)]
pub struct PortTree {
    // The union of the kept places at 1, those of the two halves at 2 and 3, and so on; the sets last.
    unions: Vec<u16>,
    // How many places are kept, and how many there are.
    kept: usize,
    places: usize,
}

impl Model for PortTree {
    ghost use Rattle.std.specs.Prelude.{ℕ, List, vec_capacity};
    ghost use Rattle.fcfc_router.specs.Tree.{all_sets, IsGrown};

    ghost Value = { List ℕ };

    ghost view = { λ t. all_sets t.kept t.places t.unions.items };

    ghost invariant = { λ t. IsGrown t.kept t.places (vec_capacity t.unions) t.unions.items };
}

// The one of the two nodes below a node that has one of these ports: the second if the first has none.
fn half_with(unions: &[u16], node: usize, ports: u16) -> usize
    requires { 2 * node + 1 < length unions.now }
    ensures { IsHalf unions.now ports node result }
{
    if unions[2 * node] & ports == 0 {
        return 2 * node + 1;
    }
    2 * node
}

// Writes the set of a place, and the unions above it as far as they change.
fn write(unions: &mut [u16], kept: usize, place: usize, set: u16)
    requires tree { IsTree kept unions.old }
    requires most { kept ≤ 2 ^ 15 }
    requires place { place < kept }
    ensures tree { IsTree kept unions.new }
    ensures sets { drop kept unions.new ≡ slice_set (drop kept unions.old) place set }
{
    let leaf = kept + place;
    unions[leaf] = set;
    let mut node = leaf / 2;
    'nodes: while node > 0 {
        let union = unions[2 * node] | unions[2 * node + 1];
        if unions[node] == union {
            return;
        }
        unions[node] = union;
        node /= 2;
    }
}

// Writes the unions over all sets.
fn unite(unions: &mut Vec<u16>, kept: usize)
    requires count { length unions.old.items ≡ 2 * kept }
    requires most { kept ≤ 2 ^ 15 }
    ensures tree { IsTree kept unions.new.items }
    ensures sets { drop kept unions.new.items ≡ drop kept unions.old.items }
    ensures capacity { vec_capacity unions.new ≡ vec_capacity unions.old }
{
    let mut node = kept;
    'nodes: while node > 1 {
        node -= 1;
        unions[node] = unions[2 * node] | unions[2 * node + 1];
    }
}

// Keeps twice as many places. It takes no memory.
fn double(unions: &mut Vec<u16>, kept: usize)
    requires count { length unions.old.items ≡ 2 * kept }
    requires most { 2 * kept ≤ 2 ^ 15 }
    requires room { 4 * kept ≤ vec_capacity unions.old }
    ensures tree { IsTree (2 * kept) unions.new.items }
    ensures sets { drop (2 * kept) unions.new.items ≡ drop kept unions.old.items ++ replicate kept 0 }
    ensures capacity { vec_capacity unions.old ≤ vec_capacity unions.new }
{
    match unions.extend_from_within(kept..) {
        Ok(()) => (),
        Err(_) => unreachable!(),
    }
    match unions.resize(4 * kept, 0) {
        Ok(()) => (),
        Err(_) => unreachable!(),
    }
    unite(unions, 2 * kept);
}

impl PortTree {
    /// Creates a list of `places` empty sets. The caller must pass a power of two up to 2^15.
    ///
    /// # Errors
    /// `OutOfMemory` if the allocation fails.
    pub fn new(alloc: Global, places: usize) -> Result<Self, OutOfMemory>
        requires power { IsPowerOfTwo places }
        requires most { places ≤ 2 ^ 15 }
        ensures { IfOk result (λ tree. tree ≡ replicate places 0) }
    {
        let mut unions = Vec::with_capacity(alloc, 2 * places)?;
        unions.push(0)?;
        unions.push(0)?;
        Ok(PortTree {
            unions,
            kept: 1,
            places,
        })
    }

    /// Returns the number of sets.
    pub fn places(&self) -> usize
        ensures count { result ≡ length self.now }
        ensures most { result ≤ 2 ^ 15 }
    {
        self.places
    }

    /// Returns the number of sets that are kept. All sets after them are empty.
    pub fn kept(&self) -> usize
        ensures within { result ≤ length self.now }
        ensures behind { (place : ℕ) → result ≤ place → slice_index self.now place ≡ 0 }
    {
        self.kept
    }

    /// Reports whether all sets are known to be empty. If it returns `true`, they are.
    pub fn is_empty(&self) -> bool
        ensures { IsTrue result → All (λ set. set ≡ 0) self.now }
    {
        self.unions[1] == 0
    }

    /// Writes `set` at index `place`, which must be below the number of sets. It does not allocate.
    pub fn put(&mut self, place: usize, set: u16)
        requires { place < length self.old }
        ensures { self.new ≡ slice_set self.old place set }
    {
        if place >= self.kept && set == 0 {
            return;
        }
        'places: while place >= self.kept {
            double(&mut self.unions, self.kept);
            self.kept *= 2;
        }
        write(&mut self.unions, self.kept, place, set);
    }

    /// Returns the index of the first set with one of `ports`, or `None` if and only if no set has one.
    pub fn first(&self, ports: u16) -> Option<usize>
        ensures { MatchOption result (HasNone ports self.now) (IsFirst ports self.now) }
    {
        if self.unions[1] & ports == 0 {
            return None;
        }
        let mut node = 1;
        'levels: while node < self.kept {
            node = half_with(&self.unions, node, ports);
        }
        Some(node - self.kept)
    }
}
