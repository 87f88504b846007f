//! A graph as rows of bits. A node leads only to the 4,096 nodes from its base on, at most, so rows can be short.

ghost use Rattle.std.specs.Prelude.{◌≡◌, ◌<◌, ◌≤◌, ◌+◌, ◌*◌, ◌^◌, ◌⊎◌, ◌↔◌, ℕ, length, slice_index, IfOk, IfSome};
ghost use Rattle.std.specs.Prelude.{IsTrue, MatchOption, replicate};
ghost use Rattle.common_graph.specs.Graph.{AreWithin, HasNoNext, IsNext, LeadsTo, word_at};
ghost use Rattle.common_graph.specs.Rows.{FindsBits, IsMasked, StandsAt};

use crate::bits::{lowest, without};
use common_values::memory::OutOfMemory;
use std::alloc::Global;
use std::marker::Model;

/// A directed graph whose nodes are numbers from 0 on.
///
/// Each node has a row of bits; bit 0 represents the node that is its base. Contracts see the number
/// of 64-bit words of a row, the bases, and the words of all rows.
#[derive(Drop)]
pub struct Graph {
    wide: usize,
    bases: Vec<u32>,
    words: Vec<u64>,
}

impl Model for Graph {
    ghost use Rattle.std.specs.Prelude.{◌*◌, ◌^◌, ◌≡◌, ◌≤◌, ◌<◌, length};
    ghost use Rattle.common_graph.specs.Graph.{AreWithin, GraphOf};

    ghost Value = { GraphOf };

    ghost view = { λ d. record { wide = d.wide; bases = d.bases.items; words = d.words.items } };

    ghost invariant = { λ d. (length d.words.items ≡ length d.bases.items * d.wide) × (d.wide ≤ 64)
        × (length d.bases.items < 2 ^ 31)
        × AreWithin (record { wide = d.wide; bases = d.bases.items; words = d.words.items }) };
}

/// A step from a node to a node that it leads to.
#[derive(Clone, Copy)]
pub struct Step {
    /// The node that the step leaves.
    pub node: usize,
    /// The node that the step reaches.
    pub next: usize,
}

/// A position in the row of a node, where `Graph::advance` continues. It keeps the rest of its current word.
#[derive(Clone, Copy)]
pub struct Cursor {
    // The lowest node that is still to come.
    from: usize,
    // The number of the word in the row.
    part: usize,
    // The node that bit 0 of the word represents.
    first: usize,
    // Its bits that are still to come.
    rest: u64,
}

// The bits of a word from one on.
#[inline]
fn bits_from(word: u64, from: usize) -> u64
    requires { from < 64 }
    ensures { IsMasked word from result }
{
    word >> from << from
}

impl Graph {
    /// Creates a graph with one node per base, rows of `wide` words, and no steps.
    ///
    /// The caller must pass a `wide` of at most 64 and fewer than 2^31 bases.
    ///
    /// # Errors
    /// `OutOfMemory` if the allocation fails.
    pub fn none(alloc: Global, bases: Vec<u32>, wide: usize) -> Result<Graph, OutOfMemory>
        requires wide { wide ≤ 64 }
        requires few { length bases.items < 2 ^ 31 }
        ensures { IfOk result (λ d.
            d ≡ record { wide = wide; bases = bases.items; words = replicate (length bases.items * wide) 0 }) }
    {
        let words = vec![in alloc; 0u64; bases.len() * wide]?;
        Ok(Graph { wide, bases, words })
    }

    /// Returns the number of nodes, fewer than 2^31. Nodes lead only to nodes.
    #[inline]
    pub fn count(&self) -> usize
        ensures count { result ≡ length self.now.bases }
        ensures few { result < 2 ^ 31 }
        ensures within { AreWithin self.now }
    {
        self.bases.len()
    }

    /// Returns the number of words in a row, at most 64.
    #[inline]
    pub fn wide(&self) -> usize
        ensures wide { result ≡ self.now.wide }
        ensures most { result ≤ 64 }
    {
        self.wide
    }

    /// Returns the base of `node`. The caller must pass a node of the graph.
    #[inline]
    pub fn base(&self, node: usize) -> usize
        requires { node < length self.now.bases }
        ensures base { result ≡ slice_index self.now.bases node }
        ensures most { result < 2 ^ 32 }
    {
        self.bases[node] as usize
    }

    // A word of the row of a node.
    #[inline]
    fn word(&self, node: usize, part: usize) -> u64
        requires node { node < length self.now.bases }
        requires part { part < self.now.wide }
        ensures { result ≡ word_at self.now node part }
    {
        self.words[node * self.wide + part]
    }

    // The place at the end of a row.
    #[inline]
    fn end(&self, from: usize) -> Cursor
        ensures end { result ≡ record { from = from; part = self.now.wide; first = 0; rest = 0 } }
        ensures few { self.now.wide ≤ 64 }
    {
        Cursor {
            from,
            part: self.wide(),
            first: 0,
            rest: 0,
        }
    }

    /// Returns the position in the row of `node` where the nodes numbered `from` and above are still to come.
    #[inline]
    pub fn cursor(&self, node: usize, from: usize) -> Cursor
        ensures stands { StandsAt self.now node result }
        ensures from { result.from ≡ from }
    {
        if node >= self.count() {
            return self.end(from);
        }
        let base = self.base(node);
        let offset = from.saturating_sub(base);
        let part = offset / 64;
        if part >= self.wide() {
            return self.end(from);
        }
        Cursor {
            from,
            part,
            first: base + 64 * part,
            rest: bits_from(self.word(node, part), offset % 64),
        }
    }

    // Moves to the next word with bits left, if the current word of the cursor has none. Reports whether
    // there is one.
    #[inline]
    fn find_bits(&self, node: usize, cursor: &mut Cursor) -> bool
        requires { StandsAt self.now node cursor.old }
        ensures { FindsBits self.now node cursor.old cursor.new result }
    {
        'parts: while cursor.rest == 0 {
            let part = cursor.part + 1;
            if part >= self.wide() || node >= self.count() {
                return false;
            }
            cursor.part = part;
            cursor.first += 64;
            cursor.rest = self.word(node, part);
        }
        true
    }

    /// Returns the next node that `node` leads to from `cursor` on, and moves `cursor` past it.
    ///
    /// The caller must pass a cursor of the same node and graph.
    #[inline]
    pub fn advance(&self, node: usize, cursor: &mut Cursor) -> Option<usize>
        requires { StandsAt self.now node cursor.old }
        ensures next { MatchOption result (HasNoNext self.now node cursor.old.from)
            (IsNext self.now node cursor.old.from) }
        ensures past { IfSome result (λ next. cursor.new.from ≡ next + 1) }
        ensures stands { StandsAt self.now node cursor.new }
        ensures low { IfSome result (λ next. next < length self.now.bases) }
        ensures few { IfSome result (λ next. next < 2 ^ 31) }
    {
        if !self.find_bits(node, cursor) {
            return None;
        }
        let bit = lowest(cursor.rest);
        let next = cursor.first + bit;
        cursor.rest = without(cursor.rest, bit);
        cursor.from = next + 1;
        Some(next)
    }

    /// Returns the lowest node, from the number `from` on, that `node` leads to.
    pub fn next(&self, node: usize, from: usize) -> Option<usize>
        ensures next { MatchOption result (HasNoNext self.now node from) (IsNext self.now node from) }
        ensures low { IfSome result (λ next. next < length self.now.bases) }
        ensures few { IfSome result (λ next. next < 2 ^ 31) }
    {
        let mut cursor = self.cursor(node, from);
        self.advance(node, &mut cursor)
    }

    /// Reports whether `node` leads to `other`.
    pub fn leads(&self, node: usize, other: usize) -> bool
        ensures { IsTrue result ↔ LeadsTo self.now node other }
    {
        match self.next(node, other) {
            Some(next) => next == other,
            None => false,
        }
    }

    /// Adds the step from `node` to the node `offset` above its base, and changes nothing else.
    ///
    /// The caller must pass a node, and an offset that is within its row and reaches a node of the graph.
    #[inline]
    pub fn insert(&mut self, node: usize, offset: usize)
        requires node { node < length self.old.bases }
        requires offset { offset < 64 * self.old.wide }
        requires within { slice_index self.old.bases node + offset < length self.old.bases }
        ensures wide { self.new.wide ≡ self.old.wide }
        ensures bases { self.new.bases ≡ self.old.bases }
        ensures leads { (one other : ℕ) → (LeadsTo self.new one other
            ↔ (LeadsTo self.old one other ⊎ ((one ≡ node) × (other ≡ slice_index self.old.bases node + offset)))) }
    {
        let place = node * self.wide + offset / 64;
        let word = self.words[place];
        self.words[place] = word | 1u64 << (offset % 64);
    }
}
