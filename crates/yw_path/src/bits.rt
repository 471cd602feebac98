// Sets of numbers.
ghost use Rattle.std.specs.Prelude.{◌≡◌, ◌<◌, ℕ, bit_or, get_or, length};

use std::alloc::{AllocError, Global};
use std::marker::Model;

/// A set of numbers, a bit for each. A contract sees it as its words of 64 bits.
#[derive(Debug, Drop)]
pub struct BitRow {
    words: Vec<u64>,
}

impl Model for BitRow {
    ghost use Rattle.std.specs.Prelude.{List, ℕ};

    ghost Value = { List ℕ };

    ghost view = { λ r. r.words.items };
}

/// Adds the bits of other words, one for one.
fn join_words(words: &mut [u64], other: &[u64])
    requires { length other.now ≡ length words.old }
    ensures { (i : ℕ) → i < length words.old → get_or words.new i 0 ≡ bit_or (get_or words.old i 0) (get_or other.now i 0) }
{
    for w in 0..words.len() {
        words[w] |= other[w];
    }
}

impl BitRow {
    ghost use Rattle.std.specs.Prelude.{◌≡◌, ◌↔◌, ◌<◌, ◌/◌, All, Contains, IfOk, IsTrue, get_or, length, replicate};
    ghost use Rattle.yw_path.specs.Bits.{Adds, AddsOne, Has, words_for};

    /// The empty set, with room for numbers below `count`.
    pub fn empty(alloc: Global, count: usize) -> Result<BitRow, AllocError>
        ensures { IfOk result (λ r. r ≡ replicate (words_for count) 0) }
    {
        let words = vec![in alloc; 0; count / 64 + 1]?;
        Ok(BitRow { words })
    }

    /// The same set.
    pub fn copy(&self, alloc: Global) -> Result<BitRow, AllocError>
        ensures { IfOk result (λ r. r ≡ self.now) }
    {
        let words = Vec::from_slice(alloc, &self.words)?;
        Ok(BitRow { words })
    }

    /// The bits of the numbers from 64 times w on; none past the end.
    pub fn word(&self, w: usize) -> u64
        ensures { result ≡ get_or self.now w 0 }
    {
        self.words.get(w).copied().unwrap_or(0)
    }

    /// The number is in the set.
    pub fn has(&self, k: usize) -> bool
        ensures { IsTrue result ↔ Has self.now k }
    {
        (self.word(k / 64) >> (k % 64)) & 1 == 1
    }

    /// Adds a number.
    pub fn insert(&mut self, k: usize)
        requires { k / 64 < length self.old }
        ensures { AddsOne k self.old self.new }
    {
        self.words[k / 64] |= 1 << (k % 64);
    }

    /// Adds each number of a list.
    pub fn insert_all(&mut self, ks: &[usize])
        requires { All (λ k. k / 64 < length self.old) ks.now }
        ensures { Adds (Contains ks.now) self.old self.new }
    {
        for k in ks {
            self.insert(*k);
        }
    }

    /// Adds each number of another set.
    pub fn join(&mut self, other: &BitRow)
        requires { length other.now ≡ length self.old }
        ensures { Adds (Has other.now) self.old self.new }
    {
        join_words(&mut self.words, &other.words);
    }
}
