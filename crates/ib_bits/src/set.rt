ghost use Rattle.std.specs.Prelude.{◌≡◌, ◌≢◌, ◌↔◌, ◌*◌, ◌<◌, ◌≤◌, ℕ, ◌⊎◌, IsTrue, IfOk, length, true, false};
ghost use Rattle.ib_bits.specs.Bits.{Has, IsEmpty, room};

use sqlite_items::Items;
use std::alloc::{AllocError, Global};
use std::marker::Model;

/// How many numbers a word tells of.
const BITS: u32 = 64;

/// A set of numbers below 64 times its number of words.
#[derive(Drop)]
pub struct BitSet {
    words: Vec<u64>,
}

impl Model for BitSet {
    ghost use Rattle.std.specs.Prelude.{List, ℕ};

    ghost Value = { List ℕ };

    ghost view = { λ set. set.words.items };
}

impl BitSet {
    /// The empty set, of so many words.
    #[tactic(auto, using(crate::proofs::Words::empty_new))]
    pub fn new(alloc: Global, words: usize) -> Result<BitSet, AllocError>
        ensures { IfOk result (λ set. (length set ≡ words) × IsEmpty set) }
    {
        let words = vec![in alloc; 0; words]?;
        Ok(BitSet { words })
    }

    /// Whether it holds the number.
    pub fn contains(&self, number: u32) -> bool
        ensures { IsTrue result ↔ Has self.now number }
    {
        let at = (number / BITS) as usize;
        at < self.words.len() && (self.words[at] >> (number % BITS)) & 1 == 1
    }

    /// Takes the number in.
    pub fn insert(&mut self, number: u32)
        requires { number < 64 * length self.old }
        ensures holds { (k : ℕ) → Has self.new k ↔ ((k ≡ number) ⊎ Has self.old k) }
        ensures size { length self.new ≡ length self.old }
    {
        self.words[(number / BITS) as usize] |= 1 << (number % BITS);
    }

    /// Leaves the number out.
    pub fn remove(&mut self, number: u32)
        ensures holds { (k : ℕ) → Has self.new k ↔ ((k ≢ number) × Has self.old k) }
        ensures size { length self.new ≡ length self.old }
    {
        let at = (number / BITS) as usize;
        if at < self.words.len() {
            self.words[at] &= !(1 << (number % BITS));
        }
    }

    /// Leaves every number out.
    pub fn clear(&mut self)
        ensures empty { IsEmpty self.new }
        ensures size { length self.new ≡ length self.old }
    {
        self.words.fill(0);
    }

    /// Takes in what the other holds. Answers whether any of it is new.
    pub fn join(&mut self, other: &BitSet) -> bool
        requires { length other.now ≡ length self.old }
        ensures holds { (k : ℕ) → Has self.new k ↔ (Has self.old k ⊎ Has other.now k) }
        ensures size { length self.new ≡ length self.old }
        ensures same { result ≡ false → self.new ≡ self.old }
        ensures grows { result ≡ true → room self.new < room self.old }
    {
        let mut grown = false;
        for i in 0..self.words.len() {
            let word = self.words[i];
            let joined = word | other.words[i];
            if joined != word {
                self.words[i] = joined;
                grown = true;
            }
        }
        grown
    }
}
