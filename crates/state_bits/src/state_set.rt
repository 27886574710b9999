ghost use Rattle.std.specs.Prelude.{◌≡◌, ℕ, ◌+◌, ◌*◌, ◌^◌, ◌<◌, ◌≤◌, ◌⊎◌, ◌↔◌, ◌==◌, IsTrue, All, Contains};
ghost use Rattle.std.specs.List.Sorted.{IsStrictlyIncreasing};
ghost use Rattle.std.proofs.Common.{rules};
ghost use Rattle.std.specs.Cmp.Rules.{comparing};
ghost use Rattle.std.specs.Hash as fed;
ghost use Rattle.std.specs.Hash.{same_Alike};
ghost use Rattle.std.proofs.lemmas.Bool.Decides.{Decides-eqb};
ghost use Rattle.state_bits.specs.Members.{Has, HasBit, words_of};

use super::state_iter::StateIter;
use super::words::{are_zero, join_words, keep_words};
use std::hash::{Hash, Hasher};
use std::marker::Model;

/// A set of states below `64 * W`, in `W` words. It takes no memory of its own. A contract sees the number
/// whose bit q is 1 where q is a member, whatever the width. A function over any width that holds such a set
/// by value has to require a bound on `W`, as `W ≤ 17`: a type's size is below `2 ^ 63`.
#[derive(Clone, Copy, Debug)]
pub struct StateSet<const W: usize> {
    words: [u64; W],
}

impl<const W: usize> Model for StateSet<W> {
    ghost use Rattle.std.specs.Prelude.{ℕ};
    ghost use Rattle.state_bits.specs.Members.{words_of};
    ghost use Rattle.state_bits.specs.Words.{joined, AreWords};
    ghost use Rattle.state_bits.specs.WordLaws.{words_of_set};
    ghost use Rattle.std.proofs.Common.{ap};

    ghost Value = { ℕ };

    ghost view = { λ s. joined s.words };

    ghost invariant = { λ s. AreWords W s.words };

    ghost inverse = { λ n. record { words = words_of W n } };

    ghost inverse_ok = { λ a h. ap (λ ws. record { words = ws }) (words_of_set W a.words h) };
}

impl<const W: usize> StateSet<W> {
    /// The empty set.
    pub fn new() -> StateSet<W>
        ensures { result ≡ 0 }
    {
        StateSet { words: [0; W] }
    }

    /// Makes q a member.
    pub fn add(&mut self, q: u32)
        requires { q < 64 * W }
        ensures { (r : ℕ) → Has self.new r ↔ (Has self.old r ⊎ (r ≡ q)) }
    {
        self.words[(q / 64) as usize] |= 1 << (q % 64);
    }

    /// Whether q is a member.
    pub fn has(&self, q: u32) -> bool
        requires { q < 64 * W }
        ensures { IsTrue result ↔ Has self.now q }
    {
        (self.words[(q / 64) as usize] >> (q % 64)) & 1 == 1
    }

    /// Whether the set has no member.
    pub fn is_empty(&self) -> bool
        ensures { IsTrue result ↔ (self.now ≡ 0) }
    {
        are_zero(&self.words)
    }

    /// Takes every member out.
    pub fn clear(&mut self)
        ensures { self.new ≡ 0 }
    {
        *self = StateSet::new();
    }

    /// Adds the members of `other`.
    pub fn union_with(&mut self, other: &StateSet<W>)
        ensures { (r : ℕ) → Has self.new r ↔ (Has self.old r ⊎ Has other.now r) }
    {
        join_words(&mut self.words, &other.words);
    }

    /// Keeps the members that `other` has too.
    pub fn intersect_with(&mut self, other: &StateSet<W>)
        ensures { (r : ℕ) → Has self.new r ↔ (Has self.old r × Has other.now r) }
    {
        keep_words(&mut self.words, &other.words);
    }

    /// Keeps the members whose bits these words have, the lowest states first.
    pub fn intersect_with_words(&mut self, words: &[u64])
        ensures { (r : ℕ) → Has self.new r ↔ (Has self.old r × HasBit words.now r) }
    {
        keep_words(&mut self.words, words);
    }

    /// The set's words, the lowest states first.
    pub fn words(&self) -> &[u64]
        ensures { result.now ≡ words_of W self.now }
    {
        &self.words
    }

    /// The members, rising.
    pub fn iter(&self) -> StateIter<'_, W>
        ensures rising { IsStrictlyIncreasing result }
        ensures members { (q : ℕ) → Contains result q ↔ Has self.now q }
        ensures within { All (λ q. q < 64 * W) result }
    {
        StateIter::over(&self.words)
    }
}

impl<const W: usize> PartialEq for StateSet<W> {
    ghost eq = { λ a b. a == b };

    ghost laws = { Prim.search (comparing, rules) };

    fn eq(&self, other: &StateSet<W>) -> bool {
        self.words == other.words
    }
}

impl<const W: usize> Eq for StateSet<W> {
    ghost laws = { Prim.search (comparing, rules) };
}

impl<const W: usize> Hash for StateSet<W> {
    ghost hash_input = { λ a. fed.slice fed.u64 (words_of W a) };

    ghost respects_eq = { (same_Alike (λ a. fed.slice fed.u64 (words_of W a)) Decides-eqb).fed };

    fn hash<H: Hasher>(&self, state: &mut H) {
        self.words.hash(state);
    }
}
