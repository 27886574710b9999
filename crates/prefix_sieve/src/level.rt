//! Flags by bucket.

ghost use Rattle.std.specs.Prelude.{◌≡◌, ◌≢◌, ℕ, ◌+◌, ◌^◌, ◌≤◌, ◌<◌, length, slice_index_or, IfOk};
ghost use Rattle.std.specs.Int.{bit_at};
ghost use Rattle.prefix_sieve.specs.Buckets.{reaches, flags_of, flag_of};
ghost use Rattle.prefix_sieve.specs.Bits.{has_bit, flags_in};

use super::buckets::reaches;
use mine_model::NoMemory;
use std::alloc::Global;
use std::marker::Model;

/// Which buckets reached the threshold, over all workers: a bit for each, so that a level of a million
/// buckets stays in the caches. A contract sees a flag for each bucket.
#[derive(Drop)]
pub struct Level {
    words: Vec<u64>,
}

impl Model for Level {
    ghost use Rattle.std.specs.Prelude.{◌≡◌, ℕ, ◌^◌, Bool, List, length};
    ghost use Rattle.prefix_sieve.specs.Bits.{flags_in};

    ghost Value = { List Bool };

    ghost view = { λ l. flags_in l.words.items };

    ghost invariant = { λ l. (bits : ℕ) × (length l.words.items ≡ 2 ^ bits) };
}

impl Level {
    /// Whether the bucket of the hash is one of those that reached the threshold.
    #[inline]
    pub fn passes(&self, hash: u64) -> bool
        ensures { result ≡ flag_of self.now hash }
    {
        has_flag(self.words.as_slice(), hash)
    }
}

#[inline]
fn has_flag(words: &[u64], hash: u64) -> bool
    requires { (bits : ℕ) × (length words.now ≡ 2 ^ bits) }
    ensures { result ≡ flag_of (flags_in words.now) hash }
{
    let at = (hash / 64) as usize & (words.len() - 1);
    (words[at] >> ((hash % 64) as u32)) & 1 == 1
}

/// The flags of these sums.
pub(crate) fn level_of(alloc: Global, sums: &[u32], threshold: u64) -> Result<Level, NoMemory>
    requires { (bits : ℕ) × (length sums.now ≡ 2 ^ (bits + 6)) }
    ensures { IfOk result (λ level. level ≡ flags_of threshold sums.now) }
{
    let count = sums.len() / 64;
    let mut words = Vec::with_capacity(alloc, count)?;
    for at in 0..count {
        words.push(word_of(sums, at * 64, threshold))?;
    }
    Ok(Level { words })
}

// The flags of 64 sums.
fn word_of(sums: &[u32], first: usize, threshold: u64) -> u64
    requires { first + 64 ≤ length sums.now }
    ensures { (k : ℕ) → k < 64
        → has_bit result k ≡ reaches threshold (slice_index_or sums.now (first + k) 0) }
{
    let mut word = 0;
    for at in 0..64u32 {
        word = with_bit(word, at, reaches(threshold, sums[first + at as usize]));
    }
    word
}

// The word with the bit set or not.
fn with_bit(word: u64, at: u32, on: bool) -> u64
    requires within { at < 64 }
    requires free { bit_at word at ≡ 0 }
    ensures here { has_bit result at ≡ on }
    ensures others { (k : ℕ) → k ≢ at → bit_at result k ≡ bit_at word k }
{
    if on { word | 1 << at } else { word }
}
