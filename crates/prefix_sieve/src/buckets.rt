//! Sums by bucket.

ghost use Rattle.std.specs.Prelude.{◌≡◌, ℕ, ◌%◌, ◌^◌, ◌≤◌, ◌<◌, length, replicate, IfOk};
ghost use Rattle.prefix_sieve.specs.Buckets.{capped, sum_of, raised, reaches, flags_of, AreJoined};

use super::level::{Level, level_of};
use mine_model::NoMemory;
use std::alloc::Global;
use std::marker::Model;

/// A worker's sums of weights by bucket, of prefixes of some lengths. A bucket is four bytes, and a sum stops
/// at the greatest number that they hold. How many buckets there are is a power of two.
#[derive(Drop)]
pub struct Buckets {
    sums: Vec<u32>,
}

impl Model for Buckets {
    ghost use Rattle.std.specs.Prelude.{◌≡◌, ℕ, ◌+◌, ◌^◌, List, length};

    ghost Value = { List ℕ };

    ghost view = { λ b. b.sums.items };

    ghost invariant = { λ b. (bits : ℕ) × (length b.sums.items ≡ 2 ^ (bits + 6)) };
}

impl Buckets {
    /// Buckets for so many bits of a hash, all empty.
    pub fn new(alloc: Global, bits: u32) -> Result<Buckets, NoMemory>
        requires least { 6 ≤ bits }
        requires most { bits ≤ 31 }
        ensures { IfOk result (λ buckets. buckets ≡ replicate (2 ^ bits) 0) }
    {
        let count: usize = 1 << bits;
        Ok(Buckets {
            sums: vec![in alloc; 0u32; count]?,
        })
    }

    /// Adds the weight to the bucket of the hash.
    #[inline]
    pub fn add(&mut self, hash: u64, weight: u64)
        ensures raised { self.new ≡ raised self.old hash weight }
        ensures long { length self.new ≡ length self.old }
        ensures here { sum_of self.new hash ≡ capped (sum_of self.old hash) weight }
        ensures never_less { (other : ℕ) → sum_of self.old other ≤ sum_of self.new other }
    {
        let bucket = bucket_of(self.sums.len(), hash);
        self.sums[bucket] = capped(self.sums[bucket], weight);
    }

    /// Adds another worker's sums, bucket by bucket.
    pub fn join(&mut self, others: &Buckets)
        requires { length others.now ≡ length self.old }
        ensures { AreJoined self.old others.now self.new }
    {
        join(self.sums.as_mut_slice(), others.sums.as_slice());
    }

    /// Whether the bucket of the hash reaches the threshold.
    #[inline]
    pub fn passes(&self, hash: u64, threshold: u64) -> bool
        ensures { result ≡ reaches threshold (sum_of self.now hash) }
    {
        let bucket = bucket_of(self.sums.len(), hash);
        reaches(threshold, self.sums[bucket])
    }

    /// Which buckets reach the threshold. It takes a bit for each.
    pub fn level(&self, alloc: Global, threshold: u64) -> Result<Level, NoMemory>
        ensures { IfOk result (λ level. level ≡ flags_of threshold self.now) }
    {
        level_of(alloc, self.sums.as_slice(), threshold)
    }

    /// Empties all buckets, for the next pass.
    pub fn clear(&mut self)
        ensures { self.new ≡ replicate (length self.old) 0 }
    {
        self.sums.as_mut_slice().fill(0);
    }
}

// The bucket of the hash.
#[inline]
fn bucket_of(count: usize, hash: u64) -> usize
    requires { (bits : ℕ) × (count ≡ 2 ^ bits) }
    ensures within { result < count }
    ensures bucket { result ≡ hash % count }
{
    hash as usize & (count - 1)
}

// The sum with the weight more.
#[inline]
fn capped(sum: u32, weight: u64) -> u32
    ensures { result ≡ capped sum weight }
{
    if weight >= u64::from(u32::MAX - sum) {
        u32::MAX
    } else {
        sum + weight as u32
    }
}

// Whether the sum reaches the threshold, or stopped before it.
#[inline]
pub(crate) fn reaches(threshold: u64, sum: u32) -> bool
    ensures { result ≡ reaches threshold sum }
{
    u64::from(sum) >= threshold || sum == u32::MAX
}

// Adds the others to the sums, each at its place.
fn join(sums: &mut [u32], others: &[u32])
    requires { length others.now ≡ length sums.old }
    ensures { AreJoined sums.old others.now sums.new }
{
    for at in 0..sums.len() {
        sums[at] = capped(sums[at], u64::from(others[at]));
    }
}
