//! A worker's share of the sequences.

ghost use Rattle.std.specs.Prelude.{◌^◌, ◌≤◌, ◌<◌, IfOk};
ghost use Rattle.sieve_passes.specs.Shares.{IsShareOf, IsShareWith, IsPassedBy, AreThoseOf};

use super::branches::PartBranches;
use super::passing::pass_over_all;
use mine_model::{Gate, NoMemory};
use mining_job::Job;
use prefix_sieve::{Buckets, Room, Sieve, one_more_sequence};
use std::alloc::Global;
use worker_shares::numbers_of;

/// A worker's sequences, which are entered once for all passes, and its sums for the next level of a sieve.
#[derive(Drop)]
pub struct Share<'a> {
    pub(crate) worker: u32,
    pub(crate) numbers: Vec<u32>,
    pub(crate) branches: PartBranches<'a>,
    pub(crate) buckets: Buckets,
}

impl<'a> Share<'a> {
    /// The number of the worker, those of its sequences, and their branches.
    pub fn into_parts(self) -> (u32, Vec<u32>, PartBranches<'a>)
        ensures { AreThoseOf self.entry result.0 result.1.items result.2 }
    {
        let Share {
            worker,
            numbers,
            branches,
            buckets: _,
        } = self;
        (worker, numbers, branches)
    }
}

/// A worker's share, with so many buckets, 2^`bits`. Its sequences are entered.
pub(crate) fn entered<'a>(
    alloc: Global,
    job: &'a Job,
    workers: u32,
    worker: u32,
    bits: u32,
) -> Result<Share<'a>, NoMemory>
    requires worker { worker < workers }
    requires least { 6 ≤ bits }
    requires most { bits ≤ 31 }
    ensures { IfOk result (IsShareWith job.now workers (2 ^ bits) worker) }
{
    let numbers = numbers_of(alloc, job, workers, worker)?;
    let mut branches = PartBranches::new(alloc, job)?;
    branches.enter(numbers.as_slice())?;
    let buckets = Buckets::new(alloc, bits)?;
    Ok(Share {
        worker,
        numbers,
        branches,
        buckets,
    })
}

/// A worker's pass for the next level, in place of what its buckets hold.
pub(crate) fn passed<'a, G: Gate>(
    alloc: Global,
    job: &Job,
    sieve: &Sieve,
    workers: u32,
    share: Share<'a>,
    gate: &G,
) -> Result<Share<'a>, NoMemory>
    requires { IsShareOf job.now workers share.worker share }
    ensures { IfOk result (IsPassedBy job.now sieve.now workers share.entry) }
{
    let Share {
        worker,
        numbers,
        mut branches,
        mut buckets,
    } = share;
    let mut room = Room::new(alloc);
    buckets.clear();
    one_more_sequence();
    // There are no more sequences than numbers of 32 bits.
    let _few = job.db().sequences();
    pass_over_all(
        job,
        sieve,
        worker,
        numbers.as_slice(),
        &mut branches,
        &mut room,
        &mut buckets,
        gate,
    )?;
    Ok(Share {
        worker,
        numbers,
        branches,
        buckets,
    })
}
