//! The frequent patterns as rows, from the lists that were counted behind a sieve.
#![tactic(auto)]

ghost use Rattle.std.specs.Prelude.{◌≡◌, ◌<◌, Bool, List, Contains, IfOk};
ghost use Rattle.std.specs.List.{AllByRecursion};
ghost use Rattle.mine_model.specs.declared.row.Row.{Row as TheRow};
ghost use Rattle.mine_model.specs.Numbered.{AreFrequent};
ghost use Rattle.mining_job.specs.Problems.{data_of};
ghost use Rattle.prefix_sieve.specs.Hashes.{hash_of};
ghost use Rattle.prefix_sieve.specs.Sieves.{AreLevels};
ghost use Rattle.sieved_counts.specs.Counted.{AreCounted};

use mine_model::{NoMemory, Row, pattern_of};
use mining_job::Job;
use prefix_counts::PrefixCounts;
use sieved_counts::frequent_patterns_are_counted;
use std::alloc::Global;

/// The frequent patterns among the lists that were counted behind a sieve, as rows, in no stated order. Takes
/// no memory for a list whose sum is below the threshold.
pub fn rows_of(alloc: Global, job: &Job, counts: &PrefixCounts) -> Result<Vec<Row>, NoMemory>
    requires { (levels : List (List Bool)) × AreLevels (data_of job.now) job.now.ranking.order hash_of levels
        × AreCounted (data_of job.now) job.now.ranking.order levels job.now.sequences counts.now }
    ensures frequent { IfOk result (λ rows. AreFrequent (data_of job.now) rows.items) }
    ensures items { IfOk result (λ rows. (row : TheRow) → Contains rows.items row
        → AllByRecursion (λ t. t.0 < job.now.hierarchy.items) row.pattern) }
{
    frequent_patterns_are_counted();
    // For the proof alone: the contract of `items` says that no link leads out of the items, so neither does
    // a pattern.
    let _items = job.hierarchy().items();
    let threshold = job.threshold();
    let count = to_number(counts.len())?;
    let mut list = Vec::new(alloc);
    let mut rows = Vec::new(alloc);
    // The empty list, which has the number 0, is that of no pattern.
    for number in 1..count {
        let sum = counts.sum(number);
        if sum < threshold {
            continue;
        }
        counts.read(number, &mut list)?;
        let pattern = pattern_of(alloc, job.ranks(), list.as_slice())?;
        rows.push(Row {
            pattern,
            support: sum,
        })?;
    }
    Ok(rows)
}

// The number, where it is one of 32 bits.
fn to_number(index: usize) -> Result<u32, NoMemory>
    ensures { IfOk result (λ number. number ≡ index) }
{
    match u32::try_from(index) {
        Ok(number) => Ok(number),
        Err(_) => Err(NoMemory),
    }
}
