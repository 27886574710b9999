//! Finds a path that writes a pattern.

ghost use Rattle.std.specs.Prelude.{◌≡◌, ℕ, ◌+◌, ◌*◌, ◌≤◌, ◌<◌, List, length, vec_capacity, IfOk, MatchBool, MatchOption};
ghost use Rattle.mine_model.specs.Limits.{most_length, most_leaves};
ghost use Rattle.mining_job.specs.Problems.{items_of};
ghost use Rattle.state_bits.specs.Members.{HasBit};
ghost use Rattle.pattern_proof.specs.Finding.{question_of, bits_of, IsSearch};
ghost use Rattle.pattern_proof.specs.Reading.{numbers_of};
ghost use Rattle.pattern_proof.specs.Rooms.{HasRoom};
ghost use Rattle.pattern_proof.specs.Runs.{Writes};
ghost use Rattle.pattern_proof.specs.Steps.{IsRun};

use super::bits::{clear_bits, has_bit};
use super::search::{Search, bit_at, choose, fill};
use fst_compile::State;
use mine_model::{Item, NoMemory};
use mining_job::Job;
use std::alloc::Global;

/// Room for the search of a path, and the states of the path that was found last.
#[derive(Drop)]
pub(crate) struct PathRoom {
    pub(crate) table: Vec<u64>,
    pub(crate) states: Vec<State>,
}

impl PathRoom {
    /// Room for paths over up to so many items that write up to so many, of a transducer with so many states.
    pub(crate) fn new(
        alloc: Global,
        states: u32,
        items: usize,
        pattern: usize,
    ) -> Result<PathRoom, NoMemory>
        requires states { states ≤ most_leaves + 1 }
        requires items { items ≤ most_length }
        ensures { IfOk result (λ room. (n m : ℕ) → n ≤ items → m ≤ pattern → HasRoom room states n m) }
    {
        let pattern = pattern.min(items);
        let bits = (items + 1) * (pattern + 1) * states as usize;
        Ok(PathRoom {
            table: Vec::with_capacity(alloc, bits / 64 + 1)?,
            states: Vec::with_capacity(alloc, items)?,
        })
    }
}

/// Looks for a path over the sequence with this number that writes the pattern. The room then has its states.
pub(crate) fn find_path(room: &mut PathRoom, job: &Job, seq: u32, pattern: &[Item]) -> bool
    requires seq { seq < length job.now.sequences }
    requires room { HasRoom room.old (length job.now.transducer.labels + 1) (length (items_of job.now seq))
        (length pattern.now) }
    ensures path { MatchBool result (Writes job.now seq (numbers_of room.new.states.items) pattern.now)
        ((states : List ℕ) → Writes job.now seq states pattern.now → ⊥) }
    ensures kept { (states n m : ℕ) → HasRoom room.old states n m → HasRoom room.new states n m }
{
    let items = job.db().sequence(seq);
    let Some(silents) = items.len().checked_sub(pattern.len()) else {
        return false;
    };
    let search = Search {
        hierarchy: job.hierarchy(),
        fst: job.fst(),
        items,
        pattern,
        silents,
    };
    let bits = (pattern.len() + 1) * (silents + 1) * job.fst().states() as usize;
    clear_bits(&mut room.table, bits / 64 + 1);
    find_in(&search, &mut room.table, &mut room.states)
}

/// The same in these words, in which no bit is set, and with room in the states.
fn find_in(search: &Search<'_>, words: &mut Vec<u64>, states: &mut Vec<State>) -> bool
    requires search { IsSearch search.now }
    requires clear { (bit : ℕ) → HasBit words.old.items bit → ⊥ }
    requires room { bits_of (question_of search.now) ≤ 64 * length words.old.items }
    requires deep { length search.now.items.now ≤ vec_capacity states.old }
    ensures path { MatchBool result
        (IsRun search.now.hierarchy.now.links search.now.fst.now 0 (numbers_of states.new.items)
        search.now.items.now search.now.pattern.now)
        ((others : List ℕ) → IsRun search.now.hierarchy.now.links search.now.fst.now 0 others
        search.now.items.now search.now.pattern.now → ⊥) }
    ensures room { vec_capacity words.new ≡ vec_capacity words.old }
    ensures deep { vec_capacity states.new ≡ vec_capacity states.old }
{
    fill(search, words);
    let found = has_bit(words.as_slice(), bit_at(search, 0, 0, 0));
    if found {
        choose(search, words.as_slice(), states);
    }
    found
}

/// The states of a path over the sequence with this number that writes the pattern. None where the sequence
/// does not have it.
pub fn path(
    alloc: Global,
    job: &Job,
    seq: u32,
    pattern: &[Item],
) -> Result<Option<Vec<State>>, NoMemory>
    requires { seq < length job.now.sequences }
    ensures { IfOk result (λ found. MatchOption found
        ((states : List ℕ) → Writes job.now seq states pattern.now → ⊥)
        (λ path. Writes job.now seq (numbers_of path.items) pattern.now)) }
{
    let items = job.db().sequence(seq).len();
    let mut room = PathRoom::new(alloc, job.fst().states(), items, pattern.len())?;
    if find_path(&mut room, job, seq, pattern) {
        Ok(Some(room.states))
    } else {
        Ok(None)
    }
}
