//! Which states end where: what a path that writes a pattern is made of.

ghost use Rattle.std.specs.Prelude.{◌≡◌, ℕ, suc, ◌+◌, ◌*◌, ◌≤◌, ◌<◌, ◌↔◌, List, [], length, vec_capacity, IsTrue, MatchOption, Contains};
ghost use Rattle.fst_compile.specs.declared.edge.Edge.{Edge};
ghost use Rattle.fst_compile.specs.Transducer.{edges_from};
ghost use Rattle.pattern_proof.specs.Steps.{IsRun};
ghost use Rattle.pattern_proof.specs.Reading.{numbers_of};
ghost use Rattle.pattern_proof.specs.Finding.{question_of, IsSearch, IsPlace, CanEnd, Passes, bit_of, bits_of, IsRightAt, EndFrom};
ghost use Rattle.state_bits.specs.Members.{HasBit};

use super::bits::{has_bit, set_bit};
use super::checking::{matches, may_write};
use fst_compile::{Edge, Fst, State};
use mine_model::{Hierarchy, Item};

/// A pattern that a path over the items is to write. `silents` is how many items such a path reads without
/// writing one.
#[derive(Drop)]
pub(crate) struct Search<'a> {
    pub(crate) hierarchy: &'a Hierarchy,
    pub(crate) fst: &'a Fst,
    pub(crate) items: &'a [Item],
    pub(crate) pattern: &'a [Item],
    pub(crate) silents: usize,
}

/// The number of the bit of a state, where so many items were read without an output and so many with one.
pub(crate) fn bit_at(search: &Search<'_>, silent: usize, written: usize, state: u32) -> usize
    requires search { IsSearch search.now }
    requires place { IsPlace (question_of search.now) silent written }
    requires state { state ≤ length search.now.fst.now.labels }
    ensures bit { result ≡ bit_of (question_of search.now) silent written state }
    ensures within { result < bits_of (question_of search.now) }
{
    let states = search.fst.states() as usize;
    (written * (search.silents + 1) + silent) * states + state as usize
}

/// Whether the edge reads the next item, writes the next of the pattern where it writes, and leads to a state
/// that ends behind it.
fn passes(search: &Search<'_>, words: &[u64], silent: usize, written: usize, edge: Edge) -> bool
    requires search { IsSearch search.now }
    requires place { IsPlace (question_of search.now) silent written }
    requires more { silent + written < length search.now.items.now }
    requires to { edge.to.0 ≤ length search.now.fst.now.labels }
    requires room { bits_of (question_of search.now) ≤ 64 * length words.now }
    requires silent { IsPlace (question_of search.now) (silent + 1) written
        → IsRightAt (question_of search.now) words.now (silent + 1) written }
    requires written { IsPlace (question_of search.now) silent (written + 1)
        → IsRightAt (question_of search.now) words.now silent (written + 1) }
    ensures { IsTrue result ↔ Passes (question_of search.now) silent written edge }
{
    let t = search.items[silent + written];
    if edge.captured {
        if written == search.pattern.len() {
            return false;
        }
        if !has_bit(words, bit_at(search, silent, written + 1, edge.to.0)) {
            return false;
        }
        if !may_write(search.hierarchy, edge.leaf, t, search.pattern[written]) {
            return false;
        }
    } else {
        if silent == search.silents {
            return false;
        }
        if !has_bit(words, bit_at(search, silent + 1, written, edge.to.0)) {
            return false;
        }
    }
    matches(search.hierarchy, edge.leaf, t)
}

/// An edge from the state that passes.
fn next_edge(
    search: &Search<'_>,
    words: &[u64],
    silent: usize,
    written: usize,
    state: State,
) -> Option<Edge>
    requires search { IsSearch search.now }
    requires place { IsPlace (question_of search.now) silent written }
    requires more { silent + written < length search.now.items.now }
    requires state { state.0 ≤ length search.now.fst.now.labels }
    requires room { bits_of (question_of search.now) ≤ 64 * length words.now }
    requires silent { IsPlace (question_of search.now) (silent + 1) written
        → IsRightAt (question_of search.now) words.now (silent + 1) written }
    requires written { IsPlace (question_of search.now) silent (written + 1)
        → IsRightAt (question_of search.now) words.now silent (written + 1) }
    ensures { MatchOption result ((edge : Edge) → Contains (edges_from search.now.fst.now state.0) edge
        → Passes (question_of search.now) silent written edge → ⊥)
        (λ edge. Contains (edges_from search.now.fst.now state.0) edge
        × (edge.to.0 ≤ length search.now.fst.now.labels)
        × Passes (question_of search.now) silent written edge) }
{
    for edge in search.fst.edges(state) {
        if passes(search, words, silent, written, *edge) {
            return Some(*edge);
        }
    }
    None
}

/// Whether a path goes on from the state to the end.
fn ends(search: &Search<'_>, words: &[u64], silent: usize, written: usize, state: State) -> bool
    requires search { IsSearch search.now }
    requires place { IsPlace (question_of search.now) silent written }
    requires state { state.0 ≤ length search.now.fst.now.labels }
    requires room { bits_of (question_of search.now) ≤ 64 * length words.now }
    requires silent { IsPlace (question_of search.now) (silent + 1) written
        → IsRightAt (question_of search.now) words.now (silent + 1) written }
    requires written { IsPlace (question_of search.now) silent (written + 1)
        → IsRightAt (question_of search.now) words.now silent (written + 1) }
    ensures { IsTrue result ↔ CanEnd (question_of search.now) silent written state.0 }
{
    if silent + written == search.items.len() {
        search.fst.is_final(state)
    } else {
        next_edge(search, words, silent, written, state).is_some()
    }
}

/// Sets the bits of the states that end at a place, behind which all bits are set that are to be.
fn fill_place(search: &Search<'_>, words: &mut Vec<u64>, silent: usize, written: usize)
    requires search { IsSearch search.now }
    requires place { IsPlace (question_of search.now) silent written }
    requires room { bits_of (question_of search.now) ≤ 64 * length words.old.items }
    requires behind { EndFrom (question_of search.now)
        (bit_of (question_of search.now) silent written (length search.now.fst.now.labels + 1))
        words.old.items }
    ensures set { EndFrom (question_of search.now) (bit_of (question_of search.now) silent written 0)
        words.new.items }
    ensures long { length words.new.items ≡ length words.old.items }
    ensures room { vec_capacity words.new ≡ vec_capacity words.old }
{
    let mut state = search.fst.states();
    while state > 0 {
        state -= 1;
        if ends(search, words.as_slice(), silent, written, State(state)) {
            set_bit(words, bit_at(search, silent, written, state));
        }
    }
}

/// Sets the bits of all states that end, from the last place to the first.
pub(crate) fn fill(search: &Search<'_>, words: &mut Vec<u64>)
    requires search { IsSearch search.now }
    requires room { bits_of (question_of search.now) ≤ 64 * length words.old.items }
    requires clear { (bit : ℕ) → HasBit words.old.items bit → ⊥ }
    ensures set { EndFrom (question_of search.now) 0 words.new.items }
    ensures long { length words.new.items ≡ length words.old.items }
    ensures room { vec_capacity words.new ≡ vec_capacity words.old }
{
    let row = search.silents + 1;
    let mut left = (search.pattern.len() + 1) * row;
    while left > 0 {
        left -= 1;
        fill_place(search, words, left % row, left / row);
    }
}

/// Leaves the states of a path from the start that writes the pattern, of which there is one.
pub(crate) fn choose(search: &Search<'_>, words: &[u64], states: &mut Vec<State>)
    requires search { IsSearch search.now }
    requires room { bits_of (question_of search.now) ≤ 64 * length words.now }
    requires right { EndFrom (question_of search.now) 0 words.now }
    requires some { CanEnd (question_of search.now) 0 0 0 }
    requires deep { length search.now.items.now ≤ vec_capacity states.old }
    ensures run { IsRun search.now.hierarchy.now.links search.now.fst.now 0 (numbers_of states.new.items)
        search.now.items.now search.now.pattern.now }
    ensures deep { vec_capacity states.new ≡ vec_capacity states.old }
{
    states.clear();
    let mut silent = 0;
    let mut written = 0;
    let mut state = State(0);
    while silent + written < search.items.len() {
        let Some(edge) = next_edge(search, words, silent, written, state) else {
            return;
        };
        if edge.captured {
            written += 1;
        } else {
            silent += 1;
        }
        states.push_reserved(edge.to);
        state = edge.to;
    }
}
