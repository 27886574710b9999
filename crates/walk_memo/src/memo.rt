//! A memo of steps and joins.

ghost use Rattle.std.specs.Prelude.{◌≡◌, ℕ, ◌*◌, ◌+◌, ◌/◌, ◌≤◌, ◌<◌, ◌↔◌, ◌++◌, [], ◌∷◌, List, map, length, slice_index, slice_get, slice_range, Some, IfOk, OnOk, IsTrue};
ghost use Rattle.state_bits.specs.Members.{Has};
ghost use Rattle.state_bits.specs.Neighbours.{AreNeighbours};
ghost use Rattle.walk_memo.specs.declared.action.Action.{Action as Acts};
ghost use Rattle.walk_memo.specs.Moves.{MoveSets, move_sets};
ghost use Rattle.walk_memo.specs.Steps.{IsAfter, AreActions, AreWritten, IsJoin};
ghost use Rattle.walk_memo.specs.Memos.{IsStep, IsJoined, HasRoom, Keeps, Follows};
ghost use Rattle.walk_memo.specs.Kept.{IsStepAt, IsJoinAt};

use super::action::Action;
use super::cells::Cells;
use super::movement::Move;
use super::number::to_number;
use super::step::Step;
use super::writing::push_actions;
use indexmap::IndexSet;
use mine_model::NoMemory;
use state_bits::{StateSet, neighbours};
use std::alloc::Global;
use std::marker::Model;

/// How many cells, and how many actions, a memo is to hold.
const MOST_CELLS: usize = 1 << 20;

/// What sets of states do at moves, over rows that say for each state to which others edges lead. Sets are
/// known by numbers, the empty one by 0. What is asked once is kept: asked again, it is read from a table.
/// Rows and moves are the memo's own, so that it can be kept from one walk to the next.
/// A memo that is full is begun again where a set or a step that is new comes: numbers from before are then
/// void, but what that very call answers is a number of the new memo. So a walk needs to hold no more than
/// its present number.
pub struct Memo<const W: usize> {
    rows: Vec<StateSet<W>>,
    moves: Vec<Move<W>>,
    most_sets: usize,
    sets: IndexSet<StateSet<W>>,
    actions: Vec<Action>,
    steps: Cells<Step>,
    joins: Cells<u32>,
}

// Written out, so that it is let go of by a call, and not part by part wherever one is.
impl<const W: usize> Drop for Memo<W> {
    fn drop(self) {
        let Memo {
            rows: _,
            moves: _,
            most_sets: _,
            sets: _,
            actions: _,
            steps: _,
            joins: _,
        } = self;
    }
}

impl<const W: usize> Model for Memo<W> {
    ghost use Rattle.std.specs.Prelude.{map};
    ghost use Rattle.walk_memo.specs.Moves.{move_sets};
    ghost use Rattle.walk_memo.specs.Memos.{MemoValue};
    ghost use Rattle.walk_memo.specs.Kept.{IsMemo};

    ghost Value = { MemoValue };

    ghost view = { λ m. record {
      rows = m.rows.items;
      moves = map move_sets m.moves.items;
      sets = m.sets.keys;
      actions = m.actions.items;
    } };

    ghost invariant = { λ m. IsMemo W (record {
      rows = m.rows.items;
      moves = map move_sets m.moves.items;
      sets = m.sets.keys;
      actions = m.actions.items;
    }) m.steps m.joins m.most_sets };
}

impl<const W: usize> Memo<W> {
    /// A memo of no rows and no moves, that knows the empty set alone.
    pub fn new(alloc: Global) -> Result<Memo<W>, NoMemory>
        requires { W ≤ 17 }
        ensures { IfOk result (λ memo. memo ≡ record { rows = []; moves = []; sets = 0 ∷ []; actions = [] }) }
    {
        let mut sets = IndexSet::new(alloc);
        sets.insert(StateSet::new())?;
        Ok(Memo {
            rows: Vec::new(alloc),
            moves: Vec::new(alloc),
            most_sets: MOST_CELLS,
            sets,
            actions: Vec::new(alloc),
            steps: Cells::new(alloc),
            joins: Cells::new(alloc),
        })
    }

    /// Makes it a memo of these rows and moves. Where it is one already, nothing is forgotten; else it begins
    /// anew. It also wants memory where there are more than 2^32 - 1 moves.
    pub fn enter(&mut self, rows: &[StateSet<W>], moves: &[Move<W>]) -> Result<(), NoMemory>
        requires width { W ≤ 17 }
        requires room { length rows.now ≤ 64 * W }
        requires closed { (from q : ℕ) → Has (slice_index rows.now from) q → q < length rows.now }
        ensures rows { OnOk result (self.new.rows ≡ rows.now) }
        ensures moves { OnOk result (self.new.moves ≡ map move_sets moves.now) }
    {
        if self.rows.as_slice() == rows && self.moves.as_slice() == moves {
            return Ok(());
        }
        self.begin(rows, moves)
    }

    // Begins anew, with these rows and moves.
    fn begin(&mut self, rows: &[StateSet<W>], moves: &[Move<W>]) -> Result<(), NoMemory>
        requires width { W ≤ 17 }
        requires room { length rows.now ≤ 64 * W }
        requires closed { (from q : ℕ) → Has (slice_index rows.now from) q → q < length rows.now }
        ensures rows { OnOk result (self.new.rows ≡ rows.now) }
        ensures moves { OnOk result (self.new.moves ≡ map move_sets moves.now) }
    {
        let count = to_number(moves.len())?;
        self.sets.truncate(1);
        self.actions.clear();
        self.rows.clear();
        self.moves.clear();
        self.steps.begin(0);
        self.joins.begin(0);
        self.most_sets = MOST_CELLS;
        self.moves.extend_from_slice(moves)?;
        self.steps.begin(count);
        self.most_sets = MOST_CELLS / (moves.len() + 1);
        self.rows.extend_from_slice(rows)?;
        self.joins.begin(rows.len() as u32);
        self.most_sets = MOST_CELLS / (rows.len() + moves.len() + 1);
        Ok(())
    }

    /// The number of the empty set.
    pub fn empty(&self) -> u32
        ensures number { result ≡ 0 }
        ensures is { slice_get self.now.sets result ≡ Some 0 }
    {
        let _sets = &self.sets;
        0
    }

    /// The set with the number.
    pub fn set(&self, number: u32) -> &StateSet<W>
        requires width { W ≤ 17 }
        requires number { number < length self.now.sets }
        ensures is { slice_get self.now.sets number ≡ Some result.now }
        ensures within { (q : ℕ) → Has result.now q → q < length self.now.rows }
    {
        &self.sets.as_slice()[number as usize]
    }

    /// Whether the number is that of the empty set.
    #[inline]
    pub fn is_empty(&self, number: u32) -> bool
        ensures { IsTrue result ↔ (slice_get self.now.sets number ≡ Some 0) }
    {
        let _sets = &self.sets;
        number == 0
    }

    /// The actions of a step that this memo answered.
    #[inline]
    pub fn actions(&self, step: Step) -> &[Action]
        requires ordered { step.first ≤ step.last }
        requires within { step.last ≤ length self.now.actions }
        ensures { result.now ≡ slice_range self.now.actions step.first step.last }
    {
        &self.actions[step.first as usize..step.last as usize]
    }

    /// Whether there is room for one more set and the actions of one more step: where there is, the next call
    /// leaves all numbers as they are.
    pub fn has_room(&self) -> bool
        requires { W ≤ 17 }
        ensures { IsTrue result ↔ HasRoom self.now }
    {
        self.sets.len() < self.most_sets && self.actions.len() < MOST_CELLS
    }

    /// The step from the set with this number at the move with that number.
    #[inline]
    pub fn step(&mut self, set: u32, of: u32) -> Result<Step, NoMemory>
        requires width { W ≤ 17 }
        requires set { set < length self.old.sets }
        requires movement { of < length self.old.moves }
        ensures memo { Follows self.old self.new }
        ensures step { IfOk result (λ step. (before : ℕ) (move : MoveSets)
            → slice_get self.old.sets set ≡ Some before → slice_get self.old.moves of ≡ Some move
            → IsStep self.new move before step) }
    {
        match self.steps.get(set, of) {
            Some(step) => Ok(step),
            None => self.new_step(set, of),
        }
    }

    /// The number of the set with this number and the state.
    #[inline]
    pub fn join(&mut self, set: u32, state: u32) -> Result<u32, NoMemory>
        requires width { W ≤ 17 }
        requires set { set < length self.old.sets }
        requires state { state < length self.old.rows }
        ensures memo { Follows self.old self.new }
        ensures joined { IfOk result (λ number. (before : ℕ) → slice_get self.old.sets set ≡ Some before
            → IsJoined self.new before state number) }
    {
        match self.joins.get(set, state) {
            Some(number) => Ok(number),
            None => self.new_join(set, state),
        }
    }

    // The step, found out and kept.
    #[inline(never)]
    fn new_step(&mut self, set: u32, of: u32) -> Result<Step, NoMemory>
        requires width { W ≤ 17 }
        requires set { set < length self.old.sets }
        requires movement { of < length self.old.moves }
        ensures memo { Follows self.old self.new }
        ensures step { IfOk result (λ step. (before : ℕ) (move : MoveSets)
            → slice_get self.old.sets set ≡ Some before → slice_get self.old.moves of ≡ Some move
            → IsStep self.new move before step) }
    {
        let before = *self.set(set);
        let movement = *self.movement(of);
        let targets = self.targets(&before);
        let mut after = targets;
        after.intersect_with(&movement.silent);
        let next = self.number_of(&after)?;
        let step = self.write(&targets, &movement, next)?;
        self.keep_step(set, &before, of, step)?;
        Ok(step)
    }

    // The number of the joined set, found out and kept.
    #[inline(never)]
    fn new_join(&mut self, set: u32, state: u32) -> Result<u32, NoMemory>
        requires width { W ≤ 17 }
        requires set { set < length self.old.sets }
        requires state { state < length self.old.rows }
        ensures memo { Follows self.old self.new }
        ensures joined { IfOk result (λ number. (before : ℕ) → slice_get self.old.sets set ≡ Some before
            → IsJoined self.new before state number) }
    {
        let before = *self.set(set);
        let joined = self.with(&before, state);
        let number = self.number_of(&joined)?;
        self.keep_join(set, &before, state, number)?;
        Ok(number)
    }

    // The move with the number.
    fn movement(&self, number: u32) -> &Move<W>
        requires width { W ≤ 17 }
        requires number { number < length self.now.moves }
        ensures { slice_get self.now.moves number ≡ Some (move_sets result.now) }
    {
        &self.moves[number as usize]
    }

    // The states in the rows of these.
    fn targets(&self, before: &StateSet<W>) -> StateSet<W>
        requires width { W ≤ 17 }
        requires within { (q : ℕ) → Has before.now q → q < length self.now.rows }
        ensures are { AreNeighbours self.now.rows before.now result }
        ensures within { (q : ℕ) → Has result q → q < length self.now.rows }
    {
        neighbours(self.rows.as_slice(), before)
    }

    // The set with the state.
    fn with(&self, before: &StateSet<W>, state: u32) -> StateSet<W>
        requires width { W ≤ 17 }
        requires state { state < length self.now.rows }
        ensures { IsJoin before.now state result }
    {
        let _rows = &self.rows;
        let mut joined = *before;
        joined.add(state);
        joined
    }

    // The number of a set, which is added if it is new: where there is no room for it, to a memo begun again.
    fn number_of(&mut self, set: &StateSet<W>) -> Result<u32, NoMemory>
        requires width { W ≤ 17 }
        requires within { (q : ℕ) → Has set.now q → q < length self.old.rows }
        ensures memo { Follows self.old self.new }
        ensures number { IfOk result (λ number. slice_get self.new.sets number ≡ Some set.now) }
    {
        if !self.has_room() {
            self.make_room(set);
        }
        self.add(set)
    }

    // Begins again, if the set is new or there is no room for more actions.
    fn make_room(&mut self, set: &StateSet<W>)
        requires width { W ≤ 17 }
        ensures rows { self.new.rows ≡ self.old.rows }
        ensures moves { self.new.moves ≡ self.old.moves }
    {
        if self.actions.len() >= MOST_CELLS || !self.sets.contains(set) {
            self.forget();
        }
    }

    // Forgets all but the empty set.
    fn forget(&mut self)
        requires width { W ≤ 17 }
        ensures { self.new
            ≡ record { rows = self.old.rows; moves = self.old.moves; sets = 0 ∷ []; actions = [] } }
    {
        self.sets.truncate(1);
        self.actions.clear();
        self.steps.clear();
        self.joins.clear();
    }

    // The number of a set, which is added if it is new.
    fn add(&mut self, set: &StateSet<W>) -> Result<u32, NoMemory>
        requires width { W ≤ 17 }
        requires within { (q : ℕ) → Has set.now q → q < length self.old.rows }
        ensures rows { self.new.rows ≡ self.old.rows }
        ensures moves { self.new.moves ≡ self.old.moves }
        ensures empty { slice_get self.new.sets 0 ≡ Some 0 }
        ensures keeps { Keeps self.old self.new }
        ensures number { IfOk result (λ number. slice_get self.new.sets number ≡ Some set.now) }
    {
        let (index, _new) = self.sets.insert_full(*set)?;
        to_number(index)
    }

    // Appends the actions of a step to the set with this number.
    fn write(
        &mut self,
        targets: &StateSet<W>,
        movement: &Move<W>,
        next: u32,
    ) -> Result<Step, NoMemory>
        requires width { W ≤ 17 }
        ensures rows { self.new.rows ≡ self.old.rows }
        ensures moves { self.new.moves ≡ self.old.moves }
        ensures sets { self.new.sets ≡ self.old.sets }
        ensures grows { (more : List Acts) × (self.new.actions ≡ self.old.actions ++ more) }
        ensures next { IfOk result (λ step. step.next ≡ next) }
        ensures ordered { IfOk result (λ step. step.first ≤ step.last) }
        ensures within { IfOk result (λ step. step.last ≤ length self.new.actions) }
        ensures written { IfOk result (λ step. AreWritten targets.now (move_sets movement.now)
            (slice_range self.new.actions step.first step.last)) }
    {
        let first = to_number(self.actions.len())?;
        push_actions(&mut self.actions, targets, movement)?;
        let last = to_number(self.actions.len())?;
        Ok(Step { next, first, last })
    }

    // Keeps the step from a set, if this number is still that of the set.
    fn keep_step(
        &mut self,
        number: u32,
        set: &StateSet<W>,
        of: u32,
        step: Step,
    ) -> Result<(), NoMemory>
        requires width { W ≤ 17 }
        requires movement { of < length self.old.moves }
        requires step { (move : MoveSets) → slice_get self.old.moves of ≡ Some move
            → IsStep self.old move set.now step }
        ensures { self.new ≡ self.old }
    {
        if stands(self.sets.as_slice(), number, set) {
            self.steps.keep(number, of, step)?;
        }
        Ok(())
    }

    // Keeps the join of a set and a state, if this number is still that of the set.
    fn keep_join(
        &mut self,
        number: u32,
        set: &StateSet<W>,
        state: u32,
        joined: u32,
    ) -> Result<(), NoMemory>
        requires width { W ≤ 17 }
        requires state { state < length self.old.rows }
        requires joined { IsJoined self.old set.now state joined }
        ensures { self.new ≡ self.old }
    {
        if stands(self.sets.as_slice(), number, set) {
            self.joins.keep(number, state, joined)?;
        }
        Ok(())
    }
}

// Whether the number is that of the set.
fn stands<const W: usize>(sets: &[StateSet<W>], number: u32, set: &StateSet<W>) -> bool
    requires width { W ≤ 17 }
    ensures { IsTrue result → slice_get sets.now number ≡ Some set.now }
{
    match sets.get(number as usize) {
        Some(known) => known == set,
        None => false,
    }
}
