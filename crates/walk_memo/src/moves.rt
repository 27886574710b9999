//! Moves, numbered by what they do.

ghost use Rattle.std.specs.Prelude.{◌≡◌, ◌≢◌, ◌<◌, ◌≤◌, ◌^◌, [], map, length, slice_get, Some, IfOk, AllPairs};
ghost use Rattle.mine_model.specs.Lists.{AddsTo};
ghost use Rattle.walk_memo.specs.Moves.{move_sets};

use super::movement::Move;
use super::number::to_number;
use indexmap::IndexSet;
use mine_model::NoMemory;
use std::alloc::Global;
use std::marker::Model;

/// Moves by their numbers, each once. A contract sees the list of what they do.
#[derive(Drop)]
pub struct Moves<const W: usize> {
    moves: IndexSet<Move<W>>,
}

impl<const W: usize> Model for Moves<W> {
    ghost use Rattle.std.specs.Prelude.{List, ◌<◌, ◌≤◌, ◌^◌, map, length};
    ghost use Rattle.walk_memo.specs.Moves.{MoveSets, move_sets};

    ghost Value = { List MoveSets };

    ghost view = { λ m. map move_sets m.moves.keys };

    ghost invariant = { λ m. (W ≤ 17) × (length m.moves.keys < 2 ^ 32) };
}

impl<const W: usize> Moves<W> {
    /// No moves.
    pub fn new(alloc: Global) -> Moves<W>
        requires width { W ≤ 17 }
        ensures { result ≡ [] }
    {
        Moves {
            moves: IndexSet::new(alloc),
        }
    }

    /// The number of the move, which is added behind the others if it is new. It also wants memory where
    /// 2^32 - 1 moves have numbers.
    pub fn intern(&mut self, movement: &Move<W>) -> Result<u32, NoMemory>
        requires width { W ≤ 17 }
        ensures grows { AddsTo self.old (move_sets movement.now) self.new }
        ensures once { AllPairs (λ one other. one ≢ other) self.new }
        ensures number { IfOk result (λ number. slice_get self.new number ≡ Some (move_sets movement.now)) }
    {
        if self.moves.len() >= u32::MAX as usize {
            return Err(NoMemory);
        }
        let (index, _new) = self.moves.insert_full(*movement)?;
        to_number(index)
    }

    /// How many moves there are.
    pub fn count(&self) -> u32
        requires { W ≤ 17 }
        ensures { result ≡ length self.now }
    {
        self.moves.len() as u32
    }

    /// The moves, by number.
    pub fn as_slice(&self) -> &[Move<W>]
        requires { W ≤ 17 }
        ensures { map move_sets result.now ≡ self.now }
    {
        self.moves.as_slice()
    }

    /// The move with the number.
    pub fn get(&self, number: u32) -> &Move<W>
        requires width { W ≤ 17 }
        requires number { number < length self.now }
        ensures { slice_get self.now number ≡ Some (move_sets result.now) }
    {
        &self.moves.as_slice()[number as usize]
    }
}
