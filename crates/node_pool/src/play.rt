//! What a seat does while the pool is open.
ghost use Rattle.std.specs.Prelude.{◌≡◌, ◌≢◌, ◌<◌, ◌==◌, ◌||◌, ◌++◌, ℕ, true, false, [], ◌∷◌, length, Some};
ghost use Rattle.std.specs.Prelude.{IfErr, IfNone, IfSome, MatchBool, MatchOption, OnErr, OnOk};
ghost use Rattle.std.specs.Prelude.{OnSome, IsTrue};
ghost use Rattle.std.specs.Int.{bit_at};
ghost use Rattle.mine_model.specs.Labels.{SameLabels};
ghost use Rattle.crossbeam_deque.specs.Handles.{stealer_deque, view};
ghost use Rattle.node_pool.specs.Rule.{with_labels};
ghost use Rattle.node_pool.specs.Pool.{number_of, pool_of, seat_ground, given, got, is_dry, SameSeat};
ghost use Rattle.node_pool.specs.Pool.{GotFrom, GotNothing};

use crate::rule::{Puts, Steals, Takes};
use crate::seat::Seat;
use crate::task::Task;
use crate::way::Way;
use crossbeam_deque::Steal;

/// The deques that were found dry after a look at one of them, as bits.
fn noted(dry: u64, deque: u32, found: bool) -> u64
    requires { deque < 64 }
    ensures found { found ≡ true → result ≡ 0 }
    ensures not_found { found ≡ false
        → (k : ℕ) → (bit_at result k == 1) ≡ (k == deque || (bit_at dry k == 1)) }
{
    if found { 0 } else { dry | (1 << deque) }
}

impl<T: Task> Way<T> {
    /// Steals the oldest task of the deque.
    fn steal(&mut self) -> Option<T>
        requires { 0 < (view self.old.right).parts }
        ensures same { stealer_deque self.new.thief ≡ stealer_deque self.old.thief }
        ensures rule { MatchOption result (view self.new.right ≡ view self.old.right)
            (λ task. view self.new.right ≡ with_labels (view self.old.right) (T.label_of task ∷ [])) }
        ensures ground { IfSome result
            (λ task. (view self.old.right).known_ground ≡ Some (T.ground_of task)) }
    {
        match self.thief.steal_as::<Steals>(&mut self.right) {
            Steal::Success(task) => Some(task),
            Steal::Empty => None,
            Steal::Retry => None,
        }
    }
}

impl<T: Task> Seat<T> {
    /// Which of the pool's deques is the seat's own.
    pub fn number(&self) -> u32
        ensures { result ≡ number_of self.now }
    {
        self.number
    }

    /// How many seats the pool has.
    pub fn workers(&self) -> u32
        ensures { result ≡ length (pool_of self.now) }
    {
        self.ways.len() as u32
    }

    /// Puts the task into the own deque, on top of the others. `Err` gives it back for want of room.
    pub fn put(&mut self, task: T) -> Result<(), T>
        requires { seat_ground self.old ≡ Some (T.ground_of task) }
        ensures same { SameSeat self.old self.new }
        ensures given { OnOk result (given self.new ≡ given self.old ++ T.label_of task ∷ []) }
        ensures got { (got self.new ≡ got self.old) × GotNothing self.old self.new }
        ensures dry { OnOk result ((k : ℕ) → is_dry self.new k ≡ false) }
        ensures refused { IfErr result (λ back. back ≡ task) }
        ensures unchanged { OnErr result ((given self.new ≡ given self.old)
            × ((k : ℕ) → is_dry self.new k ≡ is_dry self.old k)) }
    {
        self.owner.push_as::<Puts>(task)?;
        self.dry = 0;
        Ok(())
    }

    /// Takes the newest task of the own deque.
    pub fn take(&mut self) -> Option<T>
        ensures same { SameSeat self.old self.new }
        ensures given { given self.new ≡ given self.old }
        ensures some { IfSome result
            (λ task. SameLabels (got self.new) (got self.old ++ T.label_of task ∷ [])) }
        ensures from { IfSome result
            (λ task. GotFrom (number_of self.old) (T.label_of task) self.old self.new) }
        ensures ground { IfSome result (λ task. seat_ground self.old ≡ Some (T.ground_of task)) }
        ensures dry { OnSome result ((k : ℕ) → is_dry self.new k ≡ false) }
        ensures none { IfNone result ((got self.new ≡ got self.old) × GotNothing self.old self.new) }
        ensures marked { IfNone result
            ((k : ℕ) → is_dry self.new k ≡ (k == number_of self.old || is_dry self.old k)) }
        // Alone, a seat finds no task only where it got all that it gave.
        ensures alone { IfNone result
            (length (pool_of self.old) ≡ 1 → SameLabels (given self.old) (got self.old)) }
    {
        let task = self.owner.pop_as::<Takes>();
        self.dry = noted(self.dry, self.number, task.is_some());
        task
    }

    /// Steals the oldest task of another seat's deque. `None` says nothing of that deque.
    pub fn steal(&mut self, from: u32) -> Option<T>
        requires within { from < length (pool_of self.old) }
        requires other { from ≢ number_of self.old }
        ensures same { SameSeat self.old self.new }
        ensures given { given self.new ≡ given self.old }
        ensures some { IfSome result
            (λ task. SameLabels (got self.new) (got self.old ++ T.label_of task ∷ [])) }
        ensures from { IfSome result (λ task. GotFrom from (T.label_of task) self.old self.new) }
        ensures ground { IfSome result (λ task. seat_ground self.old ≡ Some (T.ground_of task)) }
        ensures dry { OnSome result ((k : ℕ) → is_dry self.new k ≡ false) }
        ensures none { IfNone result ((got self.new ≡ got self.old) × GotNothing self.old self.new) }
        ensures marked { IfNone result ((k : ℕ) → is_dry self.new k ≡ (k == from || is_dry self.old k)) }
    {
        let task = self.ways[from as usize].steal();
        self.dry = noted(self.dry, from, task.is_some());
        task
    }
}
