//! The rule that every deque of a pool keeps, and the steps that keep it.
ghost use Rattle.std.specs.Prelude.{Option, None};

use crate::task::Task;
use crossbeam_deque::protocol::{Join, Outcome, Protocol, Split};
use crossbeam_deque::{Pass, Stealer, Worker};
use std::alloc::Global;
use std::collections::LinkedList;
use std::marker::{Brand, PhantomData};

/// What a pass knows of its deque. No value of it is made.
pub struct Account<G> {
    /// Its share of the deque, whose parts are 64 in all.
    pub parts: u64,
    /// The labels that were put with it.
    pub given: LinkedList<LinkedList<u64>>,
    /// The labels that were taken or stolen with it.
    pub got: LinkedList<LinkedList<u64>>,
    /// The ground of the deque's tasks, once it is known.
    pub known_ground: Option<G>,
}

/// What was put into a deque is what was taken out of it and what it holds.
pub struct Balance;

impl<T: Task> Protocol<T, Account<T::Ground>> for Balance {
    ghost use Rattle.std.specs.Prelude.{None};
    ghost use Rattle.node_pool.specs.Rule.{Balanced, fresh_account};

    ghost holds = { Balanced T.label_of T.ground_of };

    ghost first = { fresh_account 64 None };

    ghost guest = { fresh_account 0 None };
}

/// A deque's end for its owner.
pub type Owner<T> = Worker<T, Global, Account<<T as Task>::Ground>, Balance>;

/// A deque's end for the others.
pub type Thief<T> = Stealer<T, Global, Account<<T as Task>::Ground>, Balance>;

/// The right to take from a deque.
pub type Right<T> = Pass<T, Account<<T as Task>::Ground>>;

/// A ground for the proofs alone. A call at `Brand` picks it.
pub trait Grounded<G> {
    ghost known_ground: { Option G };
}

impl<G> Grounded<G> for Brand {
    ghost known_ground = { None };
}

/// The first split, which fixes the ground of a deque that holds nothing.
pub struct Founds<K> {
    ground: PhantomData<K>,
}

impl<G, K: Grounded<G>> Split<Account<G>> for Founds<K> {
    ghost use Rattle.std.specs.Prelude.{None};
    ghost use Rattle.node_pool.specs.Rule.{account, fresh_account};

    ghost left = { λ v. account v.parts v.given v.got K.known_ground };

    ghost right = { λ v. fresh_account 0 None };
}

/// A pass with no part.
pub struct Spares;

impl<G> Split<Account<G>> for Spares {
    ghost use Rattle.node_pool.specs.Rule.{fresh_account};

    ghost left = { λ v. v };

    ghost right = { λ v. fresh_account 0 v.known_ground };
}

/// A pass with one part.
pub struct Lends;

impl<G> Split<Account<G>> for Lends {
    ghost use Rattle.node_pool.specs.Rule.{fresh_account, without_parts};

    ghost left = { λ v. without_parts v 1 };

    ghost right = { λ v. fresh_account 1 v.known_ground };
}

/// Takes back a pass with what was taken with it.
pub struct Returns;

impl<G> Join<Account<G>> for Returns {
    ghost use Rattle.std.specs.Prelude.{None};
    ghost use Rattle.node_pool.specs.Rule.{fresh_account, with_back};

    ghost both = { with_back };

    ghost spent = { fresh_account 0 None };
}

/// A task was put.
pub struct Puts;

impl<T: Task> Outcome<T, Account<T::Ground>> for Puts {
    ghost use Rattle.std.specs.Prelude.{◌≡◌, ◌++◌, map};
    ghost use Rattle.node_pool.specs.Rule.{account};

    ghost then = { λ v xs w. w ≡ account v.parts (v.given ++ map T.label_of xs) v.got v.known_ground };
}

/// A task was stolen.
pub struct Steals;

impl<T: Task> Outcome<T, Account<T::Ground>> for Steals {
    ghost use Rattle.node_pool.specs.Rule.{Got};

    ghost then = { Got T.label_of T.ground_of };
}

/// The owner took a task. Who has all parts learns that what was put is what was taken where the deque is
/// empty.
pub struct Takes;

impl<T: Task> Outcome<T, Account<T::Ground>> for Takes {
    ghost use Rattle.std.specs.Prelude.{◌≡◌};
    ghost use Rattle.mine_model.specs.Labels.{SameLabels};
    ghost use Rattle.node_pool.specs.Rule.{Got};

    ghost then = { Got T.label_of T.ground_of };

    ghost empty = { λ v. v.parts ≡ 64 → SameLabels v.given v.got };
}
