//! What a pass knows of its lock, and what each step tells it.
//!
//! These types are for the proofs alone: no value of `Hand` or `Stage` is made.
ghost use Rattle.std.specs.Prelude.{None, []};

use crate::kept::Kept;
use atomic_table::{Join, Play, Split, TableRule};
use std::collections::LinkedList;
use std::snapshot::Snapshot;

/// How far a call is. A turn has the history that the value had when it was taken out.
pub enum Stage {
    Idle,
    Waiting(u64),
    Turn(u64, LinkedList<(u64, LinkedList<u64>)>),
}

/// What a seat at the lock's table knows: the value that the lock was made with, the passes that it
/// stands for, each with its number and the entries of its changes, and the stage of its call.
pub struct Hand<T> {
    pub start: Option<T>,
    pub parts: LinkedList<(u64, LinkedList<LinkedList<u64>>)>,
    pub stage: Stage,
}

/// What a lock is told when it is made.
#[derive(Drop)]
pub struct Opening<T> {
    pub value: Snapshot<T>,
    pub passes: u32,
}

/// The rule of a lock.
pub struct InTurns;

impl<T: Kept> TableRule<T, Hand<T>, Opening<T>> for InTurns {
    ghost use Rattle.turn_lock.specs.Turns.{Turns, first_hand};

    ghost holds = { λ key. Turns T.history_of T.ground_of key.value.value key.passes };

    ghost first = { λ key. first_hand key.value.value key.passes };
}

/// A new seat, which stands for no pass.
pub struct Enter;

impl<T: Kept> Play<T, Hand<T>> for Enter {
    ghost use Rattle.turn_lock.specs.Plays.{entered};

    ghost then = { entered };
}

/// A ticket is drawn.
pub struct Draw;

impl<T: Kept> Play<T, Hand<T>> for Draw {
    ghost use Rattle.turn_lock.specs.Plays.{drew};

    ghost then = { drew };
}

/// The serving word is read, and the value taken out where it is this call's turn.
pub struct Look;

impl<T: Kept> Play<T, Hand<T>> for Look {
    ghost use Rattle.turn_lock.specs.Plays.{looked};

    ghost then = { looked T.history_of T.ground_of };
}

/// The value is put back, and the next ticket served.
pub struct PassOn;

impl<T: Kept> Play<T, Hand<T>> for PassOn {
    ghost use Rattle.turn_lock.specs.Plays.{passed_on};

    ghost then = { passed_on T.history_of };
}

/// One pass leaves a seat that stands for several.
pub struct Cut;

impl<T: Kept> Split<Hand<T>> for Cut {
    ghost use Rattle.turn_lock.specs.Turns.{hand};
    ghost use Rattle.turn_lock.specs.Plays.{first_part, other_parts};

    ghost left = { λ v. hand v.start (other_parts v.parts) v.stage };

    ghost right = { λ v. hand v.start (first_part v.parts) v.stage };
}

/// A seat takes in the passes of another.
pub struct Gather;

impl<T: Kept> Join<Hand<T>> for Gather {
    ghost use Rattle.std.specs.Prelude.{◌++◌};
    ghost use Rattle.turn_lock.specs.Turns.{hand, blank};

    ghost both = { λ v w. hand v.start (w.parts ++ v.parts) v.stage };

    ghost spent = { blank };
}
