//! What a pool holds.
ghost use Rattle.std.specs.Prelude.{ℕ, List};

/// A piece of work. The pool moves tasks about and never reads them.
pub trait Task: Drop + Send {
    /// The fixed data that a task belongs to. All tasks of one pool belong to the same.
    type Ground;

    /// What the task is known by. Labels need not differ.
    ghost label_of: { Self → List ℕ };

    /// What the task belongs to.
    ghost ground_of: { Self → Self.Ground };
}
