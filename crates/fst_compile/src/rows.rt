//! The edges between states, for each state as the set of states that it leads to.

ghost use Rattle.std.specs.Prelude.{◌≡◌, ℕ, ◌<◌, ◌≤◌, length, All, Contains};
ghost use Rattle.fst_compile.specs.Rows.{Adds, IsSetOf};

use state_bits::StateSet;

/// A set of states: it has room for 1,025 of them.
pub(crate) type States = StateSet<17>;

/// The set of these states.
pub(crate) fn set_of(states: &[u32]) -> States
    requires { All (λ k. k < 1088) states.now }
    ensures { IsSetOf result states.now }
{
    let mut set = States::new();
    for k in states {
        set.add(*k);
    }
    set
}

/// Adds an edge from each of some states to each of others.
pub(crate) fn link(rows: &mut [States], last: &[u32], first: &[u32])
    requires last { All (λ j. j < length rows.old) last.now }
    requires first { All (λ k. k < 1088) first.now }
    ensures { Adds rows.old rows.new (λ j k. Contains last.now j × Contains first.now k) }
{
    let targets = set_of(first);
    for j in last {
        rows[*j as usize].union_with(&targets);
    }
}
