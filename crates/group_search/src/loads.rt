//! Loads of groups at states.

/// Groups whose automata begin at the state with this number, or that stand there behind a prefix, and what
/// they weigh together.
#[derive(Clone, Copy, Debug, PartialEq, Eq)]
pub struct LoadedState {
    pub state: u32,
    pub weight: u64,
}
