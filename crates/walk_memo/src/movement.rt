use state_bits::StateSet;

/// What a place does, for any path: the states that are entered in silence; those into which an edge writes;
/// those from which more can be written behind the place, and those from which it can be with what is needed;
/// those that can end behind it.
#[derive(Clone, Copy, Debug, PartialEq, Eq, Hash)]
pub struct Move<const W: usize> {
    pub silent: StateSet<W>,
    pub writes: StateSet<W>,
    pub more: StateSet<W>,
    pub unseen: StateSet<W>,
    pub ends: StateSet<W>,
}
