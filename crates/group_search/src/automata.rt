ghost use Rattle.std.specs.Prelude.{◌≡◌, ◌<◌, List, length, Some, slice_get};
ghost use Rattle.automaton_model.specs.Automata.{StateValue};

use automaton_model::{Edge, Registry};

/// States of deterministic automata, by their numbers.
pub trait Automata {
    // The states.
    ghost states_of: { Self → List StateValue };

    /// Whether a list may end at the state. Takes no memory.
    fn accepts(&self, number: u32) -> bool
        requires { number < length (states_of self.now) }
        ensures { (state : StateValue) × (slice_get (states_of self.now) number ≡ Some state)
            × (result ≡ state.accepts) };

    /// The edges of the state. Takes no memory.
    fn edges(&self, number: u32) -> &[Edge]
        requires { number < length (states_of self.now) }
        ensures { (state : StateValue) × (slice_get (states_of self.now) number ≡ Some state)
            × (result.now ≡ state.edges) };
}

impl Automata for Registry {
    ghost states_of = { λ registry. registry };

    fn accepts(&self, number: u32) -> bool {
        self.state(number).accepts
    }

    fn edges(&self, number: u32) -> &[Edge] {
        self.state(number).edges.as_slice()
    }
}
