ghost use Rattle.std.specs.Prelude.{◌≡◌, ℕ, ◌<◌, List, Some, length, slice_get, AllPairs, Contains, OnOk};
ghost use Rattle.candidate_graph.specs.declared.edge.Edge.{Edge as Edged};
ghost use Rattle.candidate_graph.specs.Graphs.{Node, IsExpanded, Grows};

use candidate_graph::Edge;
use mine_model::NoMemory;

/// The graph of the candidates of one sequence, whose nodes get their edges when they are asked for. Its
/// first node is that of the empty prefix.
pub trait Branches {
    /// What the graph is of.
    type Ground;

    // What the graph is of, whatever nodes it has.
    ghost ground_of: { Self → Self.Ground };

    // Its nodes, by number.
    ghost nodes: { Self → List Node };

    // A sequence was begun.
    ghost IsBegun: { Self → Type 0 };

    /// Finds the edges of a node, where they are not known yet.
    fn expand(&mut self, node: u32) -> Result<(), NoMemory>
        requires begun { IsBegun self.old }
        requires node { node < length (nodes self.old) }
        ensures ground { ground_of self.new ≡ ground_of self.old }
        ensures begun { IsBegun self.new }
        ensures grows { Grows (nodes self.old) (nodes self.new) }
        ensures expanded { OnOk result (IsExpanded (nodes self.new) node) };

    /// The edges of a node, one for each rank.
    fn edges_of(&self, node: u32) -> &[Edge]
        requires begun { IsBegun self.now }
        requires expanded { IsExpanded (nodes self.now) node }
        ensures edges { (n : Node) (edges : List Edged) → slice_get (nodes self.now) node ≡ Some n
            → n.edges ≡ Some edges → result.now ≡ edges }
        ensures rising { AllPairs (λ low high. low.rank < high.rank) result.now }
        ensures within { (edge : Edged) → Contains result.now edge
            → edge.next < length (nodes self.now) };
}
