//! Laws over the definitions. Each is the contract of a function that does nothing more.

ghost use Rattle.std.specs.Prelude.{◌≡◌, ◌≢◌, ℕ, ◌⊎◌, ◌↔◌, [], ◌∷◌, ◌++◌, List, Some, IsTrue, Contains, slice_get};
ghost use Rattle.mine_model.specs.declared.item.Item.{Item};
ghost use Rattle.sequence_grids.specs.Grids.{GridList};
ghost use Rattle.candidate_graph.specs.declared.edge.Edge.{Edge};
ghost use Rattle.candidate_graph.specs.Graphs.{Node, IsWhole};
ghost use Rattle.candidate_graph.specs.Paths.{HasEdge, Accepts, Reaches};
ghost use Rattle.snapshot_project.specs.Extensions.{GeneratesWithin};
ghost use Rattle.sequence_candidates.specs.Candidates.{AreCandidates};

use candidate_graph::{candidates_are_the_paths, ranks_are_written_edge_by_edge};

/// Where all edges are known, the lists that are accepted from the first node are the ranks of the patterns
/// of the items within the part's bound.
pub fn whole_graphs_accept_the_patterns()
    ensures { (part : GridList) (items : List Item) (nodes : List Node) → AreCandidates part items nodes
        → IsWhole nodes → (list : List ℕ)
        → Accepts nodes 0 list ↔ ((list ≢ []) × GeneratesWithin part list items) }
{
    candidates_are_the_paths();
}

/// Then each edge ends, or leads to a node from which something is accepted.
pub fn edges_end_or_lead_on()
    ensures { (part : GridList) (items : List Item) (nodes : List Node) → AreCandidates part items nodes
        → IsWhole nodes → (number rank : ℕ) (edge : Edge) → HasEdge nodes number rank edge
        → IsTrue edge.ends ⊎ ((rest : List ℕ) × Accepts nodes edge.next rest) }
{
    candidates_are_the_paths();
}

/// What the edges of a node say of the prefixes that lead to it, whether the edges of other nodes are known
/// or not: their ranks are those that follow in a pattern of the items, and an edge ends where the prefix
/// with its rank is itself one. So a search that goes behind some prefixes alone knows what it leaves out.
pub fn edges_tell_what_follows()
    ensures follows { (part : GridList) (items : List Item) (nodes : List Node)
        → AreCandidates part items nodes → (prefix : List ℕ) (number : ℕ) → Reaches nodes 0 prefix number
        → (node : Node) (edges : List Edge) → slice_get nodes number ≡ Some node
        → node.edges ≡ Some edges → (rank : ℕ) → ((edge : Edge) × Contains edges edge × (edge.rank ≡ rank))
        ↔ ((rest : List ℕ) × GeneratesWithin part (prefix ++ rank ∷ rest) items) }
    ensures ends { (part : GridList) (items : List Item) (nodes : List Node)
        → AreCandidates part items nodes → (prefix : List ℕ) (number : ℕ) → Reaches nodes 0 prefix number
        → (node : Node) (edges : List Edge) → slice_get nodes number ≡ Some node
        → node.edges ≡ Some edges → (edge : Edge) → Contains edges edge
        → IsTrue edge.ends ↔ GeneratesWithin part (prefix ++ edge.rank ∷ []) items }
{
    ranks_are_written_edge_by_edge();
}
