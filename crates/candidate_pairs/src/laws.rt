//! Laws over the definitions. Each is the contract of a function that does nothing more.

ghost use Rattle.std.specs.Prelude.{◌≡◌, ℕ, List, Some, slice_get};
ghost use Rattle.candidate_graph.specs.declared.edge.Edge.{Edge};
ghost use Rattle.candidate_graph.specs.Graphs.{Node};
ghost use Rattle.graph_order.specs.Orders.{IsSomeGraph};
ghost use Rattle.candidate_pairs.specs.Paths.{HasPaths, HavePaths};

/// A node accepts as many lists as its edges have together, since no two of its edges have one rank.
pub fn paths_are_counted_edge_by_edge()
    ensures { (nodes : List Node) → IsSomeGraph nodes → (number : ℕ) (node : Node) (edges : List Edge)
        → slice_get nodes number ≡ Some node → node.edges ≡ Some edges
        → (count : ℕ) → HavePaths nodes edges count → HasPaths nodes number count }
{}
