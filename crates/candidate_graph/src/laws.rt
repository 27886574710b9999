//! Laws over the definitions. Each is the contract of a function that does nothing more.

ghost use Rattle.std.specs.Prelude.{◌≡◌, ℕ, ◌<◌, ◌⊎◌, ◌↔◌, [], ◌∷◌, List, Option, Some, IsTrue, Contains, slice_get};
ghost use Rattle.place_walk.specs.declared.stand.Stand.{Stand};
ghost use Rattle.place_walk.specs.Stands.{StandsAt};
ghost use Rattle.stand_sums.specs.Writings.{Ranks};
ghost use Rattle.candidate_graph.specs.declared.edge.Edge.{Edge};
ghost use Rattle.candidate_graph.specs.Courses.{Courses};
ghost use Rattle.candidate_graph.specs.Graphs.{Standpoint, Node, points_of, IsGraph, IsWhole};
ghost use Rattle.candidate_graph.specs.Paths.{CanWrite, HasEdge, Accepts};

use place_walk::visits_are_those_of_each_stand;

/// Where all edges are known, a list of ranks is that of a path of the graph just where one path from one of
/// the stands writes it: the graph has exactly the candidates.
pub fn candidates_are_the_paths()
    ensures { (courses : Courses) (ranks : Ranks) (need : Option ℕ) (nodes : List Node)
        → IsGraph courses ranks need nodes → IsWhole nodes
        → (number : ℕ) (at : Standpoint) → slice_get (points_of nodes) number ≡ Some at
        → (list : List ℕ) → Accepts nodes number list ↔ CanWrite courses ranks need at list }
{
    visits_are_those_of_each_stand();
}

/// The same for one edge, where those of its node are known: so a search that goes behind some edges alone
/// knows what it leaves out.
pub fn ranks_are_written_edge_by_edge()
    ensures { (courses : Courses) (ranks : Ranks) (need : Option ℕ) (nodes : List Node)
        → IsGraph courses ranks need nodes
        → (number : ℕ) (node : Node) (edges : List Edge) → slice_get nodes number ≡ Some node
        → node.edges ≡ Some edges → (rank : ℕ) (rest : List ℕ)
        → CanWrite courses ranks need node.at (rank ∷ rest)
        ↔ ((edge : Edge) × Contains edges edge × (edge.rank ≡ rank)
        × (((rest ≡ []) × IsTrue edge.ends) ⊎ ((next : Standpoint)
        × (slice_get (points_of nodes) edge.next ≡ Some next) × CanWrite courses ranks need next rest))) }
{
    visits_are_those_of_each_stand();
}

/// Where the paths of two nodes stand at the same places in the same states, and have seen the same, they are
/// one node.
pub fn equal_stands_are_one_node()
    ensures { (courses : Courses) (ranks : Ranks) (need : Option ℕ) (nodes : List Node)
        → IsGraph courses ranks need nodes → (number other : ℕ) (at there : Standpoint)
        → slice_get (points_of nodes) number ≡ Some at → slice_get (points_of nodes) other ≡ Some there
        → at.seen ≡ there.seen
        → ((place state : ℕ) → StandsAt at.stands place state ↔ StandsAt there.stands place state)
        → number ≡ other }
{}

/// A node has at most one edge with a rank, so a list of ranks has at most one path.
pub fn ranks_have_one_edge()
    ensures { (courses : Courses) (ranks : Ranks) (need : Option ℕ) (nodes : List Node)
        → IsGraph courses ranks need nodes → (number rank : ℕ) (one other : Edge)
        → HasEdge nodes number rank one → HasEdge nodes number rank other → one ≡ other }
{}

/// The stands behind an edge are behind the first one before it, so a path is no longer than the sequence.
pub fn places_rise_along_edges()
    ensures { (courses : Courses) (ranks : Ranks) (need : Option ℕ) (nodes : List Node)
        → IsGraph courses ranks need nodes → (number rank : ℕ) (edge : Edge)
        → HasEdge nodes number rank edge → (at next : Standpoint)
        → slice_get (points_of nodes) number ≡ Some at → slice_get (points_of nodes) edge.next ≡ Some next
        → (first stand : Stand) → slice_get at.stands 0 ≡ Some first → Contains next.stands stand
        → first.place < stand.place }
{}
