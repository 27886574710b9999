//! The edges of a node, by the moves that its paths may make.

ghost use Rattle.std.specs.Prelude.{◌≡◌, ℕ, ◌≤◌, ◌<◌, length, OnOk};
ghost use Rattle.sequence_grids.specs.Grids.{GridList};
ghost use Rattle.candidate_graph.specs.Graphs.{IsExpanded, Grows};
ghost use Rattle.snapshot_project.specs.Aims.{goes as goes_by};
ghost use Rattle.sequence_candidates.specs.Terrains.{IsOn};

use super::terrain::Terrain;
use candidate_graph::Graph;
use mine_model::NoMemory;
use place_walk::Visits;

/// Finds the edges of a node, where they are not known yet.
pub(crate) fn expand_over<const W: usize>(
    terrain: &mut Terrain<W>,
    graph: &mut Graph,
    node: u32,
    need: Option<u32>,
    visits: &mut Visits,
) -> Result<(), NoMemory>
    requires width { W ≤ 17 }
    requires node { node < length graph.old.nodes }
    requires on { (part : GridList) × (index : ℕ)
        × IsOn part need terrain.old index graph.old.room graph.old.nodes }
    ensures on { (part : GridList) (index : ℕ)
        → IsOn part need terrain.old index graph.old.room graph.old.nodes
        → IsOn part need terrain.new index graph.new.room graph.new.nodes }
    ensures grows { Grows graph.old.nodes graph.new.nodes }
    ensures expanded { OnOk result (IsExpanded graph.new.nodes node) }
{
    if goes(graph.seen(node), need) {
        graph.expand(
            node,
            &mut terrain.late,
            terrain.records.places(),
            terrain.records.table(),
            need,
            visits,
        )
    } else {
        graph.expand(
            node,
            &mut terrain.early,
            terrain.records.places(),
            terrain.records.table(),
            need,
            visits,
        )
    }
}

// Whether a path need not write what is needed: where something is needed that was seen.
fn goes(seen: bool, need: Option<u32>) -> bool
    ensures { result ≡ goes_by seen need }
{
    match need {
        None => false,
        Some(_) => seen,
    }
}
