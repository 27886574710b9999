//! Laws over the definitions. Each is the contract of a function that does nothing more.

ghost use Rattle.std.specs.Prelude.{ℕ, List};
ghost use Rattle.mine_model.specs.declared.item.Item.{Item};
ghost use Rattle.mining_job.specs.Problems.{Problem, IsWhole, data_of};
ghost use Rattle.candidate_graph.specs.Graphs.{Node};
ghost use Rattle.sequence_candidates.specs.Candidates.{AreCandidates};
ghost use Rattle.prefix_sieve.specs.Fronts.{LeadsToAll};
ghost use Rattle.sieve_passes.specs.Branches.{part_of};

use sequence_candidates::edges_tell_what_follows;

/// Where no pivot bounds the candidates, the edges of a prefix tell all with which it begins a candidate of
/// the job.
pub fn candidates_lead_to_all()
    ensures { (problem : Problem) (sequences : List ℕ) (items : List Item) (nodes : List Node)
        → IsWhole problem → AreCandidates (part_of problem sequences) items nodes
        → LeadsToAll (data_of problem) problem.ranking.order items nodes }
{
    edges_tell_what_follows();
}
