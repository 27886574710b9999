//! Laws over the definitions. Each is the contract of a function that does nothing more.

ghost use Rattle.std.specs.Prelude.{◌≡◌, ℕ, [], List, length};
ghost use Rattle.mine_model.specs.declared.item.Item.{Item};
ghost use Rattle.mining_job.specs.Problems.{Problem, IsWhole, data_of};
ghost use Rattle.candidate_graph.specs.Graphs.{Node};
ghost use Rattle.sequence_candidates.specs.Candidates.{AreCandidates};
ghost use Rattle.prefix_counts.specs.Prefixes.{no_prefixes};
ghost use Rattle.sieved_counts.specs.Counted.{LeadsToCandidates, AreShort, AreCounted};
ghost use Rattle.sieve_passes.specs.Branches.{part_of};
ghost use Rattle.sieve_passes.specs.Sums.{AreLevelsOf};

use sequence_candidates::edges_tell_what_follows;

/// Where no pivot bounds the candidates, the paths of a sequence's graph are its candidates of the job, as
/// far as edges are known; and no candidate has more ranks than the sequence has items.
pub fn graphs_lead_to_candidates()
    ensures leads { (problem : Problem) (sequences : List ℕ) (items : List Item) (nodes : List Node)
        → IsWhole problem → AreCandidates (part_of problem sequences) items nodes
        → LeadsToCandidates (data_of problem) problem.ranking.order items nodes }
    ensures short { (problem : Problem) (items : List Item)
        → AreShort (data_of problem) problem.ranking.order items (length items) }
{
    edges_tell_what_follows();
}

/// Where no item is frequent, there is no candidate: nothing has to be gone over, and the empty list alone
/// has the sums of all sequences, behind no level.
pub fn nothing_is_counted_where_no_item_is_frequent()
    ensures levels { (problem : Problem) → AreLevelsOf problem [] }
    ensures counted { (problem : Problem) → length problem.ranking.order ≡ 0
        → AreCounted (data_of problem) problem.ranking.order [] problem.sequences no_prefixes }
{}
