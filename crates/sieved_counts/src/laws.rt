//! Laws over the definitions. Each is the contract of a function that does nothing.

ghost use Rattle.std.specs.Prelude.{◌≡◌, ℕ, ◌≤◌, ◌⊎◌, Bool, Some, [], ◌∷◌, ◌++◌, List, slice_get};
ghost use Rattle.mine_model.specs.declared.item.Item.{Item};
ghost use Rattle.mine_model.specs.Answer.{Data};
ghost use Rattle.mine_model.specs.Candidates.{IsCandidate};
ghost use Rattle.mine_model.specs.Ranks.{AreRanked};
ghost use Rattle.mine_model.specs.Support.{Sequence, Counts};
ghost use Rattle.candidate_graph.specs.Graphs.{Node};
ghost use Rattle.prefix_sieve.specs.Hashes.{hash_of};
ghost use Rattle.prefix_sieve.specs.Sieves.{HasCandidate, AreDealt, AreLevels};
ghost use Rattle.prefix_counts.specs.Prefixes.{Prefixes, no_prefixes, ArePrefixes};
ghost use Rattle.prefix_counts.specs.Sums.{sum_of, AreJoined};
ghost use Rattle.sieved_counts.specs.Counted.{HasCounted, LeadsToCandidates, AreShort, AreCounted};

use prefix_sieve::each_prefix_of_a_frequent_pattern_passes;

/// The empty list alone has the sums of no sequences.
pub fn nothing_is_counted_of_no_sequences()
    ensures { (d : Data Item) (order : List Item) (levels : List (List Bool))
        → AreCounted d order levels [] no_prefixes }
{}

/// With a sequence that was counted the sums are those of one sequence more, where the paths of its graph are
/// its candidates as far as edges are known.
pub fn one_more_sequence_is_counted()
    ensures { (d : Data Item) (order : List Item) (levels : List (List Bool))
        (sequences : List (Sequence Item)) (sequence : Sequence Item) (longest : ℕ) (nodes : List Node)
        (before after : Prefixes) → AreCounted d order levels sequences before
        → HasCounted levels sequence.weight longest nodes before after
        → AreShort d order sequence.items longest → LeadsToCandidates d order sequence.items nodes
        → AreCounted d order levels (sequences ++ sequence ∷ []) after }
{}

/// Each sum is what the sequences weigh that have a candidate, or 0: so there is room for the next weight
/// where all weights together have room.
pub fn sums_are_counted_or_none()
    ensures { (d : Data Item) (order : List Item) (levels : List (List Bool))
        (sequences : List (Sequence Item)) (prefixes : Prefixes)
        → AreCounted d order levels sequences prefixes → (list : List ℕ)
        → (sum_of prefixes list ≡ 0) ⊎ Counts (HasCandidate d order list) sequences (sum_of prefixes list) }
{}

/// Where sequences were dealt to two workers, who may take them in any order, and what both counted is
/// joined, all are counted.
pub fn joined_shares_are_counted()
    ensures { (d : Data Item) (order : List Item) (levels : List (List Bool))
        (all some others : List (Sequence Item)) (mine theirs joined : Prefixes)
        → AreDealt all some others → AreCounted d order levels some mine
        → AreCounted d order levels others theirs → AreJoined mine theirs joined
        → AreCounted d order levels all joined }
{}

/// Where all sequences were counted behind a sieve in which nothing was lost, each pattern whose support
/// reaches the threshold is there, with its support as the sum; and each list that has a sum is that of a
/// pattern, with the support of that.
pub fn frequent_patterns_are_counted()
    ensures all { (d : Data Item) (order : List Item) (levels : List (List Bool)) (prefixes : Prefixes)
        → AreLevels d order hash_of levels → AreCounted d order levels d.sequences prefixes
        → ArePrefixes prefixes → (pattern : List Item) (list : List ℕ) → AreRanked order pattern list
        → (support : ℕ) → Counts (λ items. IsCandidate d items pattern) d.sequences support
        → d.threshold ≤ support → 1 ≤ support
        → (number : ℕ) × (slice_get prefixes.lists number ≡ Some list)
        × (slice_get prefixes.sums number ≡ Some support) }
    ensures each { (d : Data Item) (order : List Item) (levels : List (List Bool)) (prefixes : Prefixes)
        → AreCounted d order levels d.sequences prefixes → ArePrefixes prefixes
        → (number : ℕ) (list : List ℕ) (sum : ℕ) → slice_get prefixes.lists number ≡ Some list
        → slice_get prefixes.sums number ≡ Some sum → 1 ≤ sum
        → (pattern : List Item) × AreRanked order pattern list
        × Counts (λ items. IsCandidate d items pattern) d.sequences sum }
{
    each_prefix_of_a_frequent_pattern_passes();
}
