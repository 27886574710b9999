//! Laws over the definitions. Each is the contract of a function that does nothing. The hash may be any
//! function of lists of ranks: nothing rests on what it is.

ghost use Rattle.std.specs.Prelude.{◌≡◌, ℕ, ◌+◌, ◌≤◌, Bool, [], ◌∷◌, ◌++◌, List, length};
ghost use Rattle.mine_model.specs.declared.item.Item.{Item};
ghost use Rattle.mine_model.specs.Answer.{Data};
ghost use Rattle.mine_model.specs.Candidates.{IsCandidate};
ghost use Rattle.mine_model.specs.Growth.{WeighAtLeast};
ghost use Rattle.mine_model.specs.Ranks.{AreRanked};
ghost use Rattle.mine_model.specs.Support.{Sequence, Counts};
ghost use Rattle.candidate_graph.specs.Graphs.{Node};
ghost use Rattle.prefix_sieve.specs.Buckets.{AreJoined};
ghost use Rattle.prefix_sieve.specs.Hashes.{hash_of};
ghost use Rattle.prefix_sieve.specs.Fronts.{IsPassed, LeadsToAll};
ghost use Rattle.prefix_sieve.specs.Sieves.{HasCandidate, HasBehind, PassesAll, HasEnough, HasRaised, AreDealt, AreLevels};

/// Where each level comes from sums in which nothing was lost, a list of ranks passes with all its prefixes
/// if the sequences that have a candidate behind it weigh enough; so do all prefixes of a frequent pattern.
pub fn each_prefix_of_a_frequent_pattern_passes()
    ensures alive { (d : Data Item) (order : List Item) (hash : List ℕ → ℕ) (levels : List (List Bool))
        → AreLevels d order hash levels → (list : List ℕ)
        → WeighAtLeast (HasBehind d order list) d.sequences d.threshold → PassesAll hash levels list }
    ensures counted { (d : Data Item) (order : List Item) (hash : List ℕ → ℕ) (levels : List (List Bool))
        → AreLevels d order hash levels → (list : List ℕ) (n : ℕ)
        → Counts (HasCandidate d order list) d.sequences n → d.threshold ≤ n → PassesAll hash levels list }
    ensures frequent { (d : Data Item) (order : List Item) (hash : List ℕ → ℕ) (levels : List (List Bool))
        → AreLevels d order hash levels → (pattern : List Item) (list : List ℕ) → AreRanked order pattern list
        → (support : ℕ) → Counts (λ items. IsCandidate d items pattern) d.sequences support
        → d.threshold ≤ support → PassesAll hash levels list }
{}

/// Empty buckets lose nothing of no sequences, and a sequence that raises what it has to loses nothing.
pub fn one_more_sequence()
    ensures none { (d : Data Item) (order : List Item) (hash : List ℕ → ℕ) (levels : List (List Bool))
        (longest : ℕ) (sums : List ℕ) → HasEnough d order hash levels longest [] sums }
    ensures more { (d : Data Item) (order : List Item) (hash : List ℕ → ℕ) (levels : List (List Bool))
        (longest : ℕ) (sequences : List (Sequence Item)) (sequence : Sequence Item) (before after : List ℕ)
        → HasEnough d order hash levels longest sequences before
        → HasRaised d order hash levels longest sequence before after
        → HasEnough d order hash levels longest (sequences ++ sequence ∷ []) after }
{}

/// Nothing is lost where what two workers found is joined.
pub fn shares_join()
    ensures { (d : Data Item) (order : List Item) (hash : List ℕ → ℕ) (levels : List (List Bool))
        (longest : ℕ) (all some others : List (Sequence Item)) (mine theirs sums : List ℕ)
        → AreDealt all some others → HasEnough d order hash levels longest some mine
        → HasEnough d order hash levels longest others theirs → AreJoined mine theirs sums
        → HasEnough d order hash levels longest all sums }
{}

/// A pass over a sequence raises what it has to, where the edges of its graph tell what follows.
pub fn a_pass_raises_what_it_has_to()
    ensures { (d : Data Item) (order : List Item) (levels : List (List Bool)) (sequence : Sequence Item)
        (nodes : List Node) (before after : List ℕ) → LeadsToAll d order sequence.items nodes
        → IsPassed levels sequence.weight nodes before after
        → HasRaised d order hash_of levels (length levels + 1) sequence before after }
{}
