//! Laws over the definitions. Each is the contract of a function that does nothing.

ghost use Rattle.std.specs.Prelude.{◌≡◌, ℕ, ◌+◌, ◌≤◌, ◌<◌, ◌⊎◌, ◌↔◌, Bool, true, false, [], ◌∷◌, ◌++◌, List, Some, map, set, drop, slice_get};
ghost use Rattle.mine_model.specs.declared.item.Item.{Item};
ghost use Rattle.mine_model.specs.Database.{sequence_at};
ghost use Rattle.mine_model.specs.Growth.{WeighAtLeast, HasPatternBehind};
ghost use Rattle.mine_model.specs.Numbered.{tree_of};
ghost use Rattle.mine_model.specs.Pivots.{IsWithinPivot};
ghost use Rattle.mine_model.specs.Ranks.{AreRanked};
ghost use Rattle.mine_model.specs.Support.{Sequence, Counts, HasSupport};
ghost use Rattle.fst_compile.specs.Transducer.{Leads};
ghost use Rattle.mining_job.specs.declared.bound.Bound.{Bound};
ghost use Rattle.mining_job.specs.declared.part_seed.PartSeed.{PartSeed};
ghost use Rattle.mining_job.specs.Parts.{pivot_of, IsComplete};
ghost use Rattle.mining_job.specs.Problems.{Problem, IsWhole, data_of};
ghost use Rattle.sequence_grids.specs.declared.kinds.Kind.{Kind};
ghost use Rattle.sequence_grids.specs.declared.kinds.Kinds.{Kinds};
ghost use Rattle.sequence_grids.specs.Grids.{Completes, Ends, Reads};
ghost use Rattle.sequence_grids.specs.Kinds.{Writes, Needs, IsKind, HasKind};
ghost use Rattle.sequence_grids.specs.Tables.{ClassSets};
ghost use Rattle.part_windows.specs.Entries.{AreEntries, HasChosen, IsKey, AreMergedBy, IsBoundOf};
ghost use Rattle.part_windows.specs.Patterns.{IsWithinBound, IsPatternWithin, HaveSamePatterns};
ghost use Rattle.part_windows.specs.Windows.{IsReached, IsWrittenAt, Window, IsWindow, IsWrittenIn, AreOfOneKind, AgreeUpTo, AreAlike, whole_window};

/// What a sequence has within the bound is what its window has: its patterns are those that a path writes
/// there.
pub fn patterns_are_written_in_the_window()
    ensures { (problem : Problem) → IsWhole problem → (bound : Bound) (window : Window)
        → IsWindow problem bound window → (pattern : List Item) (ranks : List ℕ)
        → AreRanked problem.ranking.order pattern ranks
        → IsPatternWithin problem bound window.items pattern ↔ IsWrittenIn problem bound window ranks }
{}

/// Sequences with windows that are alike have the same patterns, whatever stands around the windows.
pub fn alike_windows_have_the_same_patterns()
    ensures { (problem : Problem) → IsWhole problem → (bound : Bound) (one other : Window)
        → IsWindow problem bound one → IsWindow problem bound other → AreAlike problem bound one other
        → HaveSamePatterns problem bound one.items other.items }
{}

/// Items are of one kind where a table has one number for both, or two whose lists agree up to the top; and
/// items of one kind under a bound are so under each that allows less.
pub fn kinds_tell_items_of_one_kind()
    ensures number { (problem : Problem) (bound : Bound) (classes : List ClassSets) (kinds : Kinds)
        (t u : Item) (number : ℕ) → HasKind problem bound classes kinds t number
        → HasKind problem bound classes kinds u number → AreOfOneKind problem bound t u }
    ensures narrower { (problem : Problem) (bound wide : Bound) (t u : Item) → bound.top ≤ wide.top
        → AreOfOneKind problem wide t u → AreOfOneKind problem bound t u }
    ensures cut { (problem : Problem) (bound wide : Bound) (classes : List ClassSets) (kinds : Kinds)
        (t u : Item) (one other : Kind) → bound.top ≤ wide.top
        → IsKind problem wide classes kinds.columns kinds.ends.items kinds.ranks.items t one
        → IsKind problem wide classes kinds.columns kinds.ends.items kinds.ranks.items u other
        → AgreeUpTo problem bound.top classes kinds one other → AreOfOneKind problem bound t u }
{}

/// The places that matter are known from where paths write first and where they write last.
pub fn windows_reach_from_first_to_last_writes()
    ensures { (problem : Problem) (bound : Bound) (items : List Item) (from to : ℕ)
        → ((place : ℕ) (written : IsWrittenAt problem bound items place) → written.early ≡ [] → from ≤ place)
        → ((place : ℕ) (written : IsWrittenAt problem bound items place) → written.late ≡ [] → place < to)
        → (place : ℕ) → IsWrittenAt problem bound items place → (from ≤ place) × (place < to) }
{}

/// Where a path writes first, it enters a state, writing, from which a path completes; where it writes last,
/// one from which a path ends.
pub fn first_writes_complete_and_last_writes_end()
    ensures first { (problem : Problem) → IsWhole problem → (bound : Bound) (items : List Item) (place : ℕ)
        (written : IsWrittenAt problem bound items place) → written.early ≡ []
        → (Writes problem bound written.t written.next
        × Completes problem bound (drop (place + 1) items) written.next false)
        ⊎ (Needs problem bound written.t written.next
        × Completes problem bound (drop (place + 1) items) written.next true) }
    ensures last { (problem : Problem) → IsWhole problem → (bound : Bound) (items : List Item) (place : ℕ)
        (written : IsWrittenAt problem bound items place) → written.late ≡ []
        → Ends problem (drop (place + 1) items) written.next }
{}

/// The states that are reached where nothing was written are known item by item, also where states are left
/// out at each place from which no path completes.
pub fn silent_runs_go_item_by_item()
    ensures none { (problem : Problem) (bound : Bound) (k : ℕ) → IsReached problem bound [] k ↔ (0 ≡ k) }
    ensures more { (problem : Problem) (bound : Bound) (items : List Item) (t : Item) (k : ℕ)
        → IsReached problem bound (items ++ t ∷ []) k
        ↔ ((q : ℕ) × IsReached problem bound items q × Leads problem.transducer q k × Reads problem t k []) }
    ensures live { (problem : Problem) → IsWhole problem → (bound : Bound) (items : List Item) (t : Item)
        (rest : List Item) (k : ℕ) → IsReached problem bound (items ++ t ∷ []) k
        → Completes problem bound rest k false
        → (q : ℕ) × IsReached problem bound items q × Completes problem bound (t ∷ rest) q false
        × Leads problem.transducer q k × Reads problem t k [] }
{}

/// All items of a sequence are a window of it.
pub fn each_sequence_has_a_window()
    ensures { (problem : Problem) (bound : Bound) (items : List Item)
        → IsWindow problem bound (whole_window problem items) }
{}

/// What is asked of sequences by their patterns within the bound weighs the same over the entries: the
/// support of a pattern, a prefix of patterns, any choice of patterns.
pub fn entries_weigh_what_their_sequences_weigh()
    ensures support { (problem : Problem) (bound : Bound) (sequences entries : List (Sequence Item))
        → AreEntries problem bound sequences entries → (pattern : List Item)
        → IsWithinBound problem bound pattern → (n : ℕ)
        → HasSupport problem.hierarchy.links (tree_of problem.transducer.expression) entries pattern n
        ↔ HasSupport problem.hierarchy.links (tree_of problem.transducer.expression) sequences pattern n }
    ensures behind { (problem : Problem) (bound : Bound) (sequences entries : List (Sequence Item))
        → AreEntries problem bound sequences entries → (prefix : List Item) (n : ℕ)
        → Counts (HasPatternBehind (data_of problem) (IsWithinBound problem bound) prefix) entries n
        ↔ Counts (HasPatternBehind (data_of problem) (IsWithinBound problem bound) prefix) sequences n }
    ensures enough { (problem : Problem) (bound : Bound) (sequences entries : List (Sequence Item))
        → AreEntries problem bound sequences entries → (prefix : List Item) (n : ℕ)
        → WeighAtLeast (HasPatternBehind (data_of problem) (IsWithinBound problem bound) prefix) entries n
        ↔ WeighAtLeast (HasPatternBehind (data_of problem) (IsWithinBound problem bound) prefix) sequences n }
    ensures chosen { (problem : Problem) (bound : Bound) (sequences entries : List (Sequence Item))
        → AreEntries problem bound sequences entries → (is_chosen : List Item → Bool) (n : ℕ)
        → Counts (HasChosen problem bound is_chosen) entries n
        ↔ Counts (HasChosen problem bound is_chosen) sequences n }
{}

/// Where all sequences of a pivot's part are merged, the entries tell what the whole problem has within the
/// bound: the support of each pattern, and what the sequences weigh that have one behind a prefix.
pub fn entries_tell_the_supports_of_a_part()
    ensures support { (problem : Problem) (seed : PartSeed) → IsComplete problem seed → (bound : Bound)
        → IsBoundOf problem (pivot_of seed.pivot) bound → (entries : List (Sequence Item))
        → AreEntries problem bound (map (λ i. sequence_at problem.sequences i) seed.sequences.items) entries
        → (pattern : List Item) → IsWithinPivot problem.ranking.order (pivot_of seed.pivot) pattern
        → (n : ℕ)
        → HasSupport problem.hierarchy.links (tree_of problem.transducer.expression) entries pattern n
        ↔ HasSupport problem.hierarchy.links (tree_of problem.transducer.expression) problem.sequences
        pattern n }
    ensures behind { (problem : Problem) (seed : PartSeed) → IsComplete problem seed → (bound : Bound)
        → IsBoundOf problem (pivot_of seed.pivot) bound → (entries : List (Sequence Item))
        → AreEntries problem bound (map (λ i. sequence_at problem.sequences i) seed.sequences.items) entries
        → (prefix : List Item) (n : ℕ)
        → Counts (HasPatternBehind (data_of problem)
        (IsWithinPivot problem.ranking.order (pivot_of seed.pivot)) prefix) entries n
        ↔ Counts (HasPatternBehind (data_of problem)
        (IsWithinPivot problem.ranking.order (pivot_of seed.pivot)) prefix) problem.sequences n }
    ensures enough { (problem : Problem) (seed : PartSeed) → IsComplete problem seed → (bound : Bound)
        → IsBoundOf problem (pivot_of seed.pivot) bound → (entries : List (Sequence Item))
        → AreEntries problem bound (map (λ i. sequence_at problem.sequences i) seed.sequences.items) entries
        → (prefix : List Item) (n : ℕ)
        → WeighAtLeast (HasPatternBehind (data_of problem)
        (IsWithinPivot problem.ranking.order (pivot_of seed.pivot)) prefix) problem.sequences n
        → WeighAtLeast (HasPatternBehind (data_of problem)
        (IsWithinPivot problem.ranking.order (pivot_of seed.pivot)) prefix) entries n }
{}

/// Entries are made sequence by sequence: of none there are none; one more sequence is an entry of its own,
/// or adds its weight to an entry that has its patterns. So each sequence may be its own entry.
pub fn entries_are_made_one_by_one()
    ensures none { (problem : Problem) (bound : Bound) → AreEntries problem bound [] [] }
    ensures own { (problem : Problem) (bound : Bound) (sequences entries : List (Sequence Item))
        → AreEntries problem bound sequences entries → (sequence : Sequence Item)
        → AreEntries problem bound (sequences ++ sequence ∷ []) (entries ++ sequence ∷ []) }
    ensures more { (problem : Problem) (bound : Bound) (sequences entries : List (Sequence Item))
        → AreEntries problem bound sequences entries → (sequence : Sequence Item) (k : ℕ)
        (entry : Sequence Item) → slice_get entries k ≡ Some entry
        → HaveSamePatterns problem bound sequence.items entry.items
        → AreEntries problem bound (sequences ++ sequence ∷ [])
        (set entries k (record entry { weight = entry.weight + sequence.weight })) }
    ensures alone { (problem : Problem) (bound : Bound) (sequences : List (Sequence Item))
        → AreEntries problem bound sequences sequences }
{}

/// Sequences that are merged by a key make entries, where equal keys mean equal patterns.
pub fn equal_keys_make_entries()
    ensures { (problem : Problem) (bound : Bound) (key : List Item → List ℕ)
        (sequences entries : List (Sequence Item)) → IsKey problem bound key sequences entries
        → AreMergedBy key sequences entries → AreEntries problem bound sequences entries }
{}
