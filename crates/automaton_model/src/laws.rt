//! Laws of candidate automata. Each is the contract of a function that does nothing.

ghost use Rattle.std.specs.Prelude.{◌≡◌, ◌≢◌, ℕ, ◌+◌, ◌^◌, ◌≤◌, ◌<◌, ◌↔◌, List, [], ◌∷◌, ◌++◌, map, length, sum_by, Some, slice_get, AllPairs, Contains};
ghost use Rattle.std.specs.List.{AllZip, flat_map};
ghost use Rattle.mine_model.specs.declared.item.Item.{Item};
ghost use Rattle.mine_model.specs.declared.row.Row.{Row as FoundRow};
ghost use Rattle.mine_model.specs.declared.mined.Work.{Work as TheWork};
ghost use Rattle.mine_model.specs.Support.{Sequence, Counts, HasFrequency};
ghost use Rattle.mine_model.specs.PartitionWork.{IsBytewiseBefore};
ghost use Rattle.mine_model.specs.Answer.{Data, IsFrequent};
ghost use Rattle.mine_model.specs.Ranks.{Ranking, AreRanks};
ghost use Rattle.mine_model.specs.Pivots.{IsWithinPivot, IsAliveLabel};
ghost use Rattle.mine_model.specs.Numbered.{AreFrequent};
ghost use Rattle.automaton_model.specs.declared.groups.Group.{Group as SetGroup};
ghost use Rattle.automaton_model.specs.Automata.{StateValue, Accepts};
ghost use Rattle.automaton_model.specs.Codes.{IsMinimalAutomaton, IsCodeOf};
ghost use Rattle.automaton_model.specs.Members.{IsPivotMember, IsPivotCode};
ghost use Rattle.automaton_model.specs.Groups.{AreGroups, LieIn, grouped, IsGroupRow, AreGroupRows, AreOfPivot, part_of, AreRowsOfPivot, AreGroupsOfPivot};
ghost use Rattle.automaton_model.specs.Merges.{IsCodedBy, AreMerged};
ghost use Rattle.automaton_model.specs.Work.{IsAutomatonWork, pairs_of};
ghost use Rattle.automaton_model.specs.NamedWork.{IsCandidateSetWork};
ghost use Rattle.automaton_model.specs.Languages.{IsRightLanguageOf, IsStateOf};
ghost use Rattle.automaton_model.specs.Searches.{BeginIn, Load, Weigh, AreMoved};
ghost use Rattle.automaton_model.specs.Registry.{AcceptTheSame, IsRegistry};
ghost use Rattle.automaton_model.specs.Walks.{Path, IsVisited, IsWalk, paths_from, IsRenumbered};

/// Equal codes have equal sets, of whatever data, sequence and pivot, and of whatever lists.
pub fn equal_codes_have_equal_sets()
    ensures sequences { (d e : Data Item) (order others : List Item) (pivot top : ℕ) (items more : List Item)
        (code : List ℕ) → IsPivotCode d order pivot code items → IsPivotCode e others top code more
        → (ranks : List ℕ) → IsPivotMember d order pivot items ranks ↔ IsPivotMember e others top more ranks }
    ensures lists { (first second : List (List ℕ)) (code : List ℕ) → IsCodeOf (Contains first) code
        → IsCodeOf (Contains second) code → (ranks : List ℕ) → Contains first ranks ↔ Contains second ranks }
{}

/// A set has at most one code, and equal sets have it together.
pub fn sets_have_one_code()
    ensures one { (d : Data Item) (order : List Item) (pivot : ℕ) (items : List Item) (code other : List ℕ)
        → IsPivotCode d order pivot code items → IsPivotCode d order pivot other items → code ≡ other }
    ensures same { (d : Data Item) (order : List Item) (pivot : ℕ) (items others : List Item) (code : List ℕ)
        → ((ranks : List ℕ) → IsPivotMember d order pivot items ranks
        ↔ IsPivotMember d order pivot others ranks)
        → IsPivotCode d order pivot code items → IsPivotCode d order pivot code others }
    ensures lists { (lists : List (List ℕ)) (code other : List ℕ) → IsCodeOf (Contains lists) code
        → IsCodeOf (Contains lists) other → code ≡ other }
{}

/// What groups count of ranks is what the sequences count of them.
pub fn counting_groups_is_counting_sequences()
    ensures { (d : Data Item) (order : List Item) (pivot : ℕ) (sequences : List (Sequence Item))
        (groups : List SetGroup) → AreGroups d order pivot sequences groups → (ranks : List ℕ) (n : ℕ)
        → Counts (LieIn ranks) (grouped groups) n
        ↔ Counts (λ items. IsPivotMember d order pivot items ranks) sequences n }
{}

/// Codes of sequences with their weights, merged, are the groups of the sequences, where these weigh less
/// than 2^64 together.
pub fn merged_codes_are_the_groups_of_the_sequences()
    ensures { (d : Data Item) (order : List Item) (pivot : ℕ) (sequences : List (Sequence Item))
        (parts groups : List SetGroup) → AllZip (IsCodedBy d order pivot) sequences parts
        → sum_by (λ (part : SetGroup). part.count) parts < 2 ^ 64 → AreMerged parts groups
        → AreGroups d order pivot sequences groups }
{}

/// The rows of a part's groups are the frequent patterns with its pivot.
pub fn rows_of_groups_are_the_frequent_patterns()
    ensures one { (d : Data Item) (order : List Item) (pivot : ℕ) (numbers : List ℕ) (groups : List SetGroup)
        → AreOfPivot d order pivot numbers → AreGroups d order pivot (part_of d numbers) groups
        → 1 ≤ d.threshold → (row : FoundRow) → IsGroupRow order d.threshold groups row
        ↔ (IsFrequent d row.pattern row.support × IsWithinPivot order pivot row.pattern) }
    ensures all { (d : Data Item) (order : List Item) (pivot : ℕ) (numbers : List ℕ) (groups : List SetGroup)
        → AreOfPivot d order pivot numbers → AreGroups d order pivot (part_of d numbers) groups
        → 1 ≤ d.threshold → (rows : List FoundRow) → AreGroupRows order d.threshold groups rows
        → AreRowsOfPivot d order pivot rows }
{}

/// The rows of all alive pivots are the frequent patterns, each once, where each item has a frequency.
pub fn rows_of_pivots_are_the_answer()
    ensures { (d : Data Item) (ranking : Ranking) → AreRanks d.links d.sequences d.threshold ranking
        → ((w : Item) → (m : ℕ) × HasFrequency d.links d.sequences w m)
        → (pivots : List ℕ) → AllPairs (λ low high. low < high) pivots
        → ((pivot : ℕ) → Contains pivots pivot ↔ ((1 ≤ pivot) × IsAliveLabel d ranking.order pivot []))
        → (lists : List (List FoundRow)) → AllZip (AreRowsOfPivot d ranking.order) pivots lists
        → AreFrequent d (flat_map (λ (rows : List FoundRow). rows) lists) }
{}

/// States of a registry that accept the same lists are one state.
pub fn equal_states_are_one()
    ensures { (states : List StateValue) → IsRegistry states → (i j : ℕ) (s t : StateValue)
        → slice_get states i ≡ Some s → slice_get states j ≡ Some t → AcceptTheSame states i j → i ≡ j }
{}

/// A depth-first walk over a registry, with a stack of the paths that wait, numbers the minimal automaton of
/// what the root accepts.
pub fn the_walk_numbers_the_minimal_automaton()
    ensures begin { (states : List StateValue) → IsRegistry states → (root : ℕ)
        → IsWalk states root [] (record { prefix = []; state = root } ∷ []) }
    ensures pass { (states : List StateValue) → IsRegistry states → (root : ℕ) (visits waiting : List Path)
        (path : Path)
        → IsWalk states root visits (path ∷ waiting) → IsVisited visits path.state
        → IsWalk states root visits waiting }
    ensures visit { (states : List StateValue) → IsRegistry states → (root : ℕ) (visits waiting : List Path)
        (path : Path) (state : StateValue) → IsWalk states root visits (path ∷ waiting)
        → (IsVisited visits path.state → ⊥) → slice_get states path.state ≡ Some state
        → IsWalk states root (visits ++ path ∷ []) (paths_from path state.edges ++ waiting) }
    ensures finish { (states : List StateValue) → IsRegistry states → (root : ℕ) (visits : List Path)
        (state : StateValue)
        (new : List StateValue) → IsWalk states root visits [] → slice_get states root ≡ Some state
        → AllZip (IsRenumbered states visits) visits new → IsMinimalAutomaton (Accepts states root) new }
{}

/// Each finite set of lists has a code.
pub fn each_finite_set_has_a_code()
    ensures { (lists : List (List ℕ)) → (code : List ℕ) × IsCodeOf (Contains lists) code }
{}

/// The set is the right language of a state that tells it, where the registry has this state; else the
/// registry stays one with the state behind the others, and there the set is its right language. States are
/// one exactly where their right languages are equal.
pub fn a_registry_grows()
    ensures found { (states : List StateValue) → IsRegistry states → (lists : List (List ℕ))
        (state : StateValue)
        → IsStateOf (Contains lists) states state → (number : ℕ) → slice_get states number ≡ Some state
        → IsRightLanguageOf (Contains lists) states number }
    ensures pushed { (states : List StateValue) → IsRegistry states → (lists : List (List ℕ))
        (state : StateValue)
        → IsStateOf (Contains lists) states state
        → IsRightLanguageOf (Contains lists) (states ++ state ∷ []) (length states) }
    ensures stays { (states : List StateValue) → IsRegistry states → (lists : List (List ℕ))
        (state : StateValue)
        → IsStateOf (Contains lists) states state
        → ((other : StateValue) → Contains states other → other ≢ state) → IsRegistry (states ++ state ∷ []) }
    ensures same { (states : List StateValue) → IsRegistry states → (first second : List (List ℕ)) (i j : ℕ)
        → i < length states → j < length states → IsRightLanguageOf (Contains first) states i
        → IsRightLanguageOf (Contains second) states j
        → (i ≡ j) ↔ ((ranks : List ℕ) → Contains first ranks ↔ Contains second ranks) }
{}

/// Where the groups that go on behind a prefix weigh less than the threshold, no row begins with the prefix.
pub fn light_prefixes_have_no_rows()
    ensures { (groups : List SetGroup) (prefix more : List ℕ) (n m threshold : ℕ)
        → Counts (BeginIn prefix) (grouped groups) n → n < threshold
        → Counts (LieIn (prefix ++ more)) (grouped groups) m → threshold ≤ m → ⊥ }
{}

/// The number of groups of all alive pivots is the counted work.
pub fn groups_are_the_work()
    ensures { (d : Data Item) (order : List Item) (pivots : List ℕ) → AllPairs (λ low high. low < high) pivots
        → ((pivot : ℕ) → Contains pivots pivot ↔ ((1 ≤ pivot) × IsAliveLabel d order pivot []))
        → (lists : List (List SetGroup)) → AllZip (AreGroupsOfPivot d order) pivots lists
        → IsAutomatonWork d order
        (record { nodes = 0; parts = length (pairs_of pivots lists); candidates = 0 }) }
{}

/// At most one work is that of the engine over candidate automata on the data of a run.
pub fn at_most_one_candidate_set_work()
    ensures { (data_of_run : Data (List ℕ)) (first second : TheWork)
        → IsCandidateSetWork IsBytewiseBefore data_of_run first
        → IsCandidateSetWork IsBytewiseBefore data_of_run second → first ≡ second }
{}

/// The codes of no list, of one list, and of three lists of which two rests are one state.
pub fn worked_codes()
    ensures none { IsCodeOf (Contains []) (0 ∷ 0 ∷ []) }
    ensures one { IsCodeOf (Contains ((3 ∷ 1 ∷ []) ∷ [])) (0 ∷ 1 ∷ 3 ∷ 1 ∷ 0 ∷ 1 ∷ 1 ∷ 2 ∷ 1 ∷ 0 ∷ []) }
    ensures three { IsCodeOf (Contains ((3 ∷ 1 ∷ []) ∷ (3 ∷ 2 ∷ 1 ∷ []) ∷ (3 ∷ 3 ∷ 1 ∷ []) ∷ []))
        (0 ∷ 1 ∷ 3 ∷ 1 ∷ 0 ∷ 3 ∷ 1 ∷ 2 ∷ 2 ∷ 3 ∷ 3 ∷ 3 ∷ 1 ∷ 0 ∷ 0 ∷ 1 ∷ 1 ∷ 2 ∷ []) }
{}

/// Loads at states of a registry, as groups are searched for rows: those that go along the edges by a rank
/// weigh what the loads weigh behind the rank, and loads at one state may be added up.
pub fn loads_go_along_edges()
    ensures moved { (states : List StateValue) → IsRegistry states → (rank : ℕ) (ranks : List ℕ)
        (loads others : List Load) → AreMoved states rank loads others
        → (n : ℕ) → Weigh (λ k. Accepts states k ranks) others n
        → Weigh (λ k. Accepts states k (rank ∷ ranks)) loads n }
    ensures added { (states : List StateValue) (ranks : List ℕ) (state a b : ℕ) (loads : List Load) (n : ℕ)
        → Weigh (λ k. Accepts states k ranks) ((record { state = state; weight = a })
        ∷ (record { state = state; weight = b }) ∷ loads) n
        → Weigh (λ k. Accepts states k ranks) ((record { state = state; weight = a + b }) ∷ loads) n }
{}
