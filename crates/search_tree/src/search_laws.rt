//! Laws of the search by prefixes, whatever walks the tree. Each is the contract of a function that does
//! nothing.

ghost use Rattle.std.specs.Prelude.{◌≡◌, ◌≢◌, ℕ, ◌≤◌, ◌<◌, List, [], ◌∷◌, ◌++◌, length, AllPairs, Contains};
ghost use Rattle.std.specs.List.{filter_map};
ghost use Rattle.mine_model.specs.declared.item.Item.{Item};
ghost use Rattle.mine_model.specs.Support.{HasFrequency};
ghost use Rattle.mine_model.specs.Answer.{Data};
ghost use Rattle.mine_model.specs.Ranks.{Ranking, AreRanked, AreRanks, AreTiesByName};
ghost use Rattle.mine_model.specs.PartitionWork.{IsPartitionWork, IsNamedBefore};
ghost use Rattle.mine_model.specs.declared.mined.Work.{Work};
ghost use Rattle.mine_model.specs.Growth.{IsAlive, AreFrequentItems, IsSearchWork};
ghost use Rattle.mine_model.specs.Numbered.{AreFrequent};
ghost use Rattle.search_tree.specs.Cover.{Covers};
ghost use Rattle.mine_model.specs.Pivots.{IsWithinPivot, label_of, IsAliveLabel};
ghost use Rattle.search_tree.specs.SearchTree.{SearchTree, IsSearchTree};
ghost use Rattle.search_tree.specs.RankedPartition.{IsRankedPartitionWork};

/// What begins an alive prefix is alive, among the patterns of frequent items and within the bound of a
/// pivot.
pub fn prefixes_of_alive_prefixes_are_alive()
    ensures prefixes { (data_of_run : Data (List ℕ)) (prefix more : List (List ℕ))
        → IsAlive data_of_run (AreFrequentItems data_of_run) (prefix ++ more)
        → IsAlive data_of_run (AreFrequentItems data_of_run) prefix }
    ensures labels { (d : Data Item) (order : List Item) (pivot : ℕ) (ranks others : List ℕ)
        → IsAliveLabel d order pivot (ranks ++ others) → IsAliveLabel d order pivot ranks }
{}

/// There is at most one search tree.
pub fn at_most_one_search_tree()
    ensures { (d : Data Item) (order : List Item) (pivots : List ℕ) (first second : SearchTree)
        → IsSearchTree d order pivots first → IsSearchTree d order pivots second → first ≡ second }
{}

/// Where the threshold is at least 1, the labels of the search tree have a cover: it is finite.
pub fn search_tree_has_a_cover()
    ensures { (d : Data Item) (order : List Item) (pivots : List ℕ) (tree : SearchTree)
        → 1 ≤ d.threshold → IsSearchTree d order pivots tree
        → (labels : List (List ℕ)) × Covers tree.roots tree.kids labels }
{}

/// Over a cover of the search tree without pivots the rows are the frequent patterns, where each item has a
/// frequency. Where the threshold is at least 1, its labels and roots are the counted work of the search.
pub fn rows_of_the_search_tree_are_the_frequent_patterns()
    ensures rows { (d : Data Item) (ranking : Ranking) (tree : SearchTree) (labels : List (List ℕ))
        → ((w : Item) → (m : ℕ) × HasFrequency d.links d.sequences w m)
        → AreRanks d.links d.sequences d.threshold ranking → IsSearchTree d ranking.order (0 ∷ []) tree
        → Covers tree.roots tree.kids labels → AreFrequent d (filter_map tree.row labels) }
    ensures work { (d : Data Item) (ranking : Ranking) (tree : SearchTree) (labels : List (List ℕ))
        → 1 ≤ d.threshold → AreRanks d.links d.sequences d.threshold ranking
        → IsSearchTree d ranking.order (0 ∷ []) tree → Covers tree.roots tree.kids labels
        → IsSearchWork d (record { nodes = length labels; parts = length tree.roots; candidates = 0 }) }
{}

/// A pattern of ranked items that is not empty has exactly one pivot, and labels of different pivots differ:
/// so the trees of the pivots share no label, and each pattern is a row of one of them at the most.
pub fn each_pattern_has_one_pivot()
    ensures some { (order items : List Item) (ranks : List ℕ) → items ≢ [] → AreRanked order items ranks
        → (pivot : ℕ) × (1 ≤ pivot) × IsWithinPivot order pivot items }
    ensures one { (order items : List Item) (first second : ℕ) → AllPairs (λ v w. v ≢ w) order
        → 1 ≤ first → 1 ≤ second → IsWithinPivot order first items → IsWithinPivot order second items
        → first ≡ second }
    ensures labels { (first second : ℕ) (ranks others : List ℕ)
        → label_of first ranks ≡ label_of second others → first ≡ second }
{}

/// Where the order of ranks is by frequency and then by name, and the ranks are those of items that have a
/// frequency in the list, the work of a search by pivots that is told by ranks is that told by items.
pub fn work_by_ranks_is_work_by_items()
    ensures { (names : List (List ℕ)) (d : Data Item) (ranking : Ranking) (work : Work) → 1 ≤ d.threshold
        → AreRanks d.links d.sequences d.threshold ranking → AreTiesByName names ranking
        → ((w : Item) → Contains ranking.order w → w.0 < length ranking.frequencies)
        → IsRankedPartitionWork d ranking.order work → IsPartitionWork (IsNamedBefore names) d work }
{}
