//! A law of the search by pivots, whatever walks the trees: the contract of a function that does nothing.

ghost use Rattle.std.specs.Prelude.{ℕ, List, length};
ghost use Rattle.std.specs.List.{filter_map};
ghost use Rattle.mine_model.specs.declared.item.Item.{Item};
ghost use Rattle.mine_model.specs.Support.{HasFrequency};
ghost use Rattle.mine_model.specs.Answer.{Data};
ghost use Rattle.mine_model.specs.Ranks.{Ranking, AreRanks};
ghost use Rattle.mine_model.specs.Numbered.{AreFrequent};
ghost use Rattle.search_tree.specs.Cover.{Covers};
ghost use Rattle.search_tree.specs.SearchTree.{SearchTree, IsSearchTree};
ghost use Rattle.search_tree.specs.RankedPartition.{AreAlivePivots, IsRankedPartitionWork};

/// Over a cover of the trees of the alive pivots the rows are the frequent patterns, each once, where each
/// item has a frequency. The labels and the roots are the counted work of the search by pivots.
pub fn rows_of_the_trees_of_pivots_are_the_frequent_patterns()
    ensures rows { (d : Data Item) (ranking : Ranking) (pivots : List ℕ) (tree : SearchTree)
        (labels : List (List ℕ)) → ((w : Item) → (m : ℕ) × HasFrequency d.links d.sequences w m)
        → AreRanks d.links d.sequences d.threshold ranking → AreAlivePivots d ranking.order pivots
        → IsSearchTree d ranking.order pivots tree → Covers tree.roots tree.kids labels
        → AreFrequent d (filter_map tree.row labels) }
    ensures work { (d : Data Item) (ranking : Ranking) (pivots : List ℕ) (tree : SearchTree)
        (labels : List (List ℕ)) → AreRanks d.links d.sequences d.threshold ranking
        → AreAlivePivots d ranking.order pivots → IsSearchTree d ranking.order pivots tree
        → Covers tree.roots tree.kids labels → IsRankedPartitionWork d ranking.order
        (record { nodes = length labels; parts = length tree.roots; candidates = 0 }) }
{}
