//! Laws of the cover equation: on lists of labels that count as one where they hold the same labels
//! as often, the roots and the kids of what the list holds are what it holds.

ghost use Rattle.std.specs.Prelude.{ℕ, ◌<◌, ◌↔◌, List, length, Contains};
ghost use Rattle.mine_model.specs.Labels.{SameLabels};
ghost use Rattle.search_tree.specs.Cover.{GrowByOne, Covers, IsInTree, AreApart, down_to};
ghost use Rattle.mine_model.specs.Labels.{IsOnce};

/// The cover equation has at most one solution.
pub fn at_most_one_cover()
    ensures { (roots : List (List ℕ)) (kids : List ℕ → List (List ℕ)) → GrowByOne kids →
        (first second : List (List ℕ)) → Covers roots kids first → Covers roots kids second →
        SameLabels first second }
{}

/// A solution holds the labels of the tree and no others. It holds each once where roots and kids come
/// once, each kid has one parent, and no root has one.
pub fn cover_is_the_tree()
    ensures members { (roots : List (List ℕ)) (kids : List ℕ → List (List ℕ)) → GrowByOne kids →
        (labels : List (List ℕ)) → Covers roots kids labels →
        (label : List ℕ) → Contains labels label ↔ IsInTree roots kids label }
    ensures once { (roots : List (List ℕ)) (kids : List ℕ → List (List ℕ)) → GrowByOne kids →
        AreApart roots kids → (labels : List (List ℕ)) → Covers roots kids labels → IsOnce labels }
{}

/// Where the labels of the tree are all shorter than some length, the equation has a solution.
pub fn short_tree_has_a_cover()
    ensures { (roots : List (List ℕ)) (kids : List ℕ → List (List ℕ)) → GrowByOne kids → (most : ℕ) →
        ((label : List ℕ) → IsInTree roots kids label → length label < most) →
        Covers roots kids (down_to roots kids most) }
{}
