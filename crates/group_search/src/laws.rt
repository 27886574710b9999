//! Laws of the search for rows.

ghost use Rattle.std.specs.Prelude.{◌≡◌, ℕ, ◌≤◌, List, length, Contains};
ghost use Rattle.std.specs.List.{AllZip};
ghost use Rattle.mine_model.specs.declared.item.Item.{Item};
ghost use Rattle.mine_model.specs.declared.row.Row.{Row as FoundRow};
ghost use Rattle.mine_model.specs.Answer.{Data};
ghost use Rattle.mine_model.specs.Support.{Sequence};
ghost use Rattle.automaton_model.specs.declared.groups.Group.{Group as SetGroup};
ghost use Rattle.automaton_model.specs.Automata.{StateValue, Accepts};
ghost use Rattle.automaton_model.specs.Registry.{IsRegistry};
ghost use Rattle.automaton_model.specs.Searches.{Load};
ghost use Rattle.automaton_model.specs.Members.{IsPivotCode};
ghost use Rattle.automaton_model.specs.Groups.{AreGroups, AreGroupRows};
ghost use Rattle.group_search.specs.Found.{AreLoadedRows, StandsFor};
ghost use Rattle.group_search.specs.Searched.{IsTrim, IsSearched};

/// The states of a registry are trim, and a list that is accepted from one is no longer than its number.
pub fn registries_are_trim()
    ensures trim { (states : List StateValue) → IsRegistry states → IsTrim states }
    ensures short { (states : List StateValue) → IsRegistry states → (number : ℕ) (list : List ℕ)
        → Accepts states number list → length list ≤ number }
{}

/// Codes of candidates with a pivot may be searched: their lists are as long as the sequence at most.
pub fn pivot_codes_are_searched()
    ensures { (d : Data Item) (order : List Item) (pivot : ℕ) (code : List ℕ) (items : List Item)
        → IsPivotCode d order pivot code items → IsSearched (length order) (length items) code }
{}

/// So may groups of sequences of such a length at most.
pub fn groups_are_searched()
    ensures { (d : Data Item) (order : List Item) (pivot most : ℕ) (sequences : List (Sequence Item))
        (groups : List SetGroup) → AreGroups d order pivot sequences groups
        → ((sequence : Sequence Item) → Contains sequences sequence → length sequence.items ≤ most)
        → (group : SetGroup) → Contains groups group → IsSearched (length order) most group.automaton }
{}

/// The rows of loads that stand for groups, each at a state from which the group's lists are accepted, are
/// the rows of the groups.
pub fn loaded_rows_are_group_rows()
    ensures { (order : List Item) (threshold : ℕ) (states : List StateValue) (loads : List Load)
        (groups : List SetGroup) → AllZip (StandsFor states) loads groups → (rows : List FoundRow)
        → AreLoadedRows order threshold states loads rows → AreGroupRows order threshold groups rows }
{}
