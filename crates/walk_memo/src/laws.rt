//! Laws over the definitions. Each is the contract of a function that does nothing.

ghost use Rattle.std.specs.Prelude.{◌≡◌, ℕ, ◌↔◌, List, Some, length, slice_index, slice_get};
ghost use Rattle.walk_memo.specs.declared.action.Action.{Action};
ghost use Rattle.walk_memo.specs.Moves.{MoveSets};
ghost use Rattle.walk_memo.specs.Steps.{AreActions};
ghost use Rattle.walk_memo.specs.Cuts.{AgreeOn, AreSetsAlong, AreCuts};

/// States from which nothing more is written add no action to a walk, now or later: sets, and the silent
/// states of moves, may be cut to those that still write.
pub fn cut_sets_have_the_same_actions()
    ensures { (rows : List ℕ) (moves cuts : List MoveSets) (sets fewer : List ℕ)
        → length cuts ≡ length moves → AreCuts rows moves cuts
        → AreSetsAlong rows moves sets → AreSetsAlong rows cuts fewer
        → AgreeOn rows moves (slice_index sets 0) (slice_index fewer 0)
        → (k : ℕ) (move cut : MoveSets) → slice_get moves k ≡ Some move → slice_get cuts k ≡ Some cut
        → (actions : List Action) → AreActions rows move (slice_index sets k) actions
        ↔ AreActions rows cut (slice_index fewer k) actions }
{}
