//! Laws over the definitions. Each is the contract of a function that does nothing.

ghost use Rattle.std.specs.Prelude.{ℕ, ◌+◌, ◌≤◌, ◌↔◌, List, [], ◌∷◌, All, Contains};
ghost use Rattle.walk_memo.specs.declared.action.Action.{Action};
ghost use Rattle.place_walk.specs.declared.stand.Stand.{Stand};
ghost use Rattle.place_walk.specs.Courses.{Course, IsWall};
ghost use Rattle.place_walk.specs.Visits.{IsVisit};

/// What is written next from stands is what is written next from any one of them: so the walks of two stands
/// may be one walk, and one walk may be made as many.
pub fn visits_are_those_of_each_stand()
    ensures { (course : Course) (stands : List Stand) (place kind : ℕ) (action : Action)
        → IsVisit course stands place kind action
        ↔ ((stand : Stand) × Contains stands stand × IsVisit course (stand ∷ []) place kind action) }
{}

/// No walk goes over a place where nothing is entered in silence, as the one behind a sequence, to the next
/// sequence.
pub fn no_visit_lies_behind_a_wall()
    ensures { (course : Course) (stands : List Stand) (wall : ℕ) → IsWall course wall
        → All (λ stand. stand.place ≤ wall) stands
        → (place kind : ℕ) (action : Action) → IsVisit course stands place kind action → place ≤ wall + 1 }
{}
