//! Laws over the definitions. Each is the contract of a function that does nothing more.

ghost use Rattle.std.specs.Prelude.{ℕ, ◌≤◌, List, [], ◌∷◌, AllPairs};
ghost use Rattle.std.specs.List.{AllZip};
ghost use Rattle.place_walk.specs.declared.stand.Stand.{Stand};
ghost use Rattle.place_walk.specs.declared.visit.Visit.{Visit};
ghost use Rattle.place_walk.specs.Courses.{Course};
ghost use Rattle.place_walk.specs.Visits.{AreVisits, AreVisitsOf};
ghost use Rattle.place_walk.specs.Groups.{AreGroups};
ghost use Rattle.stand_sums.specs.declared.aim.Aim.{Aim};
ghost use Rattle.stand_sums.specs.Writings.{Ranks, opens, ends, follows};
ghost use Rattle.stand_sums.specs.Sequences.{AreSequences, IsUnionOf};
ghost use Rattle.stand_sums.specs.Files.{stands_of};

use place_walk::visits_are_those_of_each_stand;

/// The visits of a walk are visits sequence after sequence: those of each group of stands.
pub fn visits_of_groups_are_sequences()
    ensures { (course : Course) (groups : List (List Stand)) (visits : List Visit)
        → AreVisitsOf course groups visits
        → (sequences : List (List Visit)) × AreSequences visits sequences
        × AllZip (AreVisits course) groups sequences }
{}

/// What follows a prefix in a sequence, what it ends with there and what goes on there is what does so behind
/// one of its stands alone. So the sums of a longer prefix can be made from walks of its single stands, as in
/// the walk that finds these stands.
pub fn visits_behind_stands_are_those_behind_each()
    ensures { (course : Course) (stands : List Stand) (visits : List Visit) (alone : List (List Visit))
        → AreVisits course stands visits
        → AllZip (λ stand behind. AreVisits course (stand ∷ []) behind) stands alone
        → (ranks : Ranks) (aim : Aim) (rank : ℕ) → IsUnionOf (follows ranks aim rank) visits alone
        × IsUnionOf (ends ranks aim rank) visits alone × IsUnionOf (opens ranks aim rank) visits alone }
{
    visits_are_those_of_each_stand();
}

/// The stands of a longer prefix can be walked: they are those of one sequence behind another, the first of
/// each marked, and lie as their visits do, by place.
pub fn stands_of_visits_can_be_walked()
    ensures groups { (ranks : Ranks) (aim : Aim) (rank : ℕ) (sequences : List (List Visit))
        → (groups : List (List Stand)) × AreGroups (stands_of ranks aim rank sequences) groups }
    ensures rising { (ranks : Ranks) (aim : Aim) (rank : ℕ) (visits : List Visit)
        (sequences : List (List Visit)) → AreSequences visits sequences
        → AllPairs (λ one other. one.place ≤ other.place) visits
        → AllPairs (λ one other. one.place ≤ other.place) (stands_of ranks aim rank sequences) }
{}
