//! Laws over the definitions. Each is the contract of a function that does nothing more.

ghost use Rattle.std.specs.Prelude.{◌≡◌, ℕ, ◌<◌, ◌≤◌, ◌++◌, List, [], Option, Some, None, map, replicate, All, slice_get};
ghost use Rattle.std.specs.List.{AllZip};
ghost use Rattle.place_walk.specs.declared.stand.Stand.{Stand};
ghost use Rattle.place_walk.specs.declared.visit.Visit.{Visit};
ghost use Rattle.place_walk.specs.Courses.{Course};
ghost use Rattle.place_walk.specs.Visits.{AreVisits};
ghost use Rattle.place_walk.specs.Groups.{AreGroups};
ghost use Rattle.stand_sums.specs.declared.aim.Aim.{Aim};
ghost use Rattle.stand_sums.specs.Writings.{Ranks};
ghost use Rattle.stand_sums.specs.Sequences.{AreSequences};
ghost use Rattle.stand_sums.specs.Sums.{Tally, empty_tally, AreCounted, AreNext};
ghost use Rattle.stand_sums.specs.Files.{stands_of};
ghost use Rattle.mask_sums.specs.Kept.{IsSeen};
ghost use Rattle.level_ahead.specs.declared.next_of.NextOf.{NextOf};
ghost use Rattle.level_ahead.specs.Counts.{Behind, AreAdded, AreReaching};
ghost use Rattle.level_ahead.specs.Longer.{last_told, last_tallies};

use place_walk::visits_are_those_of_each_stand;

/// What is counted in one call and in the next is counted of the sequences of both, and of no sequences
/// nothing is.
pub fn counts_add_up()
    ensures none { (course : Course) (ranks : Ranks) (lacking : Option ℕ) (behind : Behind)
        → AreAdded course ranks lacking [] behind behind }
    ensures more { (course : Course) (ranks : Ranks) (lacking : Option ℕ)
        (sequences others : List (List Visit)) (before between after : Behind)
        → AreAdded course ranks lacking sequences before between
        → AreAdded course ranks lacking others between after
        → AreAdded course ranks lacking (sequences ++ others) before after }
{}

/// What was counted behind a rank, from nothing on, are the sums of the prefix with the rank: those to which
/// walks of its own stands would come. What reaches a count there is what may follow that prefix, and nothing
/// goes on behind it.
pub fn what_reaches_follows_the_longer_prefix()
    ensures { (course : Course) (ranks : Ranks) (aim later : Aim) (sequences : List (List Visit))
        (groups : List (List Stand)) (kids : List (List Visit)) (visits : List Visit) (before after : Behind)
        → IsSeen aim → IsSeen later → AreAdded course ranks None sequences before after
        → before.counts ≡ replicate 256 0
        → AreGroups (stands_of ranks aim before.rank sequences) groups
        → AllZip (AreVisits course) groups kids → AreSequences visits kids
        → (count : ℕ) → count ≤ 256
        → ((other : ℕ) (tally : Tally) → slice_get (last_tallies after.counts 0 count) other ≡ Some tally
        → AreCounted ranks later [] other visits kids empty_tally tally)
        × ((least enough : ℕ) (found : List NextOf) → 1 ≤ least
        → All (λ visit. All (λ rank. rank < count) (ranks visit.kind visit.action.state)) visits
        → AreReaching least after.counts found
        → AreNext least enough (last_tallies after.counts 0 count) (map last_told found)) }
{
    visits_are_those_of_each_stand();
}
