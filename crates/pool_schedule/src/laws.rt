//! Laws of the machine. Each is the contract of a function that does nothing.
ghost use Rattle.std.specs.Prelude.{◌≡◌, ℕ, ◌↔◌, List, Contains};
ghost use Rattle.search_tree.specs.Cover.{GrowByOne, Covers, IsInTree, AreApart};
ghost use Rattle.mine_model.specs.Labels.{IsOnce};
ghost use Rattle.pool_schedule.specs.State.{State, start, IsBalanced, IsIdle};
ghost use Rattle.pool_schedule.specs.Steps.{IsQuiet, Runs};
ghost use Rattle.pool_schedule.specs.Schedule.{IsScheduled};
ghost use Rattle.pool_schedule.specs.declared.event.Event.{Event};

/// After each list of events, what is posted, pending, in stacks and in deques are the roots and the kids
/// of what is posted or pending: nothing is lost, and nothing comes twice.
pub fn events_keep_the_balance()
    ensures { (roots : List (List ℕ)) (kids : List ℕ → List (List ℕ)) (workers : ℕ) (events : List Event)
        (last : State) → Runs kids (start roots workers) events last → IsBalanced roots kids last }
{}

/// The machine is quiet exactly where nothing is pending and all stacks and deques are empty.
pub fn quiet_machine_is_idle()
    ensures { (kids : List ℕ → List (List ℕ)) (state : State) → IsQuiet kids state ↔ IsIdle state }
{}

/// Whatever events led there, a quiet machine has posted a solution of the cover equation. Where each kid
/// is longer by one than its parent, these are the labels of the tree and no others, each once where roots
/// and kids come once, each kid has one parent, and no root has one.
pub fn quiet_machine_posted_the_tree()
    ensures cover { (roots : List (List ℕ)) (kids : List ℕ → List (List ℕ)) (workers : ℕ)
        (events : List Event) (last : State) → Runs kids (start roots workers) events last →
        IsQuiet kids last → Covers roots kids last.posted }
    ensures members { (roots : List (List ℕ)) (kids : List ℕ → List (List ℕ)) → GrowByOne kids →
        (workers : ℕ) (events : List Event) (last : State) → Runs kids (start roots workers) events last →
        IsQuiet kids last → (label : List ℕ) → Contains last.posted label ↔ IsInTree roots kids label }
    ensures once { (roots : List (List ℕ)) (kids : List ℕ → List (List ℕ)) → GrowByOne kids →
        AreApart roots kids → (workers : ℕ) (events : List Event) (last : State) →
        Runs kids (start roots workers) events last → IsQuiet kids last → IsOnce last.posted }
{}

/// The choices settle every event and the last state, and where the cover equation has a solution they
/// lead to an end.
pub fn choices_settle_the_schedule()
    ensures settled { (kids : List ℕ → List (List ℕ)) (choices : List ℕ) (first : State)
        (events others : List Event) (last end : State) → IsScheduled kids choices first events last →
        IsScheduled kids choices first others end → (events ≡ others) × (last ≡ end) }
    ensures ends { (tree roots : List (List ℕ)) (kids : List ℕ → List (List ℕ)) → Covers roots kids tree →
        (workers : ℕ) (choices : List ℕ) →
        (events : List Event) × (last : State) × IsScheduled kids choices (start roots workers) events last }
{}
