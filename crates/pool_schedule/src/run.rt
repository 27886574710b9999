//! A whole schedule.
ghost use Rattle.std.specs.Prelude.{◌≡◌, ◌≤◌, ℕ, List, IfOk};
ghost use Rattle.std.specs.List.{filter_map};
ghost use Rattle.search_tree.specs.Cover.{Covers};
ghost use Rattle.pool_schedule.specs.Schedule.{first_choice, later_choices, ArePosted};

use crate::machine::{Machine, Posted};
use crate::stepping::step;
use mine_model::NoMemory;
use search_tree::Grow;
use std::alloc::Global;

/// The first of the choices, or 0 where there is none, and the later ones.
fn next_choice(choices: &[u64]) -> (u64, &[u64])
    ensures choice { result.0 ≡ first_choice choices.now }
    ensures later { result.1.now ≡ later_choices choices.now }
{
    match choices {
        [] => (0, choices),
        [choice, later @ ..] => (*choice, later),
    }
}

/// Runs a machine of 1 to 64 workers until it is quiet. Each choice picks one of the enabled events; after
/// the last choice the first of them is taken each time, and choices that are left over are ignored.
/// It ends because the tree has finitely many labels: `tree` is a list of them.
pub fn run_schedule<G: Grow>(
    alloc: Global,
    g: &G,
    workers: u32,
    choices: &[u64],
) -> Result<Posted, NoMemory>
    ghost tree: { List (List ℕ) }
    requires some { 1 ≤ workers }
    requires few { workers ≤ 64 }
    requires finite { Covers (G.roots_of g.now) (G.kids_of g.now) tree }
    ensures labels { IfOk result (λ posted.
        ArePosted (G.roots_of g.now) (G.kids_of g.now) workers choices.now posted.labels) }
    ensures cover { IfOk result (λ posted. Covers (G.roots_of g.now) (G.kids_of g.now) posted.labels) }
    ensures rows { IfOk result (λ posted.
        posted.rows.items ≡ filter_map (G.row_of g.now) posted.labels) }
{
    let mut room = g.room(alloc)?;
    let mut machine = Machine::new(alloc, g, workers)?;
    let mut left = choices;
    'events: loop {
        let (choice, later) = next_choice(left);
        let Some(event) = machine.chosen(choice) else {
            return Ok(machine.into_posted());
        };
        step(alloc, &mut machine, g, event, &mut room)?;
        left = later;
    }
}
