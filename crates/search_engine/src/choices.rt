//! The choices of a simulated run.
ghost use Rattle.std.specs.Prelude.{◌≡◌, IfOk};
ghost use Rattle.search_engine.specs.Choices.{choices_of};

use mine_model::{NoMemory, next_state};
use std::alloc::Global;

/// How many choices a simulated run makes. Behind them the first event is taken each time.
const CHOICES: u64 = 4_096;

/// The choices of a run with this seed.
pub(crate) fn choices(alloc: Global, seed: u64) -> Result<Vec<u64>, NoMemory>
    ensures { IfOk result (λ choices. choices.items ≡ choices_of seed) }
{
    let mut choices = Vec::with_capacity(alloc, CHOICES as usize)?;
    let mut state = seed;
    for _ in 0..CHOICES {
        state = next_state(state);
        choices.push(state >> 33)?;
    }
    Ok(choices)
}
