//! What reading an item into a state takes: up to which rank it has to write.

ghost use Rattle.std.specs.Prelude.{◌≡◌, ℕ, ◌≤◌, ◌<◌, ◌↔◌, max, slice_index, IsTrue};
ghost use Rattle.state_bits.specs.Members.{HasBit};
ghost use Rattle.sequence_grids.specs.Readings.{HasOutputs};
ghost use Rattle.pivot_partition.specs.Tops.{no_rank, IsLeastOf, GoesUpTo};

use fst_compile::State;
use sequence_grids::Reading;

/// What stands for a rank where there is none: it is greater than all.
pub(crate) const NONE: u32 = u32::MAX;

/// The least rank up to which an edge into the state may read the item: 0 where it writes nothing.
pub(crate) fn least_output(reading: &Reading, state: u32) -> u32
    requires { HasOutputs reading.now state }
    ensures { (p : ℕ) → p < no_rank → (result ≤ p ↔ GoesUpTo reading.now state p) }
{
    if has_bit(reading.silent, state) {
        return 0;
    }
    least_of(reading.outputs(State(state)))
}

/// Whether the words have the state's bit.
fn has_bit(words: &[u64], state: u32) -> bool
    ensures { IsTrue result ↔ HasBit words.now state }
{
    let word = words.get((state / 64) as usize).copied().unwrap_or(0);
    (word >> (state % 64)) & 1 == 1
}

/// The least of the ranks.
fn least_of(ranks: &[u32]) -> u32
    ensures { IsLeastOf ranks.now result }
{
    let mut least = NONE;
    for rank in ranks {
        least = least.min(*rank);
    }
    least
}
