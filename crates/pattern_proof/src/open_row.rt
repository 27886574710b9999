ghost use Rattle.std.specs.Prelude.{◌*◌, ◌≤◌};
ghost use Rattle.mine_model.specs.Limits.{most_sequences, most_weight};

use mine_model::Row;

/// The row whose paths are read. `weight` is what its paths weigh, `least` the least sequence that the next
/// path may be over.
#[derive(Drop)]
pub(crate) struct Above {
    pub(crate) row: Row,
    pub(crate) line: u64,
    pub(crate) weight: u64,
    pub(crate) least: u32,
    ghost light: { weight ≤ least * most_weight },
    ghost early: { least ≤ most_sequences },
}
