ghost use Rattle.std.specs.Prelude.{◌≡◌, ◌≤◌, map, IfOk};
ghost use Rattle.walk_memo.specs.Moves.{move_sets};
ghost use Rattle.place_records.specs.Twins.{twin_sets, move_in};

use super::twin::Twin;
use mine_model::NoMemory;
use std::alloc::Global;
use walk_memo::Move;

/// The moves of all twins for paths that go on so, by number.
pub(crate) fn moves_of<const W: usize>(
    alloc: Global,
    twins: &[Twin<W>],
    goes: bool,
) -> Result<Vec<Move<W>>, NoMemory>
    requires width { W ≤ 17 }
    ensures { IfOk result (λ moves.
        map move_sets moves.items ≡ map (move_in goes) (map twin_sets twins.now)) }
{
    let mut moves = Vec::new(alloc);
    for twin in twins {
        moves.push(*twin.movement(goes))?;
    }
    Ok(moves)
}
