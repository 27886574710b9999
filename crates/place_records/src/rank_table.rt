ghost use Rattle.std.specs.Prelude.{◌≡◌, ℕ, ◌<◌, true, All, IfOk};
ghost use Rattle.place_records.specs.Ranks.{CanAskOf, ranks_of};

use super::rank_sets::{are_few, sets_of};
use mask_sums::Masks;
use mine_model::NoMemory;
use sequence_grids::{Kinds, outputs_of};
use stand_sums::Outputs;
use state_bits::StateSet;
use std::alloc::Global;
use std::marker::Model;

/// Which ranks the items of a part may be written as.
pub struct RankTable {
    kinds: Kinds,
    // For each of the ends of the kinds the ranks between it and the next, where they are kept as sets.
    sets: Vec<StateSet<4>>,
    has_sets: bool,
}

// Written out, so that it is let go of by a call, and not part by part wherever one is.
impl Drop for RankTable {
    fn drop(self) {
        let RankTable {
            kinds: _,
            sets: _,
            has_sets: _,
        } = self;
    }
}

impl Model for RankTable {
    ghost use Rattle.std.specs.Prelude.{◌≡◌, true};
    ghost use Rattle.place_records.specs.Ranks.{RanksValue, AreSets};

    ghost Value = { RanksValue };

    ghost view = { λ t. record { kinds = t.kinds; keeps = t.has_sets } };

    ghost invariant = { λ t. t.has_sets ≡ true → AreSets t.kinds t.sets.items };
}

impl RankTable {
    /// The table of these kinds, which keeps sets too where that is wanted and no rank is above 255.
    pub(crate) fn new(alloc: Global, kinds: Kinds, by_sets: bool) -> Result<RankTable, NoMemory>
        ensures kinds { IfOk result (λ table. table.kinds ≡ kinds) }
        ensures keeps { by_sets ≡ true → All (λ rank. rank < 256) kinds.ranks.items
            → IfOk result (λ table. table.keeps ≡ true) }
    {
        let has_sets = by_sets && are_few(kinds.ranks.as_slice());
        let sets = if has_sets {
            sets_of(alloc, &kinds)?
        } else {
            Vec::new(alloc)
        };
        Ok(RankTable {
            kinds,
            sets,
            has_sets,
        })
    }
}

impl Outputs for RankTable {
    ghost use Rattle.place_records.specs.Ranks.{CanAskOf, ranks_of};

    ghost ranks = { λ table. ranks_of table };

    ghost CanAsk = { λ table. CanAskOf table };

    #[inline]
    fn outputs(&self, kind: u32, state: u16) -> &[u32] {
        outputs_of(&self.kinds, kind, u32::from(state))
    }
}

impl Masks for RankTable {
    ghost keeps = { λ table. table.keeps };

    #[inline]
    fn has_masks(&self) -> bool {
        self.has_sets
    }

    #[inline]
    fn mask(&self, kind: u32, state: u16) -> &StateSet<4> {
        let column = self.kinds.columns.numbers[state as usize] as usize;
        &self.sets[self.kinds.kinds[kind as usize].base + column]
    }
}
