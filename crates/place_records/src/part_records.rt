ghost use Rattle.std.specs.Prelude.{◌≡◌, ◌≤◌, map};
ghost use Rattle.walk_memo.specs.Moves.{move_sets};
ghost use Rattle.place_records.specs.Values.{moves_for};

use super::rank_table::RankTable;
use std::marker::Model;
use walk_memo::Move;
use walk_places::Places;

/// What stands at the places of a part: its sequences one behind another, with a place behind each where
/// nothing is done. Each record has a move for paths that have not seen what is needed, and under the same
/// number one for those that have.
pub struct Records<const W: usize> {
    pub(crate) places: Places,
    pub(crate) early: Vec<Move<W>>,
    pub(crate) late: Vec<Move<W>>,
    pub(crate) table: RankTable,
}

// Written out, so that it is let go of by a call, and not part by part wherever one is.
impl<const W: usize> Drop for Records<W> {
    fn drop(self) {
        let Records {
            places: _,
            early: _,
            late: _,
            table: _,
        } = self;
    }
}

impl<const W: usize> Model for Records<W> {
    ghost use Rattle.std.specs.Prelude.{map};
    ghost use Rattle.walk_memo.specs.Moves.{move_sets};
    ghost use Rattle.place_records.specs.Values.{RecordsValue};

    ghost Value = { RecordsValue };

    ghost view = { λ r. record {
      places = r.places;
      early = map move_sets r.early.items;
      late = map move_sets r.late.items;
      table = r.table;
    } };
}

impl<const W: usize> Records<W> {
    /// The records, by place.
    pub fn places(&self) -> &Places
        requires { W ≤ 17 }
        ensures { result.now ≡ self.now.places }
    {
        &self.places
    }

    /// The moves that the records name, for paths that have seen what is needed or have not.
    pub fn moves(&self, goes: bool) -> &[Move<W>]
        requires { W ≤ 17 }
        ensures { map move_sets result.now ≡ moves_for self.now goes }
    {
        if goes {
            self.late.as_slice()
        } else {
            self.early.as_slice()
        }
    }

    /// What may be written.
    pub fn table(&self) -> &RankTable
        requires { W ≤ 17 }
        ensures { result.now ≡ self.now.table }
    {
        &self.table
    }
}
