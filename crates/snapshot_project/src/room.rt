ghost use Rattle.std.specs.Prelude.{◌≡◌, ◌≢◌, ◌≤◌, true, false, None, Some, IfSome, IfOk, OnOk, length};
ghost use Rattle.snapshot_project.specs.Rooms.{AreMemosOver};
ghost use Rattle.snapshot_project.specs.Terrains.{IsTerrain};
ghost use Rattle.snapshot_project.specs.Snapshots.{IsPart};
ghost use Rattle.sequence_grids.specs.Grids.{GridList};

use super::part::{Ground, Part};
use super::terrain::{AnyTerrain, Terrain};
use level_ahead::Ahead;
use mask_sums::MaskedSums;
use mine_model::NoMemory;
use mining_job::Job;
use place_walk::Visits;
use stand_sums::Files;
use std::alloc::Global;
use std::marker::Model;
use std::sync::Arc;
use walk_memo::Memo;

/// Memos of one width: for prefixes that still lack what is needed, or where nothing is, and for those that
/// hold it.
pub(crate) struct Memos<const W: usize> {
    pub(crate) early: Memo<W>,
    pub(crate) late: Memo<W>,
}

// Written out, so that it is let go of by a call, and not part by part wherever one is.
impl<const W: usize> Drop for Memos<W> {
    fn drop(self) {
        let Memos { early: _, late: _ } = self;
    }
}

/// Room that the walks of one worker use again: what was found out about sets of states, what the paths of
/// one walk write, sums and stands by rank, and what follows behind ranks. It knows the part that was met
/// last, so that what was found out there is kept while prefixes of that part come.
pub struct Room<'a> {
    pub(crate) known: Option<Arc<Ground<'a>>>,
    pub(crate) one: Memos<1>,
    pub(crate) four: Memos<4>,
    pub(crate) wide: Memos<17>,
    // Whether a set has room for all ranks.
    pub(crate) few: bool,
    pub(crate) tables: Tables,
}

// Written out, so that it is let go of by a call, and not part by part wherever one is.
impl<'a> Drop for Room<'a> {
    fn drop(self) {
        let Room {
            known: _,
            one: _,
            four: _,
            wide: _,
            few: _,
            tables: _,
        } = self;
    }
}

/// What depends on no width.
pub(crate) struct Tables {
    pub(crate) visits: Visits,
    pub(crate) sums: MaskedSums,
    pub(crate) files: Files,
    pub(crate) ahead: Ahead,
}

// Written out, so that it is let go of by a call, and not part by part wherever one is.
impl Drop for Tables {
    fn drop(self) {
        let Tables {
            visits: _,
            sums: _,
            files: _,
            ahead: _,
        } = self;
    }
}

impl<'a> Model for Room<'a> {
    ghost use Rattle.std.specs.Prelude.{◌-◌, ◌≤◌, ◌≡◌, IsTrue, IfSome, length};
    ghost use Rattle.std.specs.Arc.{arc_value};
    ghost use Rattle.std.specs.Option.{option_map};
    ghost use Rattle.snapshot_project.specs.Terrains.{part_on};
    ghost use Rattle.snapshot_project.specs.Rooms.{RoomValue, IsKnown};

    ghost Value = { RoomValue };

    ghost use Rattle.mine_model.specs.contracts.expression.Expr as e;
    ghost use Rattle.std.specs.Coded.{codes};

    ghost coded = { Prim.hlevel (codes, e.the_row.coded) };

    // no rank is 0, so there is one more
    ghost view = { λ r. record {
      ranks = length r.tables.sums - 1;
      part = option_map (λ g. part_on (arc_value g)) r.known;
    } };

    ghost invariant = { λ r. (1 ≤ length r.tables.sums) × (r.tables.files.room ≡ length r.tables.sums)
        × (IsTrue r.few → length r.tables.sums ≤ 256)
        × IfSome r.known (λ g. IsKnown r.one r.four r.wide (arc_value g)) };
}

impl<'a> Room<'a> {
    /// Room for the ranks of a job.
    pub fn new(alloc: Global, job: &Job) -> Result<Room<'a>, NoMemory>
        ensures { IfOk result (λ room. room ≡ record { ranks = length job.now.ranking.order; part = None }) }
    {
        let ranks = job.ranks().count() as usize + 1;
        Ok(Room {
            known: None,
            one: no_memos(alloc)?,
            four: no_memos(alloc)?,
            wide: no_memos(alloc)?,
            few: ranks <= 256,
            tables: Tables {
                visits: Visits::new(alloc),
                sums: MaskedSums::new(alloc, ranks)?,
                files: Files::new(alloc, ranks)?,
                ahead: Ahead::new(alloc),
            },
        })
    }

    // Makes the part known, if it is not.
    pub(crate) fn enter(&mut self, part: &Part<'a>) -> Result<(), NoMemory>
        requires same { IfSome self.old.part (λ known. known.bound.need ≡ part.now.bound.need
            → known ≡ part.now) }
        ensures ranks { self.new.ranks ≡ self.old.ranks }
        ensures known { IfSome self.new.part (λ known. known ≡ part.now) }
        ensures part { OnOk result (self.new.part ≡ Some part.now) }
    {
        if self.knows(part) {
            return Ok(());
        }
        self.known = None;
        match &part.ground.terrain {
            AnyTerrain::One(over) => enter_over(&mut self.one, over)?,
            AnyTerrain::Four(over) => enter_over(&mut self.four, over)?,
            AnyTerrain::Wide(over) => enter_over(&mut self.wide, over)?,
        }
        self.known = Some(part.ground.clone()?);
        Ok(())
    }

    // Whether a part is known that needs the same.
    fn knows(&self, part: &Part) -> bool
        ensures known { result ≡ true → (known : GridList) × (self.now.part ≡ Some known)
            × (known.bound.need ≡ part.now.bound.need) }
        ensures not { result ≡ false
            → IfSome self.now.part (λ known. known.bound.need ≢ part.now.bound.need) }
    {
        match &self.known {
            Some(ground) => ground.bound.need == part.need(),
            None => false,
        }
    }
}

// Makes them memos of the terrain.
fn enter_over<const W: usize>(memos: &mut Memos<W>, over: &Terrain<W>) -> Result<(), NoMemory>
    requires width { W ≤ 17 }
    requires terrain { (part : GridList) × IsPart part × IsTerrain part over.now }
    ensures { OnOk result (AreMemosOver over.now memos.new) }
{
    memos
        .early
        .enter(over.rows.as_slice(), over.records.moves(false))?;
    memos
        .late
        .enter(over.rows.as_slice(), over.records.moves(true))?;
    Ok(())
}

// Memos that know nothing.
fn no_memos<const W: usize>(alloc: Global) -> Result<Memos<W>, NoMemory>
    requires { W ≤ 17 }
{
    Ok(Memos {
        early: Memo::new(alloc)?,
        late: Memo::new(alloc)?,
    })
}
