//! A visit behind a prefix that lacks a rank: with this rank it goes on and ends as where nothing is lacking,
//! and with the others it goes on where the rank can still follow.

ghost use Rattle.std.specs.Prelude.{◌≡◌, ℕ, ◌<◌, ◌⊎◌, ◌↔◌, Some, OnOk};
ghost use Rattle.state_bits.specs.Members.{Has};
ghost use Rattle.mask_sums.specs.Kept.{lacks, OpensIn, EndsIn, HasOneMore};

use member_counts::MemberCounts;
use mine_model::NoMemory;
use state_bits::StateSet;
use walk_memo::Action;

/// Reads a visit that may write these ranks, where this one is lacking, which may be none of them.
pub(crate) fn read_lacking(
    mask: &StateSet<4>,
    need: u32,
    action: Action,
    opened: &mut StateSet<4>,
    ended: &mut StateSet<4>,
    stands: &mut MemberCounts<4>,
) -> Result<(), NoMemory>
    requires few { (rank : ℕ) → Has mask.now rank → rank < 256 }
    ensures opened { OnOk result ((rank : ℕ) → Has opened.new rank
        ↔ (Has opened.old rank ⊎ OpensIn (lacks (Some need)) action mask.now rank)) }
    ensures ended { OnOk result ((rank : ℕ) → Has ended.new rank
        ↔ (Has ended.old rank ⊎ EndsIn (lacks (Some need)) action mask.now rank)) }
    ensures stands { OnOk result
        (HasOneMore (OpensIn (lacks (Some need)) action mask.now) stands.old stands.new) }
{
    if action.ends {
        ended.union_with(&only(mask, need));
    }
    let opening = opening_set(mask, need, action);
    if !opening.is_empty() {
        opened.union_with(&opening);
        stands.add(&opening)?;
    }
    Ok(())
}

/// Those of the ranks with which the visit goes on.
#[inline]
fn opening_set(mask: &StateSet<4>, need: u32, action: Action) -> StateSet<4>
    requires few { (rank : ℕ) → Has mask.now rank → rank < 256 }
    ensures { (rank : ℕ) → Has result rank ↔ OpensIn (lacks (Some need)) action mask.now rank }
{
    match (action.more, action.unseen) {
        (true, true) => *mask,
        (true, false) => only(mask, need),
        (false, true) => without(mask, need),
        (false, false) => StateSet::new(),
    }
}

/// The rank, where it is a member.
#[inline]
fn only(set: &StateSet<4>, rank: u32) -> StateSet<4>
    requires few { (member : ℕ) → Has set.now member → member < 256 }
    ensures { (member : ℕ) → Has result member ↔ (Has set.now member × (member ≡ rank)) }
{
    let mut found = StateSet::new();
    if rank < 256 && set.has(rank) {
        found.add(rank);
    }
    found
}

/// The members but the rank.
fn without(set: &StateSet<4>, rank: u32) -> StateSet<4>
    requires few { (member : ℕ) → Has set.now member → member < 256 }
    ensures { (member : ℕ) → Has result member ↔ (Has set.now member × (member ≡ rank → ⊥)) }
{
    let mut found = StateSet::new();
    for member in set.iter() {
        if member != rank {
            found.add(member);
        }
    }
    found
}
