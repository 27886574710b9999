//! A visit behind a prefix that lacks nothing.

ghost use Rattle.std.specs.Prelude.{ℕ, ◌⊎◌, ◌↔◌, OnOk};
ghost use Rattle.state_bits.specs.Members.{Has};
ghost use Rattle.mask_sums.specs.Kept.{free, OpensIn, EndsIn, HasOneMore};

use member_counts::MemberCounts;
use mine_model::NoMemory;
use state_bits::StateSet;
use walk_memo::Action;

/// Reads a visit that may write these ranks.
#[inline(always)]
pub(crate) fn read_seen(
    mask: &StateSet<4>,
    action: Action,
    opened: &mut StateSet<4>,
    ended: &mut StateSet<4>,
    stands: &mut MemberCounts<4>,
) -> Result<(), NoMemory>
    ensures opened { OnOk result ((rank : ℕ) → Has opened.new rank
        ↔ (Has opened.old rank ⊎ OpensIn free action mask.now rank)) }
    ensures ended { OnOk result ((rank : ℕ) → Has ended.new rank
        ↔ (Has ended.old rank ⊎ EndsIn free action mask.now rank)) }
    ensures stands { OnOk result (HasOneMore (OpensIn free action mask.now) stands.old stands.new) }
{
    if action.ends {
        ended.union_with(mask);
    }
    if action.more {
        opened.union_with(mask);
        stands.add(mask)?;
    }
    Ok(())
}
