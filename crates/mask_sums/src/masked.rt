ghost use Rattle.std.specs.Prelude.{◌≡◌, ℕ};
ghost use Rattle.stand_sums.specs.Sums.{empty_tally};
ghost use Rattle.mask_sums.specs.Sets.{masked_at};

use member_counts::MemberCounts;
use std::alloc::Global;

/// What was counted by sets of ranks: the sequences in which each rank follows, those in which the prefix
/// with it is a pattern, and those in which more can follow; and the visits that write it and go on.
pub(crate) struct Masked {
    pub(crate) followed: MemberCounts<4>,
    pub(crate) ended: MemberCounts<4>,
    pub(crate) opened: MemberCounts<4>,
    pub(crate) stands: MemberCounts<4>,
}

// Written out, so that it is let go of by a call, and not part by part wherever one is.
impl Drop for Masked {
    fn drop(self) {
        let Masked {
            followed: _,
            ended: _,
            opened: _,
            stands: _,
        } = self;
    }
}

impl Masked {
    /// Nothing was counted.
    pub(crate) fn new(alloc: Global) -> Masked
        ensures { (rank : ℕ) → masked_at result rank ≡ empty_tally }
    {
        Masked {
            followed: MemberCounts::new(alloc),
            ended: MemberCounts::new(alloc),
            opened: MemberCounts::new(alloc),
            stands: MemberCounts::new(alloc),
        }
    }

    /// Forgets what was counted.
    pub(crate) fn clear(&mut self)
        ensures { (rank : ℕ) → masked_at self.new rank ≡ empty_tally }
    {
        self.followed.clear();
        self.ended.clear();
        self.opened.clear();
        self.stands.clear();
    }
}
