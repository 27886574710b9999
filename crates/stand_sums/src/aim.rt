ghost use Rattle.std.specs.Prelude.{◌≡◌, ℕ, IsTrue};
ghost use Rattle.walk_memo.specs.declared.action.Action.{Action as Acts};
ghost use Rattle.stand_sums.specs.Aims.{sees as sees_with};
ghost use Rattle.stand_sums.specs.Writings.{goes_on, stops};

use walk_memo::Action;

/// Whether a prefix holds what is needed, and which rank is needed.
#[derive(Clone, Copy, Debug, PartialEq, Eq)]
pub struct Aim {
    pub seen: bool,
    pub need: Option<u32>,
}

impl Aim {
    /// Whether what is needed is seen with any rank.
    #[inline]
    pub(crate) fn sees_any(self) -> bool
        ensures { IsTrue result → (rank : ℕ) → IsTrue (sees_with self rank) }
    {
        match self.need {
            Some(_) => self.seen,
            None => true,
        }
    }

    /// Whether what is needed is seen with the rank.
    #[inline]
    pub(crate) fn sees(self, rank: u32) -> bool
        ensures { result ≡ sees_with self rank }
    {
        match self.need {
            Some(need) => self.seen || need == rank,
            None => true,
        }
    }

    /// Whether a path goes on that has written the rank by this action.
    #[inline]
    pub(crate) fn goes_on(self, rank: u32, action: Action) -> bool
        ensures { result ≡ goes_on self rank action }
    {
        if self.sees(rank) {
            action.more
        } else {
            action.unseen
        }
    }

    /// Whether it may end there.
    #[inline]
    pub(crate) fn stops(self, rank: u32, action: Action) -> bool
        ensures { result ≡ stops self rank action }
    {
        self.sees(rank) && action.ends
    }
}
