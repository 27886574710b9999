//! A share of the pivots, by the text that asks for it.

ghost use Rattle.std.specs.Prelude.{MatchOption};
ghost use Rattle.command_line.specs.Words.{IsShareText};
ghost use Rattle.command_line.specs.declared.share.Share.{Share as TheShare};

use super::number::read_number;

/// The most shares that may be asked for.
const MOST_SHARES: u64 = 64;

/// One of so many shares of the pivots.
#[derive(Clone, Copy, Debug, PartialEq, Eq)]
pub struct Share {
    /// Its index, counted from 1.
    pub index: u32,
    /// How many shares there are, 1 to 64.
    pub of: u32,
}

/// The share that the text says, as `2/7`. None where it says none.
pub(crate) fn read_share(text: &str) -> Option<Share>
    ensures { MatchOption result ((share : TheShare) → IsShareText text.now share → ⊥)
        (λ share. IsShareText text.now share) }
{
    let (index, of) = text.split_once('/')?;
    let of = read_number(of.as_bytes(), 1, MOST_SHARES)?;
    let index = read_number(index.as_bytes(), 1, of)?;
    Some(Share {
        index: index as u32,
        of: of as u32,
    })
}
