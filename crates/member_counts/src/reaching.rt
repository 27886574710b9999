//! Which counts reach a threshold.

ghost use Rattle.std.specs.Prelude.{◌≡◌, ℕ, ◌<◌, ◌≤◌, ◌↔◌, ◌⊎◌, ◌++◌};
ghost use Rattle.std.specs.Bool.{OnTrue, OnFalse};
ghost use Rattle.state_bits.specs.Members.{Has, HasBit};
ghost use Rattle.member_counts.specs.Counts.{count_in};

use super::digits::Digits;
use state_bits::StateSet;

/// Those of the members whose count is at least the threshold, digit by digit from the lowest: with one bit
/// more in front, a number is at least another one where its bit is the greater, or where both are the same
/// and it was before.
pub(crate) fn reaching<const W: usize>(
    low: &[Digits<W>; 3],
    high: &[Digits<W>],
    members: &StateSet<W>,
    threshold: u64,
) -> StateSet<W>
    requires { W ≤ 17 }
    ensures { (q : ℕ) → Has result q
        ↔ (Has members.now q × (threshold ≤ count_in (low.now ++ high.now) q)) }
{
    let mut reaching = *members;
    let mut rest = threshold;
    let mut row = [0; W];
    let two = low[0].add_to(&mut row);
    compare(&mut reaching, members, &row, rest % 2 == 1);
    rest /= 2;
    row = two;
    let four = low[1].add_to(&mut row);
    compare(&mut reaching, members, &row, rest % 2 == 1);
    rest /= 2;
    row = four;
    let mut carry = low[2].add_to(&mut row);
    compare(&mut reaching, members, &row, rest % 2 == 1);
    rest /= 2;
    for digit in high {
        let mut row = carry;
        carry = digit.add_to(&mut row);
        compare(&mut reaching, members, &row, rest % 2 == 1);
        rest /= 2;
    }
    compare(&mut reaching, members, &carry, rest % 2 == 1);
    if rest < 2 { reaching } else { StateSet::new() }
}

// Of the members with a bit more in front, which reach a number with this bit in front.
fn compare<const W: usize>(
    reaching: &mut StateSet<W>,
    members: &StateSet<W>,
    row: &[u64; W],
    bit: bool,
)
    requires { W ≤ 17 }
    ensures set { OnTrue bit ((q : ℕ) → Has reaching.new q ↔ (Has reaching.old q × HasBit row.now q)) }
    ensures clear { OnFalse bit ((q : ℕ) → Has reaching.new q
        ↔ (Has reaching.old q ⊎ (Has members.now q × HasBit row.now q))) }
{
    if bit {
        reaching.intersect_with_words(row);
    } else {
        let mut above = *members;
        above.intersect_with_words(row);
        reaching.union_with(&above);
    }
}
