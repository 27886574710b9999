//! The lowest three digits of counts, to which eight sets are added at once.

ghost use Rattle.std.specs.Prelude.{◌≡◌, ℕ, ◌+◌, ◌*◌, ◌<◌, ◌≤◌, length, replicate, take};
ghost use Rattle.std.specs.Int.{bit_at};
ghost use Rattle.member_counts.specs.Digits.{bit_in, low_count};
ghost use Rattle.member_counts.specs.Counts.{count_in, sets_with};

use super::bits::{add_rows, bit};
use super::digits::Digits;
use state_bits::StateSet;

/// How many sets wait until they are added up with one more.
pub(crate) const WAITING: usize = 7;

/// The lowest three binary digits of the count of each member.
#[derive(Clone, Copy, Debug)]
pub(crate) struct Low<const W: usize> {
    pub(crate) ones: [u64; W],
    pub(crate) twos: [u64; W],
    pub(crate) fours: [u64; W],
}

impl<const W: usize> Low<W> {
    /// All are 0.
    #[inline]
    pub(crate) fn new() -> Low<W>
        requires { W ≤ 17 }
        ensures { (q : ℕ) → low_count result q ≡ 0 }
    {
        Low {
            ones: [0; W],
            twos: [0; W],
            fours: [0; W],
        }
    }

    /// Adds eight sets, the last of which stands by itself. What is carried, which is worth eight.
    #[inline]
    pub(crate) fn add_eight(
        &mut self,
        sets: &[StateSet<W>; WAITING],
        last: &StateSet<W>,
    ) -> [u64; W]
        requires { W ≤ 17 }
        ensures { (q : ℕ) → q < 64 * W → low_count self.new q + 8 * bit_in result q
            ≡ low_count self.old q + sets_with sets.now q + bit_at last.now q }
    {
        let two = add_rows(&mut self.ones, sets[0].words(), sets[1].words());
        let other_two = add_rows(&mut self.ones, sets[2].words(), sets[3].words());
        let four = add_rows(&mut self.twos, &two, &other_two);
        let two = add_rows(&mut self.ones, sets[4].words(), sets[5].words());
        let other_two = add_rows(&mut self.ones, sets[6].words(), last.words());
        let other_four = add_rows(&mut self.twos, &two, &other_two);
        add_rows(&mut self.fours, &four, &other_four)
    }

    /// What the member's digits are worth.
    pub(crate) fn count(&self, member: u32) -> u64
        requires { member < 64 * W }
        ensures { result ≡ low_count self.now member }
    {
        bit(&self.ones, member) + 2 * bit(&self.twos, member) + 4 * bit(&self.fours, member)
    }

    /// The digits, with those of the first so many of these sets waiting at them.
    pub(crate) fn with(&self, sets: &[StateSet<W>; WAITING], filled: usize) -> [Digits<W>; 3]
        requires width { W ≤ 17 }
        requires filled { filled ≤ 7 }
        ensures { (q : ℕ) → q < 64 * W
            → count_in result q ≡ sets_with (take filled sets.now) q + low_count self.now q }
    {
        let waiting = added(sets, filled);
        [
            Digits {
                bits: self.ones,
                waiting: Some(waiting.ones),
            },
            Digits {
                bits: self.twos,
                waiting: Some(waiting.twos),
            },
            Digits {
                bits: self.fours,
                waiting: Some(waiting.fours),
            },
        ]
    }
}

/// How many of the first so many of these sets hold each member.
fn added<const W: usize>(sets: &[StateSet<W>; WAITING], filled: usize) -> Low<W>
    requires width { W ≤ 17 }
    requires filled { filled ≤ 7 }
    ensures { (q : ℕ) → q < 64 * W → low_count result q ≡ sets_with (take filled sets.now) q }
{
    let mut low = Low::new();
    for index in 0..filled {
        let two = add_rows(&mut low.ones, sets[index].words(), &[0; W]);
        let four = add_rows(&mut low.twos, &two, &[0; W]);
        add_rows(&mut low.fours, &four, &[0; W]);
    }
    low
}
