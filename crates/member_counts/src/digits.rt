ghost use Rattle.std.specs.Prelude.{◌≡◌, ℕ, ◌+◌, ◌*◌, ◌<◌};
ghost use Rattle.member_counts.specs.Digits.{bit_in, bit_of, digit};

use super::bits::{add_rows, bit};

/// A binary digit of the count of each member, 0, 1 or 2: its bit in one row, and its bit in another one that
/// waits there until more comes.
#[derive(Clone, Copy, Debug)]
pub(crate) struct Digits<const W: usize> {
    pub(crate) bits: [u64; W],
    pub(crate) waiting: Option<[u64; W]>,
}

impl<const W: usize> Digits<W> {
    /// Adds a row. What is carried, if anything is.
    #[inline]
    pub(crate) fn add(&mut self, row: [u64; W]) -> Option<[u64; W]>
        ensures { (q : ℕ) → digit self.new q + 2 * bit_of result q ≡ digit self.old q + bit_in row.entry q }
    {
        match self.waiting {
            Some(waiting) => {
                self.waiting = None;
                Some(add_rows(&mut self.bits, &waiting, &row))
            }
            None => {
                self.waiting = Some(row);
                None
            }
        }
    }

    /// Adds the digit to a row. What is carried.
    pub(crate) fn add_to(&self, row: &mut [u64; W]) -> [u64; W]
        ensures { (q : ℕ) → bit_in row.new q + 2 * bit_in result q
            ≡ bit_in row.old q + digit self.now q }
    {
        match &self.waiting {
            Some(waiting) => add_rows(row, &self.bits, waiting),
            None => add_rows(row, &self.bits, &[0; W]),
        }
    }

    /// The member's digit.
    pub(crate) fn digit(&self, member: u32) -> u64
        requires { member < 64 * W }
        ensures { result ≡ digit self.now member }
    {
        let waiting = match &self.waiting {
            Some(waiting) => bit(waiting, member),
            None => 0,
        };
        bit(&self.bits, member) + waiting
    }
}
