ghost use Rattle.std.specs.Prelude.{◌≡◌, ℕ, ◌+◌, ◌*◌, ◌^◌, ◌<◌, ◌≤◌, length};
ghost use Rattle.std.specs.Iterator.{YieldsFirst, item_count};
ghost use Rattle.state_bits.specs.Words.{AreWords};
ghost use Rattle.state_bits.specs.Left.{left};

use std::marker::Model;

/// The members of a set of states that are still to come, rising.
#[derive(Drop)]
pub struct StateIter<'a, const W: usize> {
    words: &'a [u64],
    // How many words were read, and the bits of the last of them that are still to come.
    read: usize,
    rest: u64,
}

impl<'a, const W: usize> Model for StateIter<'a, W> {
    ghost use Rattle.std.specs.Prelude.{ℕ, List};
    ghost use Rattle.state_bits.specs.Words.{AreWords};
    ghost use Rattle.state_bits.specs.Left.{left, IsPlace};

    ghost Value = { List ℕ };

    ghost view = { λ s. left W s.words.now s.read s.rest };

    ghost invariant = { λ s. AreWords W s.words.now × IsPlace W s.read s.rest };
}

impl<'a, const W: usize> StateIter<'a, W> {
    // The bits of these words.
    pub(crate) fn over(words: &'a [u64]) -> StateIter<'a, W>
        requires { AreWords W words.now }
        ensures { result ≡ left W words.now 0 0 }
    {
        StateIter {
            words,
            read: 0,
            rest: 0,
        }
    }
}

impl<const W: usize> Iterator for StateIter<'_, W> {
    type Item = u32;

    ghost next_gives = { YieldsFirst (λ s. s) };

    ghost remaining = { item_count (λ s. s) };

    fn next(&mut self) -> Option<u32> {
        while self.rest == 0 {
            self.rest = *self.words.get(self.read)?;
            self.read += 1;
        }
        let bit = self.rest.trailing_zeros();
        self.rest &= !(1 << bit);
        Some((self.read - 1) as u32 * 64 + bit)
    }
}
