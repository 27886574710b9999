ghost use Rattle.std.specs.Prelude.{◌≡◌};
ghost use Rattle.sequence_grids.specs.Readings.{HasOutputs, outputs_at};

use fst_compile::State;

/// What reading the item at a position of a sequence may do, where the place was looked up once: the states
/// whose edges read it and write nothing, those whose edges may write something, those that complete behind
/// it where what is needed was seen and where it was not, and those that end behind it, each as words of 64
/// states; and what may be written, as ranks: by the number of a state that of its column, whose states write
/// the same, and column by column where its ranks begin, which is where those of the one before end.
#[derive(Clone, Copy, Debug)]
pub struct Reading<'a> {
    pub silent: &'a [u64],
    pub writing: &'a [u64],
    pub seen: &'a [u64],
    pub unseen: &'a [u64],
    pub ending: &'a [u64],
    pub columns: &'a [u32],
    pub ends: &'a [u32],
    pub ranks: &'a [u32],
}

impl<'a> Reading<'a> {
    /// What the edges into state k may write, as ranks. Takes no memory.
    pub fn outputs(&self, k: State) -> &'a [u32]
        requires { HasOutputs self.now k.0 }
        ensures { result.now ≡ outputs_at self.now k.0 }
    {
        let column = self.columns[k.0 as usize] as usize;
        &self.ranks[self.ends[column] as usize..self.ends[column + 1] as usize]
    }
}
