//! What a place does, by the class of its item and the triple behind it.

ghost use Rattle.std.specs.Prelude.{◌≡◌, ℕ, ◌≤◌, ◌↔◌};
ghost use Rattle.state_bits.specs.Members.{Has, HasBit};
ghost use Rattle.sequence_grids.specs.Tables.{ClassSets, TripleSets};
ghost use Rattle.sequence_grids.specs.Words.{AreClassWords, AreTripleWords};
ghost use Rattle.walk_memo.specs.Moves.{move_sets};
ghost use Rattle.place_records.specs.Twins.{twin_sets, dead_twin, move_in, IsTwinOf, AreTargets, words_for};

use sequence_grids::Words;
use state_bits::StateSet;
use walk_memo::Move;

/// What a place does for paths that have not seen what is needed, and for those that have.
#[derive(Clone, Copy, Debug, PartialEq, Eq, Hash)]
pub(crate) struct Twin<const W: usize> {
    pub(crate) early: Move<W>,
    pub(crate) late: Move<W>,
}

impl<const W: usize> Twin<W> {
    /// Nothing is done.
    pub(crate) fn dead() -> Twin<W>
        requires { W ≤ 17 }
        ensures { twin_sets result ≡ dead_twin }
    {
        let early = Move {
            silent: StateSet::new(),
            writes: StateSet::new(),
            more: StateSet::new(),
            unseen: StateSet::new(),
            ends: StateSet::new(),
        };
        let late = early;
        Twin { early, late }
    }

    /// The move for paths that go on so.
    pub(crate) fn movement(&self, goes: bool) -> &Move<W>
        requires { W ≤ 17 }
        ensures { move_sets result.now ≡ move_in goes (twin_sets self.now) }
    {
        if goes { &self.late } else { &self.early }
    }
}

/// What a place does whose class and triple have these words, where something is needed or nothing is.
pub(crate) fn twin_of<const W: usize>(
    targets: &StateSet<W>,
    words: Words<'_>,
    needed: bool,
) -> Twin<W>
    requires width { W ≤ 17 }
    ensures { (states : ℕ) (class : ClassSets) (behind : TripleSets) → AreTargets states targets.now
        → AreClassWords states class words.entry → AreTripleWords states behind words.entry
        → IsTwinOf states needed class behind (twin_sets result) }
{
    let silent = cut(targets, words.silent);
    let written = cut(targets, words.writing);
    let writes = cut(&written, words.seen);
    let early = Move {
        silent: cut(&silent, words.unseen),
        writes,
        more: cut(&writes, continuing(words, needed)),
        unseen: cut(&writes, words.unseen),
        ends: cut(&writes, words.ending),
    };
    let mut late = early;
    late.silent = cut(&silent, words.more);
    Twin { early, late }
}

// The words of the states from which something can be written, where what is needed was seen or is written,
// too.
fn continuing(words: Words<'_>, seen: bool) -> &[u64]
    ensures { result.now ≡ words_for words.entry seen }
{
    if seen { words.more } else { words.unseen }
}

// The members whose bits the words have.
fn cut<const W: usize>(set: &StateSet<W>, words: &[u64]) -> StateSet<W>
    requires { W ≤ 17 }
    ensures { (k : ℕ) → Has result k ↔ (Has set.now k × HasBit words.now k) }
{
    let mut found = *set;
    found.intersect_with_words(words);
    found
}
