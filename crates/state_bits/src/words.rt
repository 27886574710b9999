//! Rows of words, bit by bit.

ghost use Rattle.std.specs.Prelude.{◌≡◌, ℕ, length, slice_index, bit_and, bit_or, ◌↔◌, IsTrue, EachIndex};

/// Sets in `words` the bits that `other` has.
pub(crate) fn join_words(words: &mut [u64], other: &[u64])
    requires { length words.old ≡ length other.now }
    ensures { (k : ℕ) → slice_index words.new k ≡ bit_or (slice_index words.old k) (slice_index other.now k) }
{
    for index in 0..words.len() {
        words[index] |= other[index];
    }
}

/// Keeps in `words` the bits that `other` has, where a word that it lacks has none.
pub(crate) fn keep_words(words: &mut [u64], other: &[u64])
    ensures { (k : ℕ)
        → slice_index words.new k ≡ bit_and (slice_index words.old k) (slice_index other.now k) }
{
    for index in 0..words.len() {
        words[index] &= word_at(other, index);
    }
}

/// The word at the index, or 0 behind the last.
fn word_at(words: &[u64], index: usize) -> u64
    ensures { result ≡ slice_index words.now index }
{
    match words.get(index) {
        Some(word) => *word,
        None => 0,
    }
}

/// Whether no bit of `words` is set.
pub(crate) fn are_zero(words: &[u64]) -> bool
    ensures { IsTrue result ↔ EachIndex words.now (λ k. slice_index words.now k ≡ 0) }
{
    words.iter().all(|word| *word == 0)
}
