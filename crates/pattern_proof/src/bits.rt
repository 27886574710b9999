//! Bits of words.

ghost use Rattle.std.specs.Prelude.{◌≡◌, ℕ, ◌*◌, ◌≤◌, ◌<◌, ◌⊎◌, ◌↔◌, length, vec_capacity, IsTrue};
ghost use Rattle.state_bits.specs.Members.{HasBit};

/// Whether the bit is set.
pub(crate) fn has_bit(words: &[u64], bit: usize) -> bool
    requires { bit < 64 * length words.now }
    ensures { IsTrue result ↔ HasBit words.now bit }
{
    (words[bit / 64] >> (bit % 64)) & 1 == 1
}

/// Sets the bit.
pub(crate) fn set_bit(words: &mut Vec<u64>, bit: usize)
    requires { bit < 64 * length words.old.items }
    ensures set { (other : ℕ) → HasBit words.new.items other
        ↔ (HasBit words.old.items other ⊎ (other ≡ bit)) }
    ensures long { length words.new.items ≡ length words.old.items }
    ensures room { vec_capacity words.new ≡ vec_capacity words.old }
{
    let word = words[bit / 64] | (1 << (bit % 64));
    words[bit / 64] = word;
}

/// So many words in which no bit is set, in the memory that is there.
pub(crate) fn clear_bits(words: &mut Vec<u64>, count: usize)
    requires { count ≤ vec_capacity words.old }
    ensures clear { (bit : ℕ) → HasBit words.new.items bit → ⊥ }
    ensures long { length words.new.items ≡ count }
    ensures room { vec_capacity words.new ≡ vec_capacity words.old }
{
    words.clear();
    for _ in 0..count {
        words.push_reserved(0);
    }
}
