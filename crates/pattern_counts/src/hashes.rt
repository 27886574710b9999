//! Hashes of lists of ranks.

ghost use Rattle.std.specs.Prelude.{◌≡◌};
ghost use Rattle.std.specs.Hash.FoldHasher.{folded_multiply};
ghost use Rattle.pattern_counts.specs.Hashes.{mixed, hash_of};

/// Numbers with many ones, spread over the word.
const SEED: u64 = 0x9e37_79b9_7f4a_7c15;

const MULTIPLIER: u64 = 0x2545_f491_4f6c_dd1d;

/// The hash of a list, two ranks a step.
pub(crate) fn hash_of(list: &[u32]) -> u32
    ensures { result ≡ hash_of list.now }
{
    let len = list.len();
    let mut hash = SEED;
    let mut at = 0;
    while at + 1 < len {
        hash = mixed(
            hash,
            u64::from(list[at]) + u64::from(list[at + 1]) * 0x1_0000_0000,
        );
        at += 2;
    }
    if at < len {
        hash = mixed(hash, u64::from(list[at]));
    }
    (hash % 0x1_0000_0000) as u32
}

/// The hash with one more word.
fn mixed(hash: u64, word: u64) -> u64
    ensures { result ≡ mixed hash word }
{
    folded_multiply(hash ^ word, MULTIPLIER)
}

/// The two halves of a product, joined bit by bit.
fn folded_multiply(first: u64, second: u64) -> u64
    ensures { result ≡ folded_multiply first second }
{
    let product = first as u128 * second as u128;
    (product & 0xffff_ffff_ffff_ffff) as u64 ^ (product >> 64) as u64
}
