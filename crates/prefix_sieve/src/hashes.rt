//! Hashes of lists of ranks.

ghost use Rattle.std.specs.Prelude.{◌≡◌, ℕ, ◌++◌, ◌∷◌, [], List};
ghost use Rattle.std.specs.Hash.FoldHasher.{folded_multiply};
ghost use Rattle.prefix_sieve.specs.Hashes.{mixed, hash_of};

/// The hash of the empty list.
pub const START: u64 = 0x9e37_79b9_7f4a_7c15;

const MULTIPLIER: u64 = 0x2545_f491_4f6c_dd1d;

/// The hash of a list with one more rank behind it: one product, and no table.
#[inline]
pub fn hash_behind(hash: u64, rank: u32) -> u64
    ensures { (list : List ℕ) → hash ≡ hash_of list → result ≡ hash_of (list ++ rank ∷ []) }
{
    mixed(hash, rank)
}

#[inline]
pub(crate) fn mixed(hash: u64, rank: u32) -> u64
    ensures { result ≡ mixed hash rank }
{
    folded_multiply(hash ^ u64::from(rank), MULTIPLIER)
}

/// The two halves of a product, joined bit by bit.
#[inline]
fn folded_multiply(first: u64, second: u64) -> u64
    ensures { result ≡ folded_multiply first second }
{
    let product = first as u128 * second as u128;
    (product & 0xffff_ffff_ffff_ffff) as u64 ^ (product >> 64) as u64
}
