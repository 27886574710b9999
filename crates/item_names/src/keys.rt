//! Keys of names: of a fixed size, and for short names as good as the name itself.

ghost use Rattle.std.specs.Prelude.{◌≡◌, ◌+◌, ◌≤◌, ◌<◌, ◌↔◌, length, IsTrue, slice_range};
ghost use Rattle.std.specs.Hash.FoldHasher.{folded_multiply};
ghost use Rattle.item_names.specs.Table.{number_of, key_of, mixed};

use std::hash::{FoldHasher, Hasher};

/// The most bytes of a name that its key has whole.
const MOST_WHOLE: usize = 16;

/// A number with many ones, spread over the word.
const MULTIPLIER: u64 = 0x9e37_79b9_7f4a_7c15;

/// The bytes of a name of up to 16 bytes, the first 8 and the others, or the hash of a longer one. `size` is
/// the number of bytes, or 17.
#[derive(Clone, Copy, Debug)]
pub(crate) struct Key {
    pub(crate) low: u64,
    pub(crate) high: u64,
    pub(crate) size: u32,
}

impl Key {
    /// Whether the key has the whole name.
    pub(crate) fn is_whole(self) -> bool
        ensures { IsTrue result ↔ (self.size ≤ 16) }
    {
        self.size as usize <= MOST_WHOLE
    }

    /// A number that hangs on each bit of the key.
    pub(crate) fn mixed(self) -> u64
        ensures { result ≡ mixed self }
    {
        folded_multiply(self.low ^ u64::from(self.size), MULTIPLIER ^ self.high)
    }
}

/// The two halves of a product, joined bit by bit.
fn folded_multiply(first: u64, second: u64) -> u64
    ensures { result ≡ folded_multiply first second }
{
    let product = first as u128 * second as u128;
    (product & 0xffff_ffff_ffff_ffff) as u64 ^ (product >> 64) as u64
}

/// The key of a name.
#[inline(always)]
pub(crate) fn key_of(name: &[u8]) -> Key
    ensures { result ≡ key_of name.now }
{
    if name.len() <= 8 {
        return Key {
            low: word_of(name),
            high: 0,
            size: name.len() as u32,
        };
    }
    if name.len() <= MOST_WHOLE {
        let low = eight_bytes(name, 0);
        let last = eight_bytes(name, name.len() - 8);
        return Key {
            low,
            high: last >> (128 - 8 * name.len()),
            size: name.len() as u32,
        };
    }
    let mut hasher = FoldHasher::default();
    hasher.write(name);
    Key {
        low: hasher.finish(),
        high: 0,
        size: MOST_WHOLE as u32 + 1,
    }
}

/// The eight bytes from here on as one number, the lowest first.
fn eight_bytes(name: &[u8], from: usize) -> u64
    requires { from + 8 ≤ length name.now }
    ensures { result ≡ number_of (slice_range name.now from (from + 8)) }
{
    u64::from_le_bytes([
        name[from],
        name[from + 1],
        name[from + 2],
        name[from + 3],
        name[from + 4],
        name[from + 5],
        name[from + 6],
        name[from + 7],
    ])
}

/// Up to 8 bytes as one number, the lowest first.
fn word_of(name: &[u8]) -> u64
    requires { length name.now ≤ 8 }
    ensures { result ≡ number_of name.now }
{
    let len = name.len();
    if len >= 4 {
        let low = four_bytes(name, 0);
        let high = four_bytes(name, len - 4);
        return low + (high >> (64 - 8 * len)) * 0x1_0000_0000;
    }
    few_bytes(name)
}

/// The four bytes from here on as one number, the lowest first.
fn four_bytes(name: &[u8], from: usize) -> u64
    requires { from + 4 ≤ length name.now }
    ensures number { result ≡ number_of (slice_range name.now from (from + 4)) }
    ensures most { result < 4294967296 }
{
    u64::from(u32::from_le_bytes([name[from], name[from + 1], name[from + 2], name[from + 3]]))
}

/// Up to three bytes as one number, the lowest first.
fn few_bytes(name: &[u8]) -> u64
    requires { length name.now ≤ 3 }
    ensures { result ≡ number_of name.now }
{
    match name {
        [] => 0,
        [first] => u64::from(*first),
        [first, second] => u64::from(*first) + u64::from(*second) * 0x100,
        [first, second, ..] => {
            u64::from(*first) + u64::from(*second) * 0x100 + u64::from(name[2]) * 0x1_0000
        }
    }
}
