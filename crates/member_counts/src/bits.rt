//! Rows of bits, a bit for each member.

ghost use Rattle.std.specs.Prelude.{◌≡◌, ℕ, ◌+◌, ◌*◌, ◌<◌, length};
ghost use Rattle.std.specs.Int.{bit_at};
ghost use Rattle.member_counts.specs.Digits.{bit_in};

/// Adds two rows to a third, each bit by itself. What is carried.
#[inline]
pub(crate) fn add_rows<const W: usize>(sum: &mut [u64; W], one: &[u64], other: &[u64]) -> [u64; W]
    requires one { length one.now ≡ W }
    requires other { length other.now ≡ W }
    ensures { (q : ℕ) → bit_in sum.new q + 2 * bit_in result q
        ≡ bit_in sum.old q + bit_in one.now q + bit_in other.now q }
{
    let mut carry = [0; W];
    for index in 0..W {
        let (low, high) = add_bits(sum[index], one[index], other[index]);
        sum[index] = low;
        carry[index] = high;
    }
    carry
}

// The sum of three words, each bit by itself, and what is carried.
#[inline]
fn add_bits(one: u64, two: u64, three: u64) -> (u64, u64)
    ensures { (k : ℕ) → bit_at result.0 k + 2 * bit_at result.1 k
        ≡ bit_at one k + bit_at two k + bit_at three k }
{
    let odd = one ^ two;
    (odd ^ three, (one & two) | (odd & three))
}

/// The member's bit.
pub(crate) fn bit<const W: usize>(row: &[u64; W], member: u32) -> u64
    requires { member < 64 * W }
    ensures { result ≡ bit_in row.now member }
{
    (row[(member / 64) as usize] >> (member % 64)) & 1
}
