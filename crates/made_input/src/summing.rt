//! The summary of an answer on made input.

ghost use Rattle.std.specs.Prelude.{◌≡◌, ◌+◌, ◌≤◌, ◌<◌, ◌++◌, ℕ, List, length, map, codes, decimal};
ghost use Rattle.arrayvec.specs.ArrayString.{array_string_len};
ghost use Rattle.mine_model.specs.Names.{named_row};
ghost use Rattle.made_input.specs.Summary.{supports_of, longest_of, summary_of};

use arrayvec::ArrayString;
use itoa::{Buffer, Integer};
use mine_model::Row;

/// A summary takes no memory.
pub type Summary = ArrayString<256>;

/// The sum of the supports.
fn supports(rows: &[Row]) -> u128
    ensures { (names : List (List ℕ)) → result ≡ supports_of (map (named_row names) rows.now) }
{
    let mut sum: u128 = 0;
    for row in rows {
        sum += u128::from(row.support);
    }
    sum
}

/// The greatest length of a pattern, 0 where there is none.
fn longest(rows: &[Row]) -> usize
    ensures { (names : List (List ℕ)) → result ≡ longest_of (map (named_row names) rows.now) }
{
    let mut longest = 0;
    for row in rows {
        longest = longest.max(row.pattern.items().len());
    }
    longest
}

/// Appends what stands before a number, and the number in decimal: at most 60 bytes together.
fn push_number<N: Integer>(text: &mut Summary, what: &str, number: N)
    requires room { array_string_len text.old + 60 ≤ 256 }
    requires short { length what.now ≤ 20 }
    ensures bytes { text.new.bytes ≡ text.old.bytes ++ what.now ++ N.text number }
    ensures len { array_string_len text.new ≤ array_string_len text.old + 60 }
{
    let mut digits = Buffer::new();
    text.push_str(what);
    text.push_str(digits.format(number));
}

/// The summary of the rows of an answer on so many made sequences, with its line feed: how many rows there
/// are, the sum of their supports, and the greatest length of a pattern.
pub fn summary(count: u32, rows: &[Row]) -> Summary
    ensures { (names : List (List ℕ)) → result.bytes ≡ summary_of count (map (named_row names) rows.now) }
{
    let mut text = Summary::new();
    push_number(&mut text, "generated ", count);
    push_number(&mut text, " patterns ", rows.len());
    push_number(&mut text, " support ", supports(rows));
    push_number(&mut text, " longest ", longest(rows));
    text.push_str("\n");
    text
}
