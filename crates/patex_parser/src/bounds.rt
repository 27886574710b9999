ghost use Rattle.std.specs.Prelude.{◌≡◌, ◌+◌, ℕ, Option, min, List};
ghost use Rattle.mine_model.specs.Limits.{most_times};
ghost use Rattle.mine_model.specs.Tokens.{repeat};
ghost use Rattle.mine_model.specs.Grammar.{value_of_digits, IsRepeat};
ghost use Rattle.patex_parser.specs.Scanning.{IsKind};
ghost use Rattle.patex_parser.specs.Repeats.{IsPart, IsCapped, IsCappedIf};

use super::bytes::{Class, run_of};
use super::token::{Kind, Mark};

// The greatest number of a repeat.
const MOST_TIMES: u32 = 1024;

/// What stands before or behind the comma of a repeat.
#[derive(Clone, Copy)]
pub(crate) enum Part {
    Blank,
    /// A number, or one more than a repeat may have where it is greater.
    Number(u32),
    Other,
}

// The value of decimal digits, or one more than a repeat may have where it is greater.
fn value(digits: &[u8]) -> u32
    ensures { result ≡ min (value_of_digits digits.now) (most_times + 1) }
{
    let mut value = 0;
    for digit in digits {
        value = (value * 10 + digit.saturating_sub(b'0') as u32).min(MOST_TIMES + 1);
    }
    value
}

fn part_of(bytes: &[u8]) -> Part
    ensures { IsPart bytes.now result }
{
    let (_, rest) = bytes.split_at(run_of(Class::Free, bytes));
    if rest.is_empty() {
        return Part::Blank;
    }
    let (digits, after) = rest.split_at(run_of(Class::Digit, rest));
    if digits.is_empty() || run_of(Class::Free, after) != after.len() {
        return Part::Other;
    }
    Part::Number(value(digits))
}

// What a repeat with these bounds is, by the limit and by their order.
fn judged(least: u32, most: Option<u32>) -> Kind
    ensures { (between : List ℕ) (n : ℕ) (m : Option ℕ)
        → IsRepeat between n m → IsCapped n least → IsCappedIf m most → IsKind (repeat between) result }
{
    let upper = most.unwrap_or(least);
    if least > MOST_TIMES || upper > MOST_TIMES {
        return Kind::BeyondLimit;
    }
    if upper < least {
        return Kind::BadRepeat;
    }
    Kind::Mark(Mark::Postfix { least, most })
}

// What a repeat is, by what stands between its braces.
pub(crate) fn repeat(between: &[u8]) -> Kind
    ensures { IsKind (repeat between.now) result }
{
    let (front, behind) = between.split_at(run_of(Class::BeforeComma, between));
    let left = part_of(front);
    let [_, back @ ..] = behind else {
        return match left {
            Part::Number(n) => judged(n, Some(n)),
            _ => Kind::BadRepeat,
        };
    };
    match (left, part_of(back)) {
        (Part::Number(n), Part::Blank) => judged(n, None),
        (Part::Blank, Part::Number(m)) => judged(0, Some(m)),
        (Part::Number(n), Part::Number(m)) => judged(n, Some(m)),
        _ => Kind::BadRepeat,
    }
}
