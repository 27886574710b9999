//! The names of the made items.

ghost use Rattle.std.specs.Prelude.{◌≡◌, ◌+◌, ◌≤◌, ◌<◌, ◌++◌, length, IfOk, codes, decimal};
ghost use Rattle.arrayvec.specs.ArrayString.{array_string_len};
ghost use Rattle.made_input.specs.Made.{made_name, made_names};

use arrayvec::ArrayString;
use item_names::Names;
use itoa::Buffer;
use mine_model::NoMemory;
use std::alloc::Global;

/// A name while it is made: a letter and a number, or `top`.
type Text = ArrayString<24>;

/// How many made items there are.
pub(crate) const MADE_ITEMS: u32 = 111;

/// The letter, and behind it the number in decimal.
fn lettered(letter: &'static str, number: u32) -> Text
    requires { length letter.now ≤ 1 }
    ensures { result.bytes ≡ letter.now ++ decimal number }
{
    let mut text = Text::new();
    text.push_str(letter);
    let mut digits = Buffer::new();
    text.push_str(digits.format(number));
    text
}

/// The name of the made item with this number.
fn name_of(number: u32) -> Text
    ensures { result.bytes ≡ made_name number }
{
    if number < 100 {
        lettered("w", number)
    } else if number < 110 {
        lettered("c", number % 10)
    } else {
        let mut top = Text::new();
        top.push_str("top");
        top
    }
}

/// The names of all made items, in the order of their numbers.
pub(crate) fn all_names(alloc: Global) -> Result<Names, NoMemory>
    ensures { IfOk result (λ names. names ≡ made_names) }
{
    let mut names = Names::new(alloc)?;
    for number in 0..MADE_ITEMS {
        // So few names are never too many, so only memory can be wanting.
        if names.intern(name_of(number).as_str().as_bytes()).is_err() {
            return Err(NoMemory);
        }
    }
    Ok(names)
}
