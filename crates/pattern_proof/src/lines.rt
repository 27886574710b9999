//! What a line of a proof file says.

ghost use Rattle.std.specs.Prelude.{◌≡◌, ℕ, ◌≤◌, true, List, MatchBool, MatchOption, IfOk, IsTrue};
ghost use Rattle.mine_model.specs.declared.item.Item.{Item};
ghost use Rattle.mine_model.specs.declared.row.Row.{Row};
ghost use Rattle.mine_model.specs.Bytes.{space};
ghost use Rattle.mine_model.specs.Limits.{most_support};
ghost use Rattle.pattern_proof.specs.Pieces.{BeginsWith};
ghost use Rattle.pattern_proof.specs.ProofLines.{Cited, is_path_line, SaysRow, SaysPath, AreFileNames};
ghost use Rattle.pattern_proof.specs.Reading.{SaysNames, SaysStates, AreSmall, IsSmall, numbers_of};

use super::numbers::{number_in, place_of, small_number_in};
use fst_compile::State;
use item_names::Names;
use mine_model::{Item, NoMemory};

/// Stands behind the support, and before a path.
const TAB: u8 = b'\t';

/// Stands between two names, and before a state.
const SPACE: u8 = b' ';

/// Whether the line is one of a path.
pub(crate) fn is_of_path(text: &[u8]) -> bool
    ensures { result ≡ is_path_line text.now }
{
    match text.first() {
        Some(first) => *first == TAB,
        None => false,
    }
}

/// The support that a line says, with the items of its names. None where it says no row, or a greater support
/// than any that is taken.
pub(crate) fn row_in(
    names: &Names,
    text: &[u8],
    items: &mut Vec<Item>,
) -> Result<Option<u64>, NoMemory>
    ensures { IfOk result (λ said. MatchOption said (AreFileNames names.now → (row : Row)
        → SaysRow names.now text.now row → row.support ≤ most_support → ⊥)
        (λ n. SaysRow names.now text.now (record { pattern = items.new.items; support = n })
        × (n ≤ most_support))) }
{
    let end = place_of(TAB, text);
    if end == text.len() {
        return Ok(None);
    }
    let Some(support) = number_in(&text[..end]) else {
        return Ok(None);
    };
    if !names_in(names, &text[end + 1..], items)? {
        return Ok(None);
    }
    Ok(Some(support))
}

/// Leaves the items whose names the text says. The answer is false where it says no names.
fn names_in(names: &Names, text: &[u8], items: &mut Vec<Item>) -> Result<bool, NoMemory>
    ensures { IfOk result (λ said. MatchBool said (SaysNames names.now text.now items.new.items)
        (AreFileNames names.now → (others : List Item) → SaysNames names.now text.now others → ⊥)) }
{
    items.clear();
    let mut from = 0;
    while from <= text.len() {
        let end = from + place_of(SPACE, &text[from..]);
        let Some(item) = names.find(&text[from..end]) else {
            return Ok(false);
        };
        items.push(item)?;
        from = end + 1;
    }
    Ok(true)
}

/// The sequence whose path a line says, by its number, counted from 0, with the states of the path. None
/// where it says no path, or a greater number than any that is taken.
pub(crate) fn path_in(text: &[u8], states: &mut Vec<State>) -> Result<Option<u32>, NoMemory>
    requires { is_path_line text.now ≡ true }
    ensures { IfOk result (λ said. MatchOption said
        ((path : Cited) → SaysPath text.now path → IsSmall path → ⊥)
        (λ place. SaysPath text.now (record { place = place; states = numbers_of states.new.items }))) }
{
    let behind = &text[1..];
    let end = place_of(SPACE, behind);
    let Some(line) = small_number_in(&behind[..end]) else {
        return Ok(None);
    };
    let Some(place) = line.checked_sub(1) else {
        return Ok(None);
    };
    if !states_in(&behind[end..], states)? {
        return Ok(None);
    }
    Ok(Some(place))
}

/// Leaves the states that the text says. The answer is false where it says none.
fn states_in(text: &[u8], states: &mut Vec<State>) -> Result<bool, NoMemory>
    requires { BeginsWith space text.now }
    ensures { IfOk result (λ said. MatchBool said (SaysStates text.now (numbers_of states.new.items))
        ((others : List ℕ) → SaysStates text.now others → AreSmall others → ⊥)) }
{
    states.clear();
    let mut at = 0;
    while at < text.len() {
        let from = at + 1;
        let end = from + place_of(SPACE, &text[from..]);
        let Some(number) = small_number_in(&text[from..end]) else {
            return Ok(false);
        };
        states.push(State(number))?;
        at = end;
    }
    Ok(true)
}
