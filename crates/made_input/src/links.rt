//! The rows of the made hierarchy.

ghost use Rattle.std.specs.Prelude.{◌≡◌, ◌+◌, ◌<◌, ◌++◌, [], ◌∷◌, length, IfOk, OnOk};
ghost use Rattle.mine_model.specs.Ancestry.{item_at};
ghost use Rattle.item_hierarchy.specs.Edges.{links_of};
ghost use Rattle.made_input.specs.Made.{link, links_of_word, word_links, class_links, item_links};

use item_hierarchy::EdgeRow;
use mine_model::{Item, NoMemory};
use std::alloc::Global;

/// How many words there are. Words come first, then classes, then what stands above all.
const WORDS: u32 = 100;

/// How many classes there are.
const CLASSES: u32 = 10;

/// The number of the item above all classes.
const TOP: u32 = 110;

/// Appends that an item stands directly above another, as in a file with a line for each child.
fn push_link(rows: &mut Vec<EdgeRow>, child: u32, parent: u32) -> Result<(), NoMemory>
    ensures { OnOk result (links_of rows.new.items
        ≡ links_of rows.old.items ++ link item_at child parent ∷ []) }
{
    rows.push(EdgeRow {
        child: Item(child),
        parent: Item(parent),
        line: u64::from(child) + 1,
    })?;
    Ok(())
}

/// Appends what stands directly above a word: the class of its last digit, and where its number is a multiple
/// of 3 that of its first.
fn push_word(rows: &mut Vec<EdgeRow>, word: u32) -> Result<(), NoMemory>
    requires { word < 100 }
    ensures { OnOk result (links_of rows.new.items
        ≡ links_of rows.old.items ++ links_of_word item_at word) }
{
    push_link(rows, word, WORDS + word % 10)?;
    if word % 3 == 0 {
        push_link(rows, word, WORDS + word / 10)?;
    }
    Ok(())
}

/// The rows of all words.
fn push_words(rows: &mut Vec<EdgeRow>) -> Result<(), NoMemory>
    ensures { OnOk result (links_of rows.new.items ≡ links_of rows.old.items ++ word_links item_at) }
{
    for word in 0..WORDS {
        push_word(rows, word)?;
    }
    Ok(())
}

/// The rows of all classes.
fn push_classes(rows: &mut Vec<EdgeRow>) -> Result<(), NoMemory>
    ensures { OnOk result (links_of rows.new.items ≡ links_of rows.old.items ++ class_links item_at) }
{
    for class in 0..CLASSES {
        push_link(rows, WORDS + class, TOP)?;
    }
    Ok(())
}

/// The rows of the made hierarchy.
pub(crate) fn all_links(alloc: Global) -> Result<Vec<EdgeRow>, NoMemory>
    ensures { IfOk result (λ rows. links_of rows.items ≡ item_links) }
{
    let mut rows = Vec::new(alloc);
    push_words(&mut rows)?;
    push_classes(&mut rows)?;
    Ok(rows)
}
