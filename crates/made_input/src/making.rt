//! The whole made input.

ghost use Rattle.std.specs.Prelude.{◌≡◌, ◌≤◌, ◌↔◌, ℕ, List, map, IfOk, All, Contains};
ghost use Rattle.std.specs.List.{AllByRecursion};
ghost use Rattle.mine_model.specs.declared.item.Item.{Item};
ghost use Rattle.mine_model.specs.Hierarchy.{IsAncestor};
ghost use Rattle.mine_model.specs.Names.{name_of, sequence_by, HasName};
ghost use Rattle.item_hierarchy.specs.Edges.{links_of};
ghost use Rattle.made_input.specs.Made.{item_links, item_sequences, named_links, named_sequences, made_names, made_items, most_made};

use super::links::all_links;
use super::naming::{MADE_ITEMS, all_names};
use super::sequences::made_sequences;
use item_hierarchy::{Edges, close};
use item_names::Names;
use mine_model::{Db, Hierarchy, NoMemory};
use std::alloc::Global;

/// Made input: items by the numbers of their names.
#[derive(Debug, Drop)]
pub struct Made {
    /// `w0` to `w99`, then `c0` to `c9`, then `top`.
    pub names: Names,
    /// Above a word stand one or two classes, and `top` above each class.
    pub hierarchy: Hierarchy,
    /// Sequences of 1 to 12 words, each of weight 1.
    pub db: Db,
}

/// The made hierarchy.
fn made_hierarchy(alloc: Global, names: &Names) -> Result<Hierarchy, NoMemory>
    requires { names.now ≡ made_names }
    ensures items { IfOk result (λ h. h.items ≡ made_items) }
    ensures above { IfOk result (λ h. (w t : Item)
        → (IsAncestor h.links w t ↔ IsAncestor item_links w t)) }
{
    let edges = Edges {
        items: MADE_ITEMS,
        rows: all_links(alloc)?,
    };
    // The rows have no cycle, which is a law, and at most 421 ancestors, so only
    // memory can be wanting.
    match close(alloc, edges, names) {
        Ok(hierarchy) => Ok(hierarchy),
        Err(_) => Err(NoMemory),
    }
}

/// Makes so many sequences over the made hierarchy. The same number makes the same input.
pub fn make(alloc: Global, count: u32) -> Result<Made, NoMemory>
    requires { count ≤ most_made }
    ensures names { IfOk result (λ made. made.names ≡ made_names) }
    ensures items { IfOk result (λ made. made.hierarchy.items ≡ made_items) }
    ensures above { IfOk result (λ made. (w t : Item) → HasName made_names w → HasName made_names t
        → (IsAncestor made.hierarchy.links w t
        ↔ IsAncestor named_links (name_of made_names w) (name_of made_names t))) }
    ensures sequences { IfOk result (λ made.
        map (sequence_by (name_of made_names)) made.db ≡ named_sequences count) }
    ensures named { IfOk result (λ made.
        AllByRecursion (λ s. AllByRecursion (HasName made_names) s.items) made.db) }
{
    let names = all_names(alloc)?;
    let hierarchy = made_hierarchy(alloc, &names)?;
    let db = made_sequences(alloc, count)?;
    Ok(Made {
        names,
        hierarchy,
        db,
    })
}
