ghost use Rattle.std.specs.Prelude.{◌≡◌, ◌<◌, ℕ, map, length, IfOk, OnOk, IfErr};
ghost use Rattle.std.specs.List.{AllByRecursion};
ghost use Rattle.mine_model.specs.declared.fault.Fault.{Fault};
ghost use Rattle.mine_model.specs.Expression.{named_by, named_in, leaf_by, tree_by};
ghost use Rattle.mine_model.specs.Numbered.{leaf_of, tree_of};
ghost use Rattle.mine_model.specs.Names.{name_of, HasName};
ghost use Rattle.mine_model.specs.Refusal.{IsUnknown};
ghost use Rattle.patex_parser.specs.Parsing.{use_view, IsRefused, named_tree, AreWithin};
ghost use Rattle.patex_parser.specs.Resolving.{AreItemsOf, item_at};

use super::find_name::FindName;
use super::parsed::{NameUse, Parsed};
use super::patex_fault::PatexFault;
use mine_model::{Expr, Item, Leaf, NoMemory};
use std::alloc::Global;

// The items of uses.
fn items_of<N: FindName>(
    alloc: Global,
    uses: &[NameUse],
    names: &N,
) -> Result<Vec<Item>, PatexFault>
    ensures ok { IfOk result
        (λ items. AreItemsOf (N.names_of names.now) (map use_view uses.now) items.items) }
    ensures err { IfErr result (IsRefused (IsUnknown (N.names_of names.now) (map use_view uses.now))) }
{
    let mut items = Vec::new(alloc);
    for name_use in uses {
        let Some(item) = names.find(name_use.name.bytes()) else {
            return Err(PatexFault::Unknown {
                column: name_use.column,
            });
        };
        if items.push(item).is_err() {
            return Err(PatexFault::NoMemory);
        }
    }
    Ok(items)
}

// The item with this number among items. A number beyond them stays.
fn numbered(items: &[Item], k: Item) -> Item
    ensures { result ≡ item_at items.now k }
{
    match items.get(k.0 as usize) {
        Some(item) => *item,
        None => k,
    }
}

// The leaf with the items that its numbers stand for.
fn leaf_with(leaf: Leaf, items: &[Item]) -> Leaf
    ensures { leaf_of result ≡ leaf_by (item_at items.now) (leaf_of leaf) }
{
    match leaf {
        Leaf::Under(k) => Leaf::Under(numbered(items, k)),
        Leaf::Exact(k) => Leaf::Exact(numbered(items, k)),
        Leaf::Climb(k) => Leaf::Climb(numbered(items, k)),
        Leaf::Forced(k) => Leaf::Forced(numbered(items, k)),
        Leaf::Any => Leaf::Any,
        Leaf::AnyClimb => Leaf::AnyClimb,
        Leaf::Not(k) => Leaf::Not(numbered(items, k)),
        Leaf::NotExact(k) => Leaf::NotExact(numbered(items, k)),
    }
}

// The tree with the items that its numbers stand for. It calls itself once for each level of the tree.
fn tree_with(alloc: Global, tree: &Expr, items: &[Item]) -> Result<Expr, NoMemory>
    ensures { IfOk result (λ made. tree_of made ≡ tree_by (item_at items.now) (tree_of tree.now)) }
{
    match tree {
        Expr::Leaf(leaf) => Ok(Expr::Leaf(leaf_with(*leaf, items))),
        Expr::Cat(left, right) => {
            let left = tree_with(alloc, left, items)?;
            let right = tree_with(alloc, right, items)?;
            Ok(Expr::Cat(Box::new(alloc, left)?, Box::new(alloc, right)?))
        }
        Expr::Alt(left, right) => {
            let left = tree_with(alloc, left, items)?;
            let right = tree_with(alloc, right, items)?;
            Ok(Expr::Alt(Box::new(alloc, left)?, Box::new(alloc, right)?))
        }
        Expr::Rep { inner, least, most } => {
            let inner = tree_with(alloc, inner, items)?;
            Ok(Expr::Rep {
                inner: Box::new(alloc, inner)?,
                least: *least,
                most: *most,
            })
        }
        Expr::Cap(inner) => {
            let inner = tree_with(alloc, inner, items)?;
            Ok(Expr::Cap(Box::new(alloc, inner)?))
        }
    }
}

/// The expression with the items of its names in place of the numbers of its uses. A name that is not held is
/// refused at the column of its first use.
pub fn resolve<N: FindName>(parsed: &Parsed, names: &N) -> Result<Expr, PatexFault>
    requires { AreWithin (length (map use_view parsed.now.uses.items)) (named_in (tree_of parsed.now.tree)) }
    ensures names { IfOk result (λ tree. tree_by (name_of (N.names_of names.now)) (tree_of tree)
        ≡ named_tree (map use_view parsed.now.uses.items) (tree_of parsed.now.tree)) }
    ensures held { IfOk result
        (λ tree. AllByRecursion (HasName (N.names_of names.now)) (named_in (tree_of tree))) }
    ensures known { OnOk result ((fault : Fault)
        → IsUnknown (N.names_of names.now) (map use_view parsed.now.uses.items) fault → ⊥) }
    ensures refused { IfErr result
        (IsRefused (IsUnknown (N.names_of names.now) (map use_view parsed.now.uses.items))) }
{
    let alloc = *parsed.uses.allocator();
    let items = items_of(alloc, parsed.uses.as_slice(), names)?;
    Ok(tree_with(alloc, &parsed.tree, items.as_slice())?)
}
