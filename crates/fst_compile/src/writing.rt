ghost use Rattle.std.specs.Prelude.{◌≡◌, ℕ, ◌<◌, ◌↔◌, [], ◌∷◌, ◌++◌, All, Contains, IfOk, OnOk, OnErr, IsTrue};
ghost use Rattle.mine_model.specs.declared.item.Item.{Item};
ghost use Rattle.mine_model.specs.Ancestry.{AreRising};
ghost use Rattle.mine_model.specs.Hierarchy.{IsAncestor};
ghost use Rattle.mine_model.specs.Expression.{named_by};
ghost use Rattle.mine_model.specs.Numbered.{leaf_of};
ghost use Rattle.mine_model.specs.Generation.{Matches, MayWrite};

use mine_model::{Hierarchy, Item, Leaf, NoMemory};

// The leaf's row of the table: whether it matches, and what it then writes.
macro_rules! row_of {
    ($leaf:expr; $($kind:pat => $matches:expr, $written:expr;)*) => {
        match $leaf {
            $($kind => {
                if $matches {
                    $written?;
                    Ok(true)
                } else {
                    Ok(false)
                }
            })*
        }
    };
}

/// Whether the leaf matches t; `out` then holds what the leaf may write there, by rising number, and else
/// nothing.
pub fn outputs(
    hierarchy: &Hierarchy,
    leaf: &Leaf,
    t: Item,
    out: &mut Vec<Item>,
) -> Result<bool, NoMemory>
    requires t { t.0 < hierarchy.now.items }
    requires named { All (λ w. w.0 < hierarchy.now.items) (named_by (leaf_of leaf.now)) }
    ensures matches { IfOk result (λ matched.
        IsTrue matched ↔ Matches hierarchy.now.links (leaf_of leaf.now) t) }
    ensures rising { AreRising out.new.items }
    ensures outputs { OnOk result ((v : Item) → Contains out.new.items v
        ↔ (Matches hierarchy.now.links (leaf_of leaf.now) t
        × MayWrite hierarchy.now.links (leaf_of leaf.now) t v)) }
    ensures err { OnErr result (out.new.items ≡ []) }
{
    out.clear();
    row_of! { *leaf;
        Leaf::Under(w) => hierarchy.is_above(t, w), write_one(out, t);
        Leaf::Exact(w) => t == w, write_one(out, w);
        Leaf::Climb(w) => hierarchy.is_above(t, w), write_between(hierarchy, t, w, out);
        Leaf::Forced(w) => hierarchy.is_above(t, w), write_one(out, w);
        Leaf::Any => true, write_one(out, t);
        Leaf::AnyClimb => true, write_all(out, hierarchy.ancestors(t));
        Leaf::Not(w) => !hierarchy.is_above(t, w), write_one(out, t);
        Leaf::NotExact(w) => t != w, write_one(out, t);
    }
}

// Writes this item alone.
fn write_one(out: &mut Vec<Item>, item: Item) -> Result<(), NoMemory>
    ensures ok { OnOk result (out.new.items ≡ item ∷ []) }
    ensures err { OnErr result (out.new.items ≡ []) }
{
    out.clear();
    out.push(item)?;
    Ok(())
}

// Writes these items.
fn write_all(out: &mut Vec<Item>, items: &[Item]) -> Result<(), NoMemory>
    ensures ok { OnOk result (out.new.items ≡ items.now) }
    ensures err { OnErr result (out.new.items ≡ []) }
{
    out.clear();
    out.extend_from_slice(items)?;
    Ok(())
}

// Writes what is t or above it, and w or below it.
fn write_between(
    hierarchy: &Hierarchy,
    t: Item,
    w: Item,
    out: &mut Vec<Item>,
) -> Result<(), NoMemory>
    requires t { t.0 < hierarchy.now.items }
    requires w { w.0 < hierarchy.now.items }
    ensures rising { AreRising out.new.items }
    ensures between { OnOk result ((v : Item) → Contains out.new.items v
        ↔ (IsAncestor hierarchy.now.links v t × IsAncestor hierarchy.now.links w v)) }
    ensures err { OnErr result (out.new.items ≡ []) }
{
    out.clear();
    for v in hierarchy.ancestors(t) {
        if hierarchy.is_above(*v, w) {
            push_or_clear(out, *v)?;
        }
    }
    Ok(())
}

// Writes this item behind the others, or takes all away.
fn push_or_clear(out: &mut Vec<Item>, item: Item) -> Result<(), NoMemory>
    ensures ok { OnOk result (out.new.items ≡ out.old.items ++ item ∷ []) }
    ensures err { OnErr result (out.new.items ≡ []) }
{
    match out.push(item) {
        Ok(()) => Ok(()),
        Err(_) => {
            out.clear();
            Err(NoMemory)
        }
    }
}
