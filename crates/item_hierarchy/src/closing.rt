ghost use Rattle.std.specs.Prelude.{◌≡◌, ◌≤◌, ◌<◌, ◌↔◌, ℕ, List, length, All, IsPermutation, IfOk, IfErr, OnOk};
ghost use Rattle.mine_model.specs.declared.item.Item.{Item};
ghost use Rattle.mine_model.specs.Limits.{most_ancestors};
ghost use Rattle.mine_model.specs.Hierarchy.{IsAncestor, HasCycle, IsAcyclic, IsCycleLine, HasMoreAncestors};
ghost use Rattle.flat_lists.specs.Cuts.{AreCut, list_at};
ghost use Rattle.item_hierarchy.specs.declared.edges.EdgeRow.{EdgeRow};
ghost use Rattle.item_hierarchy.specs.Edges.{links_of, placed_of, AreWithin, IsCloseRefusal, Closes};
ghost use Rattle.item_hierarchy.specs.ByChild.{AreByChild};
ghost use Rattle.item_hierarchy.specs.Walking.{links_upto, IsParentsFirst};
ghost use Rattle.item_hierarchy.specs.Gathering.{list_in, IsPart, AreFew};

use super::ancestors::{MOST_ANCESTORS, Part, ancestors_of};
use super::by_child::{ByChild, by_child};
use super::edges::{EdgeRow, Edges};
use super::hierarchy_fault::CloseFault;
use super::walk::parents_first;
use item_names::Names;
use mine_model::{Hierarchy, Item, NoMemory};
use std::alloc::Global;
use std::marker::Model;

/// The rows of a hierarchy without a cycle, by child, and its items in an order in which parents come first.
#[derive(Debug, Drop)]
pub struct Ordered {
    items: u32,
    sorted: ByChild,
    order: Vec<Item>,
}

impl Model for Ordered {
    ghost use Rattle.mine_model.specs.Hierarchy.{IsAcyclic};
    ghost use Rattle.item_hierarchy.specs.Edges.{OrderedRows, links_of, AreWithin};
    ghost use Rattle.item_hierarchy.specs.ByChild.{AreByChild};
    ghost use Rattle.item_hierarchy.specs.Walking.{IsParentsFirst};

    ghost Value = { OrderedRows };

    ghost view = { λ o. record { items = o.items; rows = o.sorted.rows.items } };

    ghost invariant = { λ o. AreByChild o.items o.sorted.starts.items o.sorted.rows.items
        × AreWithin o.items o.sorted.rows.items
        × IsParentsFirst (links_of o.sorted.rows.items) o.items o.order.items
        × IsAcyclic (links_of o.sorted.rows.items) };
}

/// The hierarchy that the rows say. `names` holds the names of the items.
///
/// The line of a cycle is the first one with which the rows so far lead from an item back to it.
pub fn close(alloc: Global, edges: Edges, names: &Names) -> Result<Hierarchy, CloseFault>
    requires named { edges.items ≡ length names.now }
    requires within { AreWithin edges.items edges.rows.items }
    ensures closed { IfOk result (Closes edges.items edges.rows.items) }
    ensures refusal { IfErr result (IsCloseRefusal edges.items edges.rows.items) }
{
    let _ = names;
    match order(alloc, edges) {
        Ok(ordered) => ordered.close(alloc),
        Err(fault) => Err(fault),
    }
}

/// The rows by child, where they have no cycle. The line of a cycle is the first one with which the rows so
/// far lead from an item back to it.
pub fn order(alloc: Global, edges: Edges) -> Result<Ordered, CloseFault>
    requires within { AreWithin edges.items edges.rows.items }
    ensures items { IfOk result (λ ordered. ordered.items ≡ edges.items) }
    ensures rows { IfOk result (λ ordered. IsPermutation edges.rows.items ordered.rows) }
    ensures refusal { IfErr result (IsCloseRefusal edges.items edges.rows.items) }
{
    let items = edges.items;
    let sorted = by_child(alloc, edges)?;
    match order_of(
        alloc,
        items,
        sorted.starts.as_slice(),
        sorted.rows.as_slice(),
    ) {
        Ok(order) => Ok(Ordered {
            items,
            sorted,
            order,
        }),
        Err(fault) => Err(fault),
    }
}

impl Ordered {
    /// The hierarchy of these rows.
    pub fn close(&self, alloc: Global) -> Result<Hierarchy, CloseFault>
        ensures closed { (rows : List EdgeRow) → IsPermutation rows self.now.rows
            → IfOk result (Closes self.now.items rows) }
        ensures refusal { (rows : List EdgeRow) → IsPermutation rows self.now.rows
            → IfErr result (IsCloseRefusal self.now.items rows) }
    {
        close_in_order(
            alloc,
            self.items,
            self.sorted.starts.as_slice(),
            self.sorted.rows.as_slice(),
            self.order.as_slice(),
        )
    }

    /// Whether the items surely have no more ancestors than may be, so that closing the rows is refused for
    /// want of memory alone. The ways up are counted, of which several may lead to one ancestor. It is a
    /// hint: no clause says when the answer is yes.
    pub fn are_surely_few(&self, alloc: Global) -> bool {
        let ways = all_ways(
            alloc,
            self.items,
            self.sorted.starts.as_slice(),
            self.sorted.rows.as_slice(),
            self.order.as_slice(),
        );
        match ways {
            Ok(ways) => ways <= MOST_ANCESTORS as u64,
            Err(_) => false,
        }
    }
}

// How many ways lead up from all items, each to itself among them; or the greatest number.
fn all_ways(
    alloc: Global,
    items: u32,
    starts: &[usize],
    rows: &[EdgeRow],
    order: &[Item],
) -> Result<u64, NoMemory>
    requires sorted { AreByChild items starts.now rows.now }
    requires within { AreWithin items rows.now }
    requires order { All (λ t. t.0 < items) order.now }
{
    let mut ways = vec![in alloc; 0u64; items as usize]?;
    let mut sum: u64 = 0;
    for t in order {
        let own = ways_of(starts, rows, ways.as_slice(), *t);
        ways[t.0 as usize] = own;
        sum = sum.saturating_add(own);
    }
    Ok(sum)
}

// How many ways lead up from an item, by those from its parents.
fn ways_of(starts: &[usize], rows: &[EdgeRow], ways: &[u64], t: Item) -> u64
    requires sorted { AreByChild (length ways.now) starts.now rows.now }
    requires within { AreWithin (length ways.now) rows.now }
    requires item { t.0 < length ways.now }
{
    let number = t.0 as usize;
    let mut own: u64 = 1;
    for at in starts[number]..starts[number + 1] {
        own = own.saturating_add(ways[rows[at].parent.0 as usize]);
    }
    own
}

// The items in an order in which parents come first, where the rows, which are sorted, have no cycle.
fn order_of(
    alloc: Global,
    items: u32,
    starts: &[usize],
    rows: &[EdgeRow],
) -> Result<Vec<Item>, CloseFault>
    requires sorted { AreByChild items starts.now rows.now }
    requires within { AreWithin items rows.now }
    ensures order { IfOk result (λ order. IsParentsFirst (links_of rows.now) items order.items) }
    ensures acyclic { OnOk result (IsAcyclic (links_of rows.now)) }
    ensures refusal { IfErr result (IsCloseRefusal items rows.now) }
{
    let last = last_line(rows);
    match parents_first(alloc, items, starts, rows, last)? {
        None => {
            let line = cycle_line(alloc, items, starts, rows, last)?;
            Err(CloseFault::Cycle { line })
        }
        Some(order) => Ok(order),
    }
}

// The same where the items are in an order in which parents come first.
fn close_in_order(
    alloc: Global,
    items: u32,
    starts: &[usize],
    rows: &[EdgeRow],
    order: &[Item],
) -> Result<Hierarchy, CloseFault>
    requires sorted { AreByChild items starts.now rows.now }
    requires within { AreWithin items rows.now }
    requires order { IsParentsFirst (links_of rows.now) items order.now }
    requires acyclic { IsAcyclic (links_of rows.now) }
    ensures closed { IfOk result (Closes items rows.now) }
    ensures refusal { IfErr result (IsCloseRefusal items rows.now) }
{
    match ancestors_of(alloc, items, starts, rows, order)? {
        None => Err(CloseFault::TooManyAncestors),
        Some(made) => {
            let (ends, lists) = in_order_of_number(
                alloc,
                made.parts.as_slice(),
                made.lists.as_slice(),
            )?;
            Ok(Hierarchy::new(ends, lists))
        }
    }
}

// The greatest line of a row, or 0.
fn last_line(rows: &[EdgeRow]) -> u64
    ensures { All (λ row. row.line ≤ result) rows.now }
{
    let mut last = 0;
    for row in rows {
        last = last.max(row.line);
    }
    last
}

// The least line up to which the rows have a cycle, which they have up to the last.
fn cycle_line(
    alloc: Global,
    items: u32,
    starts: &[usize],
    rows: &[EdgeRow],
    last: u64,
) -> Result<u64, NoMemory>
    requires sorted { AreByChild items starts.now rows.now }
    requires within { AreWithin items rows.now }
    requires cycle { HasCycle (links_upto last rows.now) }
    ensures { IfOk result (IsCycleLine (placed_of rows.now)) }
{
    let mut low = 0;
    let mut high = last;
    while low < high {
        let middle = low + (high - low) / 2;
        match parents_first(alloc, items, starts, rows, middle)? {
            Some(_order) => low = middle + 1,
            None => high = middle,
        }
    }
    Ok(high)
}

// The lists in the order of their items, and where each ends.
fn in_order_of_number(
    alloc: Global,
    parts: &[Part],
    lists: &[Item],
) -> Result<(Vec<u32>, Vec<Item>), NoMemory>
    requires parts { (n : ℕ) → n < length parts.now → IsPart parts.now lists.now n }
    requires few { AreFew parts.now lists.now }
    ensures items { IfOk result (λ made. length made.0.items ≡ length parts.now) }
    ensures cut { IfOk result (λ made. AreCut made.0.items (length made.1.items)) }
    ensures lists { IfOk result (λ made. (n : ℕ) → n < length parts.now
        → list_at made.0.items made.1.items n ≡ list_in parts.now lists.now n) }
    ensures few { IfOk result (λ made. length made.1.items ≤ most_ancestors) }
{
    let mut ends = Vec::with_capacity(alloc, parts.len())?;
    let mut ordered = Vec::with_capacity(alloc, lists.len())?;
    for part in parts {
        ordered.extend_from_slice(&lists[part.from as usize..part.to as usize])?;
        ends.push(ordered.len() as u32)?;
    }
    Ok((ends, ordered))
}
