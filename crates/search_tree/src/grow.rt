ghost use Rattle.std.specs.Prelude.{◌≡◌, ℕ, Option, List, map, All, IfOk, OnOk};
ghost use Rattle.mine_model.specs.declared.row.Row.{Row};

use super::label::Grown;
use mine_model::NoMemory;
use std::alloc::Global;

/// A tree that is given by its roots and by what each node grows into.
pub trait Grow {
    /// A node of the tree, which is not grown yet.
    type Node: Drop;

    /// Room that growing uses again, node after node.
    type Room: Drop;

    // The label of a node.
    ghost label_of: { Self → Self.Node → List ℕ };

    // The labels of the roots, in order.
    ghost roots_of: { Self → List (List ℕ) };

    // The labels of the kids of the node with this label, in order.
    ghost kids_of: { Self → List ℕ → List (List ℕ) };

    // The line of the answer that the label stands for, where there is one.
    ghost row_of: { Self → List ℕ → Option Row };

    // The nodes that this tree handed out, and can grow.
    ghost IsOwn: { Self → Self.Node → Type 0 };

    // The room is large enough for this tree.
    ghost IsRoomy: { Self → Self.Room → Type 0 };

    /// Room for growing.
    fn room(&self, alloc: Global) -> Result<Self::Room, NoMemory>
        ensures { IfOk result (IsRoomy self.now) };

    /// The roots.
    fn roots(&self, alloc: Global) -> Result<Vec<Self::Node>, NoMemory>
        ensures labels { IfOk result (λ nodes. map (label_of self.now) nodes.items ≡ roots_of self.now) }
        ensures own { IfOk result (λ nodes. All (IsOwn self.now) nodes.items) };

    /// What the node grows into. After `NoMemory` the node is dropped.
    fn grow(
        &self,
        alloc: Global,
        node: Self::Node,
        room: &mut Self::Room,
    ) -> Result<Grown<Self::Node>, NoMemory>
        requires own { IsOwn self.now node }
        requires room { IsRoomy self.now room.old }
        ensures room { OnOk result (IsRoomy self.now room.new) }
        ensures label { IfOk result (λ grown. grown.label ≡ label_of self.now node) }
        ensures answer { IfOk result (λ grown. grown.row ≡ row_of self.now (label_of self.now node)) }
        ensures kids { IfOk result (λ grown.
            map (label_of self.now) grown.kids.items ≡ kids_of self.now (label_of self.now node)) }
        ensures own { IfOk result (λ grown. All (IsOwn self.now) grown.kids.items) };
}
