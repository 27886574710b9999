//! The rows of merged files.

ghost use Rattle.std.specs.Prelude.{◌≡◌, ◌↔◌, [], ◌∷◌, ◌++◌, IsTrue, IfOk, OnOk, OnErr};
ghost use Rattle.split_merge.specs.Rows.{HasPattern};

use indexmap::IndexMap;
use mine_model::{Item, NoMemory, Pattern, Row};
use std::alloc::Global;
use std::marker::Model;

/// The rows that the lines of files said, in the order of the lines. A pattern is found by its hash.
#[derive(Drop)]
pub struct MergedRows {
    alloc: Global,
    supports: IndexMap<Vec<Item>, u64>,
}

impl Model for MergedRows {
    ghost use Rattle.std.specs.Prelude.{List, map};
    ghost use Rattle.mine_model.specs.declared.row.Row.{Row};
    ghost use Rattle.split_merge.specs.Entries.{row_of};

    ghost Value = { List Row };

    ghost view = { λ m. map row_of m.supports.entries };
}

impl MergedRows {
    /// No rows. Takes no memory.
    pub fn new(alloc: Global) -> MergedRows
        ensures { result ≡ [] }
    {
        MergedRows {
            alloc,
            supports: IndexMap::new(alloc),
        }
    }

    /// Whether a row with this pattern is held.
    pub(crate) fn has(&self, pattern: &[Item]) -> bool
        ensures { IsTrue result ↔ HasPattern self.now pattern.now }
    {
        self.supports.contains_key(pattern)
    }

    /// One more row.
    pub(crate) fn push(&mut self, pattern: &[Item], support: u64) -> Result<(), NoMemory>
        requires { HasPattern self.old pattern.now → ⊥ }
        ensures ok { OnOk result (self.new
            ≡ self.old ++ record { pattern = pattern.now; support = support } ∷ []) }
        ensures err { OnErr result (self.new ≡ self.old) }
    {
        let pattern = Vec::from_slice(self.alloc, pattern)?;
        self.supports.insert(pattern, support)?;
        Ok(())
    }

    /// The rows, in the order of the lines.
    pub fn into_rows(self) -> Result<Vec<Row>, NoMemory>
        ensures { IfOk result (λ rows. rows.items ≡ self) }
    {
        let mut rows = Vec::with_capacity(self.alloc, self.supports.len())?;
        for (pattern, support) in self.supports {
            rows.push(Row {
                pattern: Pattern::new(pattern),
                support,
            })?;
        }
        Ok(rows)
    }
}
