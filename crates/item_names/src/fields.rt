//! The items that the fields of a line name.

ghost use Rattle.std.specs.Prelude.{◌≡◌, ℕ, ◌≤◌, List, ◌++◌, Some, Err, length, slice_get, slice_range, All, Contains, IfOk, OnOk, OnErr};
ghost use Rattle.mine_model.specs.Limits.{most_items};
ghost use Rattle.mine_model.specs.Names.{AreDistinct, GrowBy};
ghost use Rattle.mine_model.specs.Refusal.{HasMoreNames};
ghost use Rattle.text_ports.specs.Lines.{IsWithin};
ghost use Rattle.item_names.specs.Fields.{texts_at, AreItemsOf};
ghost use Rattle.item_names.specs.Names.{IsInterned};

use super::names_fault::NamesFault;
use crate::keys::key_of;
use crate::table::find;
use crate::{MOST_NAMES, Names};
use mine_model::Item;
use text_ports::Span;

impl Names {
    /// Leaves the items that the fields of a line name. A new name gets the next number. After a refusal the
    /// names that were met so far are held as well.
    pub fn intern_fields(
        &mut self,
        text: &[u8],
        fields: &[Span],
        items: &mut Vec<Item>,
    ) -> Result<(), NamesFault>
        requires { All (IsWithin (length text.now)) fields.now }
        ensures items { OnOk result (AreItemsOf self.new items.new.items (texts_at text.now fields.now)) }
        ensures grown { OnOk result (GrowBy self.old (texts_at text.now fields.now) self.new) }
        ensures room { OnOk result (length self.new ≤ most_items) }
        ensures kept { (added : List (List ℕ)) × (self.new ≡ self.old ++ added) }
        ensures too_many { result ≡ Err NamesFault.TooMany
            → HasMoreNames most_items (self.old ++ texts_at text.now fields.now) }
    {
        items.clear();
        for span in fields {
            let item = match self.intern_within(text, *span) {
                Ok(item) => item,
                Err(fault) => return Err(fault),
            };
            match items.push(item) {
                Ok(()) => {}
                Err(_) => return Err(NamesFault::NoMemory),
            }
        }
        prove!(self.count() <= MOST_NAMES);
        Ok(())
    }

    // The number of the name that a field of a line is, as `intern` gives it.
    #[inline(always)]
    fn intern_within(&mut self, text: &[u8], span: Span) -> Result<Item, NamesFault>
        requires { IsWithin (length text.now) span }
        ensures number { IfOk result (λ item.
            slice_get self.new item.0 ≡ Some (slice_range text.now span.from span.to)) }
        ensures names { OnOk result (IsInterned self.old (slice_range text.now span.from span.to) self.new) }
        ensures distinct { AreDistinct self.new }
        ensures too_many { (result ≡ Err NamesFault.TooMany) → (length self.old ≡ most_items)
            × ¬ Contains self.old (slice_range text.now span.from span.to) }
        ensures err { OnErr result (self.new ≡ self.old) }
    {
        let name = &text[span.from..span.to];
        let key = key_of(name);
        if let Some(item) = find(&self.texts, self.slots.as_slice(), key, name) {
            return Ok(item);
        }
        self.intern(name)
    }
}
