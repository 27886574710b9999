//! Reads a piece by names that are known, and by names of its own behind them.

ghost use Rattle.std.specs.Prelude.{◌≡◌, [], ◌∷◌, ◌++◌, ◌≤◌, Some, length, slice_get, All, IfOk, OnOk};
ghost use Rattle.mine_model.specs.Limits.{most_file_bytes, most_items};
ghost use Rattle.mine_model.specs.Names.{GrowBy};
ghost use Rattle.text_ports.specs.Lines.{IsWithin};
ghost use Rattle.text_ports.specs.Scanning.{lines_behind};
ghost use Rattle.item_names.specs.Fields.{texts_at, AreItemsOf};
ghost use Rattle.sequence_reader.specs.Taking.{behind, TookPieceLine, IsTaken};

use super::reading::Reading;
use super::sequence_fault::SequenceFault;
use item_names::{MOST_NAMES, Names, NamesFault};
use mine_model::{Db, Item};
use std::alloc::Global;
use text_ports::{LineVisitor, Span, visit_lines};

/// What was read so far of a piece. Its own names stand behind the known ones.
#[derive(Drop)]
pub(crate) struct Piece<'a> {
    known: &'a Names,
    own: Reading,
}

impl<'a> LineVisitor for Piece<'a> {
    type Fault = SequenceFault;

    ghost took = { TookPieceLine };

    ghost refused = { λ _ _ _ _ _. Unit {0} };

    fn line(&mut self, number: u64, text: &[u8], fields: &[Span]) -> Result<(), SequenceFault> {
        let own = &mut self.own;
        let line = own.next_line(number, text, fields)?;
        match intern_behind(self.known, &mut own.names, text, line.items, &mut own.items) {
            Ok(()) => {}
            Err(NamesFault::TooMany) => return Err(SequenceFault::TooManyItems { line: number }),
            Err(NamesFault::NoMemory) => return Err(SequenceFault::NoMemory),
        }
        own.db.push_weighted(own.items.as_slice(), line.weight)?;
        Ok(())
    }
}

/// Leaves the items that the fields of a line name. A name that is not known is one of the piece's own.
fn intern_behind(
    known: &Names,
    own: &mut Names,
    text: &[u8],
    fields: &[Span],
    items: &mut Vec<Item>,
) -> Result<(), NamesFault>
    requires { All (IsWithin (length text.now)) fields.now }
    ensures items { OnOk result (AreItemsOf (known.now ++ own.new) items.new.items
        (texts_at text.now fields.now)) }
    ensures grown { OnOk result (GrowBy (known.now ++ own.old) (texts_at text.now fields.now)
        (known.now ++ own.new)) }
    ensures room { OnOk result (length (known.now ++ own.new) ≤ most_items) }
{
    items.clear();
    for span in fields {
        let item = match number_behind(known, own, &text[span.from..span.to]) {
            Ok(item) => item,
            Err(fault) => return Err(fault),
        };
        match items.push(item) {
            Ok(()) => {}
            Err(_) => return Err(NamesFault::NoMemory),
        }
    }
    if own.count() > MOST_NAMES - known.count() {
        return Err(NamesFault::TooMany);
    }
    Ok(())
}

/// The number of a name: the known one, or that of the piece's own names, which are counted behind.
#[inline(always)]
fn number_behind(known: &Names, own: &mut Names, name: &[u8]) -> Result<Item, NamesFault>
    ensures number { IfOk result (λ item. slice_get (known.now ++ own.new) item.0 ≡ Some name.now) }
    ensures grown { OnOk result (GrowBy (known.now ++ own.old) (name.now ∷ []) (known.now ++ own.new)) }
{
    if let Some(item) = known.find(name) {
        return Ok(item);
    }
    match own.intern(name) {
        Ok(item) => {
            prove!(own.count() <= MOST_NAMES);
            Ok(Item(known.count() + item.0))
        }
        Err(fault) => Err(fault),
    }
}

/// What is read of a piece. A name that is not known is one of its own.
pub(crate) fn read_piece(
    alloc: Global,
    known: &Names,
    bytes: &[u8],
    weighted: bool,
) -> Result<Reading, SequenceFault>
    requires few { length bytes.now ≤ most_file_bytes }
    requires room { length known.now ≤ most_items }
    ensures { IfOk result (λ reading. IsTaken known.now weighted (lines_behind bytes.now)
        (behind known.now reading)) }
{
    let mut piece = Piece {
        known,
        own: Reading {
            weighted,
            names: Names::new(alloc)?,
            items: Vec::new(alloc),
            db: Db::new(alloc),
        },
    };
    match visit_lines(alloc, bytes, &mut piece) {
        Ok(_) => Ok(piece.own),
        Err(_) => Err(SequenceFault::NoMemory),
    }
}
