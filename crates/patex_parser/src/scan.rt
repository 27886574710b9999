ghost use Rattle.std.specs.Prelude.{◌≡◌, ◌<◌, ◌≤◌, ◌+◌, ◌++◌, ◌∷◌, ◌^◌, [], map, length, vec_len, IfOk, IfErr, OnOk};
ghost use Rattle.mine_model.specs.Limits.{most_expression_bytes};
ghost use Rattle.patex_parser.specs.Parsing.{use_view};
ghost use Rattle.patex_parser.specs.Scanning.{IsScannedTo, IsScanned, IsBadTokenFault, token_of, uses_in};

use super::bytes::is_free;
use super::lexeme::{Lexeme, first_lexeme};
use super::parsed::NameUse;
use super::patex_fault::PatexFault;
use super::token::{Kind, Mark, ReadToken};
use mine_model::{Item, NoMemory};
use std::alloc::Global;

/// The tokens of an expression, and its names where they stand.
#[derive(Drop)]
pub(crate) struct Scanned {
    pub(crate) tokens: Vec<ReadToken>,
    pub(crate) uses: Vec<NameUse>,
}

impl Scanned {
    // Takes one more token, which stands at the column.
    fn push(&mut self, column: u32, lexeme: Lexeme) -> Result<(), NoMemory>
        requires { vec_len self.old.uses ≤ most_expression_bytes }
        ensures tokens { OnOk result (self.new.tokens.items
            ≡ self.old.tokens.items ++ token_of column (vec_len self.old.uses) lexeme ∷ []) }
        ensures uses { OnOk result (map use_view self.new.uses.items
            ≡ map use_view self.old.uses.items ++ uses_in column lexeme) }
    {
        let kind = match lexeme {
            Lexeme::Name(name) => {
                let number = self.uses.len() as u32;
                self.uses.push(NameUse { column, name })?;
                Kind::Mark(Mark::Name(Item(number)))
            }
            Lexeme::Other(kind) => kind,
        };
        self.tokens.push(ReadToken { column, kind })?;
        Ok(())
    }

    // Reads the free byte or the token at `at`, and says where it ends.
    fn step(&mut self, alloc: Global, text: &[u8], at: usize) -> Result<usize, PatexFault>
        requires more { at < length text.now }
        requires short { length text.now ≤ most_expression_bytes }
        requires scanned { IsScannedTo text.now at self.old.tokens.items (map use_view self.old.uses.items) }
        ensures scanned { IfOk result
            (λ next. IsScannedTo text.now next self.new.tokens.items (map use_view self.new.uses.items)) }
        ensures farther { IfOk result (λ next. at < next) }
        ensures err { IfErr result (IsBadTokenFault text.now) }
    {
        if is_free(text[at]) {
            return Ok(at + 1);
        }
        let column = at as u32 + 1;
        let Some((lexeme, count)) = first_lexeme(alloc, &text[at..])? else {
            return Err(PatexFault::BadToken { column });
        };
        self.push(column, lexeme)?;
        Ok(at + count)
    }
}

/// Reads a text as tokens.
pub(crate) fn scan(alloc: Global, text: &[u8]) -> Result<Scanned, PatexFault>
    requires { length text.now ≤ most_expression_bytes }
    ensures ok { IfOk result (λ s. IsScanned text.now s.tokens.items (map use_view s.uses.items)) }
    ensures err { IfErr result (IsBadTokenFault text.now) }
{
    let mut scanned = Scanned {
        tokens: Vec::new(alloc),
        uses: Vec::new(alloc),
    };
    let mut at = 0;
    while at < text.len() {
        at = scanned.step(alloc, text, at)?;
    }
    Ok(scanned)
}
