ghost use Rattle.std.specs.Prelude.{◌≡◌, ◌<◌, ◌≤◌, ◌+◌, ◌++◌, ◌∷◌, [], true, false, take, drop, length, IfOk, IfSome, IfNone};
ghost use Rattle.mine_model.specs.Bytes.{quote, open_brace};
ghost use Rattle.mine_model.specs.Tokens.{Token, name, sign, is_sign, is_quote, doubled, BeginsOtherwise, BeginsToken};
ghost use Rattle.patex_parser.specs.Scanning.{IsMark, IsQuoted, IsUnclosed, IsLexeme};

use super::bounds::repeat;
use super::bytes::{Class, is_bare_byte, run_of};
use super::token::{Bracket, Kind, Mark};
use mine_model::{Name, NoMemory};
use std::alloc::Global;

/// What comes first in a text: a name, or another token.
#[derive(Drop)]
pub(crate) enum Lexeme {
    Name(Name),
    Other(Kind),
}

// The mark that a sign of one byte is.
fn sign_mark(b: u8) -> Option<Mark>
    ensures some { IfSome result (λ mark. (is_sign b ≡ true) × IsMark (sign b) mark) }
    ensures none { IfNone result (is_sign b ≡ false) }
{
    match b {
        b'^' => Some(Mark::Caret),
        b'=' => Some(Mark::Equals),
        b'.' => Some(Mark::Dot),
        b'!' => Some(Mark::Bang),
        b'|' => Some(Mark::Bar),
        b'(' => Some(Mark::Opening(Bracket::Round)),
        b'[' => Some(Mark::Opening(Bracket::Square)),
        b')' => Some(Mark::Closing(Bracket::Round)),
        b']' => Some(Mark::Closing(Bracket::Square)),
        b'*' => Some(Mark::Postfix {
            least: 0,
            most: None,
        }),
        b'+' => Some(Mark::Postfix {
            least: 1,
            most: None,
        }),
        b'?' => Some(Mark::Postfix {
            least: 0,
            most: Some(1),
        }),
        _ => None,
    }
}

// The name behind an opening quote, and how many bytes it takes with its closing quote. None where it is not
// closed.
fn quoted(alloc: Global, inner: &[u8]) -> Result<Option<(Name, usize)>, NoMemory>
    ensures some { IfOk result (λ found. IfSome found (λ f. IsQuoted inner.now f.0 f.1)) }
    ensures none { IfOk result (λ found. IfNone found (IsUnclosed inner.now)) }
{
    let mut bytes = Vec::new(alloc);
    let mut at = 0;
    while at < inner.len() {
        let b = inner[at];
        if b == b'\'' {
            at += 1;
            if at == inner.len() || inner[at] != b'\'' {
                return Ok(Some((Name::new(bytes), at)));
            }
        }
        bytes.push(b)?;
        at += 1;
    }
    Ok(None)
}

// A repeat behind its opening brace, and how many bytes it takes with its closing brace.
fn braced(inner: &[u8]) -> (Kind, usize)
    ensures { IsLexeme (open_brace ∷ inner.now) (Lexeme.Other result.0) (result.1 + 1) }
{
    let count = run_of(Class::Inner, inner);
    if count == inner.len() {
        return (Kind::BadRepeat, count);
    }
    (repeat(&inner[..count]), count + 1)
}

/// The token that comes first in the text, and how many bytes it takes. None where none begins there.
pub(crate) fn first_lexeme(alloc: Global, text: &[u8]) -> Result<Option<(Lexeme, usize)>, NoMemory>
    requires { 0 < length text.now }
    ensures some { IfOk result (λ found. IfSome found (λ f. IsLexeme text.now f.0 f.1)) }
    ensures none { IfOk result (λ found. IfNone found (BeginsToken text.now → ⊥)) }
{
    let first = text[0];
    if is_bare_byte(first) {
        let count = run_of(Class::Bare, text);
        let name = Name::new(Vec::from_slice(alloc, &text[..count])?);
        return Ok(Some((Lexeme::Name(name), count)));
    }
    if first == b'\'' {
        return match quoted(alloc, &text[1..])? {
            Some((name, count)) => Ok(Some((Lexeme::Name(name), count + 1))),
            None => Ok(None),
        };
    }
    if first == b'{' {
        let (kind, count) = braced(&text[1..]);
        return Ok(Some((Lexeme::Other(kind), count + 1)));
    }
    match sign_mark(first) {
        Some(mark) => Ok(Some((Lexeme::Other(Kind::Mark(mark)), 1))),
        None => Ok(None),
    }
}
