//! Lines, their fields, and the first bad byte of a text.

ghost use Rattle.std.specs.Prelude.{◌<◌};

use super::one_file::one_file;
use mine_model::NoMemory;
use std::alloc::{AllocError, Global};
use text_ports::TextFault::BadByte;
use text_ports::{LineVisitor, Span, TextFault, read_lines};

/// Shows the lines that it is given: each field with a bar behind it, and a slash behind each line.
#[derive(Drop)]
struct Shown {
    text: Vec<u8>,
}

impl LineVisitor for Shown {
    type Fault = AllocError;

    ghost took = { λ _ _ _ _. Unit {0} };

    ghost refused = { λ _ _ _ _ _. Unit {0} };

    fn line(&mut self, _number: u64, text: &[u8], fields: &[Span]) -> Result<(), AllocError> {
        for span in fields {
            self.text.extend_from_slice(&text[span.from..span.to])?;
            self.text.push(b'|')?;
        }
        self.text.push(b'/')?;
        Ok(())
    }
}

type Outcome = Result<u64, TextFault<AllocError>>;

/// The outcome for a file of these bytes, and what is shown of its lines.
fn shown_of(
    alloc: Global,
    bytes: &[u8],
    cut: usize,
    fails: &[u64],
) -> Result<(Outcome, Vec<u8>), AllocError>
    requires { 0 < cut }
{
    let mut files = one_file(alloc, bytes, cut, fails)?;
    let mut visitor = Shown {
        text: Vec::new(alloc),
    };
    let outcome = read_lines(alloc, &mut files, "f", &mut visitor);
    Ok((outcome, visitor.text))
}

/// Bytes, their number of lines or their first bad byte, and what is shown of the lines before.
const LINES: &[(&[u8], Outcome, &str)] = &[
    (b"", Ok(0), ""),
    (b"\xEF\xBB\xBF", Ok(0), ""),
    (b"\xEF\xBB\xBFa", Ok(1), "a|/"),
    (b"a\xEF\xBB\xBFb", Ok(1), "a\u{FEFF}b|/"),
    (b"a\n\r\nb", Ok(3), "a|//b|/"),
    (b"a b\r\nc\r", Ok(2), "a|b|/c|/"),
    (b"\t a  b\t", Ok(1), "a|b|/"),
    (b"\n\n", Ok(2), "//"),
    (b"\r", Ok(1), "/"),
    (b"x\n\xEF\xBB\xBF", Ok(2), "x|/\u{FEFF}|/"),
    (b"a\r\r\n", Err(BadByte { line: 1, column: 2 }), ""),
    (b"a\rb", Err(BadByte { line: 1, column: 2 }), ""),
    (b"\xEF\xBB\xBF\x01", Err(BadByte { line: 1, column: 1 }), ""),
    (
        b"a\nb \x7F\x01\n",
        Err(BadByte { line: 2, column: 3 }),
        "a|/",
    ),
    (b"\r\n\x00", Err(BadByte { line: 2, column: 1 }), "/"),
    (b"\r\r", Err(BadByte { line: 1, column: 1 }), ""),
    (
        b"a\xEF\xBB\xBF\x0B",
        Err(BadByte { line: 1, column: 5 }),
        "",
    ),
];

/// Whether the outcome for a file of these bytes, and what is shown of its lines, are these.
fn is_shown(
    alloc: Global,
    bytes: &[u8],
    cut: usize,
    outcome: Outcome,
    text: &str,
) -> Result<bool, NoMemory>
    requires { 0 < cut }
{
    let (found, shown) = shown_of(alloc, bytes, cut, &[])?;
    Ok(found == outcome && shown.as_slice() == text.as_bytes())
}

/// The number of the first file of which something else is shown.
fn first_misread(alloc: Global, cut: usize) -> Result<Option<usize>, NoMemory>
    requires { 0 < cut }
{
    for (number, (bytes, outcome, text)) in LINES.iter().enumerate() {
        if !is_shown(alloc, bytes, cut, *outcome, text)? {
            return Ok(Some(number));
        }
    }
    Ok(None)
}

/// The first number of bytes that a read gives at most by which a file shows something else, and the number
/// of that file.
fn first_cut(alloc: Global) -> Result<Option<(usize, usize)>, NoMemory> {
    for cut in 1..8 {
        if let Some(number) = first_misread(alloc, cut)? {
            return Ok(Some((cut, number)));
        }
    }
    Ok(None)
}

#[test]
fn lines_and_fields_or_the_first_bad_byte(rt: HostRuntime) {
    assert_eq!(rt; first_cut(rt.alloc()), Ok(None));
}

/// Whether a file of 16,385 bytes is read where this call fails.
fn is_read(alloc: Global, fail: u64) -> Result<bool, NoMemory> {
    let (outcome, _) = shown_of(alloc, &[b' '; 16_385], 65_536, &[fail])?;
    Ok(outcome.is_ok())
}

// A call opens the file, two read it, and one finds its end.
const CALLS: [(u64, bool); 5] = [(1, false), (2, false), (3, false), (4, false), (5, true)];

/// The number of the first call that fails and lets the file be read, or not, against the table.
fn first_call(alloc: Global) -> Result<Option<usize>, NoMemory> {
    for (number, (fail, want)) in CALLS.iter().enumerate() {
        if is_read(alloc, *fail)? != *want {
            return Ok(Some(number));
        }
    }
    Ok(None)
}

#[test]
fn a_file_is_read_by_as_few_calls_as_its_size_asks(rt: HostRuntime) {
    assert_eq!(rt; first_call(rt.alloc()), Ok(None));
}
