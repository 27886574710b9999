//! The status of a run and its message on the error output.

ghost use Rattle.std.specs.Prelude.{◌≡◌, ℕ, ◌+◌, ◌≤◌, ◌<◌, ◌++◌, List, [], Some, IfSome, length, codes, decimal};
ghost use Rattle.arrayvec.specs.ArrayString.{array_string_len};
ghost use Rattle.text_ports.specs.Faults.{Rose};
ghost use Rattle.mine_model.specs.Status.{fault_status, status_of, file_text, at_column, at_line, at_place, fault_text, work_text, message_of};
ghost use Rattle.desq_run.specs.Reported.{IsReported};

use arrayvec::ArrayString;
use itoa::Buffer;
use mine_model::{Fault, Which, Work};
use text_ports::{Sink, write_all};

/// The most bytes of a message.
const MOST_BYTES: usize = 160;

/// A message while it is made. It takes no memory.
type Text = ArrayString<MOST_BYTES>;

/// The status of a run that ended so.
pub(crate) fn status(outcome: &Result<Option<Work>, Fault>) -> u8
    ensures { result ≡ status_of outcome.now }
{
    match outcome {
        Ok(_) => 0,
        Err(fault) => status_of_fault(fault),
    }
}

fn status_of_fault(fault: &Fault) -> u8
    ensures { result ≡ fault_status fault.now }
{
    match fault {
        Fault::Usage => 2,
        Fault::BadToken { .. }
        | Fault::BadRepeat { .. }
        | Fault::Unexpected { .. }
        | Fault::Unknown { .. }
        | Fault::BadByte { .. }
        | Fault::BadWeight { .. }
        | Fault::Cycle { .. }
        | Fault::BadRow { .. }
        | Fault::BadProof { .. } => 3,
        Fault::ExprTooLong
        | Fault::RepeatLimit { .. }
        | Fault::TooDeep { .. }
        | Fault::TooManyLeaves { .. }
        | Fault::TooLarge { .. }
        | Fault::NameTooLong { .. }
        | Fault::TooManyItems { .. }
        | Fault::TooManyAncestors
        | Fault::TooManySequences { .. }
        | Fault::SequenceTooLong { .. } => 4,
        Fault::Read { .. } => 5,
        Fault::Write => 6,
        Fault::NoMemory => 7,
    }
}

/// Appends a number in decimal: at most 20 bytes.
fn push_number(text: &mut Text, number: u64)
    requires { array_string_len text.old + 20 ≤ 160 }
    ensures bytes { text.new.bytes ≡ text.old.bytes ++ decimal number }
    ensures len { array_string_len text.new ≤ array_string_len text.old + 20 }
{
    let mut digits = Buffer::new();
    text.push_str(digits.format(number));
}

/// Appends the name of a file: at most 25 bytes.
fn push_name(text: &mut Text, file: Which)
    requires { array_string_len text.old ≤ 6 }
    ensures bytes { text.new.bytes ≡ text.old.bytes ++ file_text file }
    ensures len { array_string_len text.new ≤ array_string_len text.old + 25 }
{
    match file {
        Which::Hierarchy => text.push_str("hierarchy"),
        Which::Sequences => text.push_str("sequences"),
        Which::Merged(number) => {
            text.push_str("file ");
            push_number(text, u64::from(number));
        }
        Which::Proof => text.push_str("proof"),
    }
}

fn push_file(text: &mut Text, file: Which, what: &str)
    requires room { array_string_len text.old ≤ 6 }
    requires short { length what.now ≤ 40 }
    ensures text { text.new.bytes ≡ text.old.bytes ++ (file_text file ++ what.now) }
    ensures room { array_string_len text.new < 160 }
{
    push_name(text, file);
    text.push_str(what);
}

fn push_at_column(text: &mut Text, column: u32, what: &str)
    requires room { array_string_len text.old ≤ 6 }
    requires short { length what.now ≤ 40 }
    ensures text { text.new.bytes ≡ text.old.bytes ++ at_column column what.now }
    ensures room { array_string_len text.new < 160 }
{
    text.push_str("expression: column ");
    push_number(text, u64::from(column));
    text.push_str(what);
}

fn push_at_line(text: &mut Text, file: Which, line: u64, what: &str)
    requires room { array_string_len text.old ≤ 6 }
    requires short { length what.now ≤ 60 }
    ensures text { text.new.bytes ≡ text.old.bytes ++ at_line file line what.now }
    ensures room { array_string_len text.new < 160 }
{
    push_name(text, file);
    text.push_str(": line ");
    push_number(text, line);
    text.push_str(what);
}

fn push_at_place(text: &mut Text, file: Which, line: u64, column: u64, what: &str)
    requires room { array_string_len text.old ≤ 6 }
    requires short { length what.now ≤ 40 }
    ensures text { text.new.bytes ≡ text.old.bytes ++ at_place file line column what.now }
    ensures room { array_string_len text.new < 160 }
{
    push_name(text, file);
    text.push_str(": line ");
    push_number(text, line);
    text.push_str(" column ");
    push_number(text, column);
    text.push_str(what);
}

/// Appends the text of a fault.
fn push_fault(text: &mut Text, fault: &Fault)
    requires { array_string_len text.old ≤ 6 }
    ensures text { text.new.bytes ≡ text.old.bytes ++ fault_text fault.now }
    ensures room { array_string_len text.new < 160 }
{
    match *fault {
        Fault::Usage => text.push_str("usage: desq --support N [options] EXPR [FILE]"),
        Fault::BadToken { column } => push_at_column(text, column, ": bad token"),
        Fault::BadRepeat { column } => push_at_column(text, column, ": bad repeat"),
        Fault::Unexpected { column } => push_at_column(text, column, ": unexpected"),
        Fault::Unknown { column } => push_at_column(text, column, ": unknown name"),
        Fault::BadByte { file, line, column } => {
            push_at_place(text, file, line, column, ": bad byte")
        }
        Fault::BadWeight { line, column } => {
            push_at_place(text, Which::Sequences, line, column, ": bad weight")
        }
        Fault::Cycle { line } => push_at_line(text, Which::Hierarchy, line, ": cycle"),
        Fault::BadRow { file, line } => push_at_line(text, file, line, ": bad row"),
        Fault::BadProof { line } => push_at_line(text, Which::Proof, line, ": refused"),
        Fault::ExprTooLong => text.push_str("expression: more than 4096 bytes"),
        Fault::RepeatLimit { column } => push_at_column(text, column, ": repeat over 1024"),
        Fault::TooDeep { column } => push_at_column(text, column, ": nested over 128"),
        Fault::TooManyLeaves { count } => {
            text.push_str("expression: ");
            push_number(text, u64::from(count));
            text.push_str(" leaves, over 1024");
        }
        Fault::TooLarge { file } => push_file(text, file, ": more than 67108864 bytes"),
        Fault::NameTooLong { file, line, column } => {
            push_at_place(text, file, line, column, ": name over 255 bytes")
        }
        Fault::TooManyItems { file, line } => {
            push_at_line(text, file, line, ": more than 1048576 items")
        }
        Fault::TooManyAncestors => text.push_str("hierarchy: more than 33554432 ancestors"),
        Fault::TooManySequences { line } => {
            push_at_line(
                text,
                Which::Sequences,
                line,
                ": more than 4194304 sequences",
            )
        }
        Fault::SequenceTooLong { line } => {
            push_at_line(
                text,
                Which::Sequences,
                line,
                ": more than 65535 items in a sequence",
            )
        }
        Fault::Read { file } => push_file(text, file, ": read fault"),
        Fault::Write => text.push_str("write fault"),
        Fault::NoMemory => text.push_str("out of memory"),
    }
}

/// Appends the text of the work of a run.
fn push_work(text: &mut Text, work: &Work)
    requires { array_string_len text.old ≤ 6 }
    ensures text { text.new.bytes ≡ text.old.bytes ++ work_text work.now }
    ensures room { array_string_len text.new < 160 }
{
    text.push_str("nodes ");
    push_number(text, work.nodes);
    text.push_str(" parts ");
    push_number(text, work.parts);
    text.push_str(" candidates ");
    push_number(text, work.candidates);
}

/// The message of an outcome, with its line feed; nothing after a run that is done and tells no work.
fn message(outcome: &Result<Option<Work>, Fault>) -> Text
    ensures { result.bytes ≡ message_of outcome.now }
{
    let mut text = Text::new();
    match outcome {
        Ok(None) => return text,
        Ok(Some(work)) => {
            text.push_str("desq: ");
            push_work(&mut text, work);
        }
        Err(fault) => {
            text.push_str("desq: ");
            push_fault(&mut text, fault);
        }
    }
    text.push_str("\n");
    text
}

/// Writes the message of an outcome. A fault of the sink leaves its first bytes, and is told to nobody.
pub(crate) fn report<E: Sink>(err: &mut E, outcome: &Result<Option<Work>, Fault>)
    ensures reported { IsReported (E.written err.old) (E.written err.new)
        (Rose (E.faults err.old) (E.faults err.new))
        (message_of outcome.now) }
    ensures never_falls { E.faults err.old ≤ E.faults err.new }
{
    let text = message(outcome);
    let _ = write_all(err, text.as_str().as_bytes());
}
