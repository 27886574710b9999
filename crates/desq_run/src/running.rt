//! The top call.

ghost use Rattle.std.specs.Prelude.{◌≡◌, ◌≢◌, ℕ, ◌≤◌, ◌<◌, ◌++◌, ◌⊎◌, List, [], Option, Some, Result, IsTrue, IfSome, map, take, length, string_bytes};
ghost use Rattle.text_ports.specs.Faults.{Rose};
ghost use Rattle.mine_model.specs.declared.fault.Fault.{Fault};
ghost use Rattle.mine_model.specs.declared.mined.Work.{Work};
ghost use Rattle.mine_model.specs.Status.{fault_status, status_of, message_of};
ghost use Rattle.command_line.specs.Words.{Command, IsNamed, IsCommand, IsUsage, merged_in};
ghost use Rattle.desq_run.specs.Sources.{IsSourceRefusal};
ghost use Rattle.desq_run.specs.Said.{RefusesHierarchy};
ghost use Rattle.desq_run.specs.Ends.{Input, IsInput, bytes_named, HoldsData, IsDataRefusal, IsFirstRefusal, IsAccepted, IsAnswerText, HasSource, NeedsNoFile, MayEndWith};
ghost use Rattle.desq_run.specs.Reported.{IsReported};

use super::attempts::attempt;
use super::messages;
use mine_model::Gate;
use std::alloc::Global;
use std::sync::Wait;
use std::thread::Threads;
use text_ports::{Files, Sink};

/// Runs the command that the words say: reads the files that they name through `files`, writes the answer,
/// or a proof of it, or how many rows a proof has that is checked, or the rows of the files that it merges,
/// to `out` and a message, where there is one, to `err`, and answers the status.
///
/// 0 done, 2 the words are no command, 3 something is malformed, 4 a limit is exceeded, 5 a fault of reading,
/// 6 a fault of writing, 7 not enough memory. A fault of `err` changes no status. A worker passes the gate
/// before each block of sequences that it goes over, or each node that it grows.
pub fn run<R: Threads + Wait + Sync, F: Files, O: Sink, E: Sink, G: Gate>(
    rt: &R,
    alloc: Global,
    words: &[String],
    files: &mut F,
    out: &mut O,
    err: &mut E,
    gate: &G,
) -> u8
    // The files that the words name may be opened. No other is.
    requires { (file : List ℕ) → IsNamed (map string_bytes words.now) file → IsTrue (F.may files.old file) }

    ensures statuses { (result ≡ 0) ⊎ ((2 ≤ result) × (result ≤ 7)) }

    // Every end has its cause, and err gained its message, or after a fault of err the first bytes of it.
    ensures ends { (outcome : Result (Option Work) Fault) × (result ≡ status_of outcome)
        × MayEndWith (map string_bytes words.now) (F.holds files.old) outcome
        × IsReported (E.written err.old) (E.written err.new) (Rose (E.faults err.old) (E.faults err.new))
        (message_of outcome) }

    // Done: nothing is refused, and out gained exactly the text of the answer, or of a proof, or of a check.
    ensures done { result ≡ 0 → (input : Input)
        → IsInput (map string_bytes words.now) (F.holds files.old) input
        → IsAccepted input × ((text : List ℕ) × IsAnswerText input text
        × IfSome (O.written out.old) (λ before. O.written out.new ≡ Some (before ++ text))) }

    // Refusals come exactly where they are the first, unless memory ran out or a fault of reading came
    // before.
    ensures usage { result ≡ 2 → IsUsage (map string_bytes words.now) }
    ensures refuses_words { IsUsage (map string_bytes words.now) → (result ≡ 2) ⊎ (result ≡ 7) }
    ensures refuses_source { (command : Command) (fault : Fault)
        → IsCommand (map string_bytes words.now) command
        → IsSourceRefusal command.source fault → (result ≡ fault_status fault) ⊎ (result ≡ 7) }
    ensures refuses_hierarchy { (command : Command) (bytes : List ℕ) (fault : Fault)
        → HasSource (map string_bytes words.now) command
        → bytes_named (F.holds files.old) command.hierarchy ≡ Some bytes
        → RefusesHierarchy command.source bytes fault
        → (result ≡ fault_status fault) ⊎ (result ≡ 7) ⊎ Rose (F.faults files.old) (F.faults files.new) }
    ensures refuses_data { (command : Command) (input : Input) (fault : Fault)
        → HasSource (map string_bytes words.now) command → merged_in command.source ≡ []
        → HoldsData (F.holds files.old) command input → IsDataRefusal input fault
        → (result ≡ fault_status fault) ⊎ (result ≡ 7) ⊎ Rose (F.faults files.old) (F.faults files.new) }
    ensures refused { (result ≡ 3) ⊎ (result ≡ 4)
        → (input : Input) → IsInput (map string_bytes words.now) (F.holds files.old) input
        → (fault : Fault) × IsFirstRefusal input fault × (fault_status fault ≡ result) }
    ensures refuses { (input : Input) (fault : Fault)
        → IsInput (map string_bytes words.now) (F.holds files.old) input → IsFirstRefusal input fault
        → (result ≡ fault_status fault) ⊎ (result ≡ 7) ⊎ Rose (F.faults files.old) (F.faults files.new) }

    // The words are read first, and then the expression or the rule: where these are refused, and where the
    // input is made, no file is touched.
    ensures untouched { IsUsage (map string_bytes words.now)
        ⊎ ((command : Command) × IsCommand (map string_bytes words.now) command
        × NeedsNoFile command.source) → files.new ≡ files.old }

    // Faults: only where they were counted in this call. After one of writing out gained the first bytes
    // of such a text, and not all.
    ensures read_fault { result ≡ 5 → Rose (F.faults files.old) (F.faults files.new) }
    ensures write_fault { result ≡ 6 → Rose (O.faults out.old) (O.faults out.new) }
    ensures cut { result ≡ 6 → (input : Input)
        → IsInput (map string_bytes words.now) (F.holds files.old) input
        → IsAccepted input × ((text : List ℕ) × IsAnswerText input text
        × IfSome (O.written out.old) (λ before. (n : ℕ) × (n < length text)
        × (O.written out.new ≡ Some (before ++ take n text)))) }
    ensures nothing { result ≢ 0 → result ≢ 6 → O.written out.new ≡ O.written out.old }

    // Complete: where nothing is refused and no fault was counted, the answer is written, unless memory
    // ran out.
    ensures complete { (input : Input) → IsInput (map string_bytes words.now) (F.holds files.old) input
        → IsAccepted input → ¬ Rose (F.faults files.old) (F.faults files.new)
        → ¬ Rose (O.faults out.old) (O.faults out.new) → (result ≡ 0) ⊎ (result ≡ 7) }

    ensures same_names { F.may files.new ≡ F.may files.old }
    ensures same_files { F.holds files.new ≡ F.holds files.old }
    ensures never_falls { (F.faults files.old ≤ F.faults files.new) × (O.faults out.old ≤ O.faults out.new)
        × (E.faults err.old ≤ E.faults err.new) }
{
    let outcome = attempt(rt, alloc, words, files, out, gate);
    let status = messages::status(&outcome);
    messages::report(err, &outcome);
    status
}
