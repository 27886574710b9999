//! The command `desq`: its words, the files of the disk, standard input, output and error, and the status of
//! the run.
#![tactic(auto)]

mod progress;

use desq_run::run;
use progress::{Cleared, Progress};
use std::io::ErrorKind;
use std::process::ExitCode;
use std::{env, io};
use text_ports::{DiskFiles, Sink, StdSink};

/// The words of the command line without the program's name.
fn read_words(rt: &HostRuntime) -> io::Result<Vec<String>> {
    let mut words = env::args(rt)?;
    let _name = words.next();
    Ok(words.collect(rt.alloc())?)
}

fn main(rt: HostRuntime) -> ExitCode {
    let words = match read_words(&rt) {
        Ok(words) => words,
        // Words that are not UTF-8 are no command, as no words are.
        Err(error) if error.kind() == ErrorKind::InvalidData => Vec::new(rt.alloc()),
        Err(_) => {
            let _ = StdSink::err(&rt).write(b"desq: out of memory\n");
            return ExitCode::from(7);
        }
    };
    let progress = Progress::new(&rt, words.as_slice());
    let mut files = DiskFiles::new(&rt);
    let mut out = Cleared::new(&progress, StdSink::out(&rt));
    let mut err = Cleared::new(&progress, StdSink::err(&rt));
    let status = run(
        &rt,
        rt.alloc(),
        words.as_slice(),
        &mut files,
        &mut out,
        &mut err,
        &progress,
    );
    progress.clear();
    ExitCode::from(status)
}
