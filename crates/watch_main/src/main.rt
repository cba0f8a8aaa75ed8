//! The program: it carries out the words of its command line over the files of the folder in which it
//! runs, and writes to standard output.
//!
//! The model: what a run writes and how it ends is the definition `session` (`specs/Session.antt`) of its
//! words, of the files that the outside holds and of its script; `run_once` promises it over any `Files`
//! and any `Sink`. `main` hands it the real ones, says on standard error why it ends with a code from 2,
//! and ends with the code. The crate stands on `zw_base`, `diag_order`, `script_read` and `watch_core`.
#![tactic(auto)]

mod adapters;
mod answer;
mod run;
#[cfg(test)]
mod tests;
mod words;

use adapters::{FolderFiles, StdSink};
use run::run_once;
use std::env;
use std::io::{self, ErrorKind};
use std::process::ExitCode;
use std::rt::Env;
use zw_base::Status;

fn main(rt: HostRuntime) -> ExitCode {
    let status = match command_line(&rt) {
        Ok(words) => {
            let mut files = FolderFiles::new(&rt);
            let mut out = StdSink::new(io::writer(&rt));
            run_once(rt.alloc(), words.as_slice(), &mut files, &mut out)
        }
        Err(status) => status,
    };
    let code = status.code();
    if code >= 2 {
        // Where standard error takes nothing, the code alone tells.
        let _ = eprintln!(rt; "zwatch: {status}");
    }
    ExitCode::from(code)
}

/// The words of the command line, without the program's name. Words that are no text name no path.
fn command_line<R: Env + AllocGlobal>(rt: &R) -> Result<Vec<String>, Status> {
    match env::args(rt) {
        Ok(args) => match args.skip(1).collect(rt.alloc()) {
            Ok(words) => Ok(words),
            Err(_) => Err(Status::Memory),
        },
        Err(e) if e.kind() == ErrorKind::OutOfMemory => Err(Status::Memory),
        Err(_) => Err(Status::Usage),
    }
}
