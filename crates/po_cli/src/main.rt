//! The program `po`: standard input, standard output and standard error, given to the top call.
#![tactic(auto)]

use po_pool::Open;
use po_run::{Status, po_run, tell};
use po_text::{StdSink, StdSource};
use std::env;
use std::io::ErrorKind;
use std::process::ExitCode;

/// The words that the program was started with, without its name. None where memory was refused. Where one isn't UTF-8
/// there are none, and no words are a wrong use, as that one is.
fn words(rt: &HostRuntime) -> Option<Vec<String>> {
    let args = match env::args(rt) {
        Ok(args) => args,
        Err(fault) if fault.kind() == ErrorKind::OutOfMemory => return None,
        Err(_) => return Some(Vec::new(rt.alloc())),
    };
    let Ok(words) = args.skip(1).collect(rt.alloc()) else {
        return None;
    };
    Some(words)
}

/// The exit status (docs/PROGRAM.md, "Statuses").
// ORDER: statuses
fn exit_status(status: Status) -> u8 {
    match status {
        Status::Done => 0,
        Status::Usage => 2,
        Status::ReadFault => 3,
        Status::BadText { .. } => 4,
        Status::Unrecognised { .. } => 5,
        Status::TooFew { .. } => 6,
        Status::WriteFault { .. } => 7,
        Status::OutOfMemory => 8,
    }
}

fn main(rt: HostRuntime) -> ExitCode {
    let mut notes = StdSink::new(rt.stderr());
    let Some(words) = words(&rt) else {
        tell(&mut notes, Status::OutOfMemory, None);
        return ExitCode::from(exit_status(Status::OutOfMemory));
    };
    let mut source = StdSource::new(rt.stdin());
    let mut sink = StdSink::new(rt.stdout());
    let alloc = rt.alloc();
    let status = po_run(
        &rt,
        alloc,
        &words,
        &mut source,
        &mut sink,
        &mut notes,
        &Open,
    );
    ExitCode::from(exit_status(status))
}
