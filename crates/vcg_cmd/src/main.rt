//! The program `vcg`: the words behind its name, standard input and output, its provers, and the status.
#![tactic(auto)]

use edge_io::{StdSink, StdSource};
use prover_box::{Ground, Prover, Subsumed};
use std::env;
use std::io::{self, ErrorKind};
use std::process::ExitCode;
use vcg_top::{Status, vcg};

/// The status where the words are not had: want of memory, or a word that is not UTF-8.
fn status_of(error: &io::Error) -> Status {
    match error.kind() {
        ErrorKind::OutOfMemory => Status::NoMemory,
        _ => Status::Usage,
    }
}

/// The words behind the program's name.
fn words(rt: &HostRuntime) -> Result<Vec<String>, Status> {
    let all = env::args(rt).map_err(|error| status_of(&error))?;
    let mut words = Vec::new(rt.alloc());
    for word in all.skip(1) {
        words.push(word).map_err(|_| Status::NoMemory)?;
    }
    Ok(words)
}

/// The top call over standard input and output, with the provers of closed goals and of goals that
/// stand among the hypotheses, in this order.
fn call(rt: &HostRuntime, words: &[String]) -> Result<Status, Status> {
    let alloc = rt.alloc();
    let mut provers: Vec<Box<dyn Prover>> = Vec::new(alloc);
    let ground = Box::new(alloc, Ground::new()).map_err(|_| Status::NoMemory)?;
    provers.push(ground).map_err(|_| Status::NoMemory)?;
    let subsumed = Box::new(alloc, Subsumed::new(alloc)).map_err(|_| Status::NoMemory)?;
    provers.push(subsumed).map_err(|_| Status::NoMemory)?;
    let mut source = StdSource::new(rt.stdin());
    let mut sink = StdSink::new(rt.stdout());
    Ok(vcg(alloc, words, &mut source, &mut sink, &mut provers))
}

/// The status with which the program ends.
fn status(rt: &HostRuntime) -> Result<Status, Status> {
    let words = words(rt)?;
    call(rt, words.as_slice())
}

fn main(rt: HostRuntime) -> ExitCode {
    let status = match status(&rt) {
        Ok(status) => status,
        Err(status) => status,
    };
    ExitCode::from(status.number())
}
