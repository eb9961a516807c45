//! The program `boki`: stateful serverless functions over a shared log, each run exactly once.
#![tactic(auto)]

use boki_call::{Nemesis, Status, call};
use call_base::{StdSink, StdSource};
use cluster_run::Cluster;
use lb_base::Memory;
use nemesis::{Doubler, Killer, Loser};
use std::env;
use std::io::{BufWriter, ErrorKind};
use std::process::ExitCode;
use std::sync::Wait;
use std::thread::Threads;

/// The words of the command line, without the program's name.
fn words_of(rt: &HostRuntime) -> Result<Vec<String>, Memory> {
    let mut words = Vec::new(rt.alloc());
    let args = match env::args(rt) {
        Ok(args) => args,
        // A word that isn't UTF-8 is no word of a command. No words at all are answered alike.
        Err(error) if error.kind() == ErrorKind::InvalidData => return Ok(words),
        Err(_) => return Err(Memory),
    };
    for word in args.skip(1) {
        words.push(word)?;
    }
    Ok(words)
}

/// Answers the words over the standard devices, and hands in a killer, a doubler and a loser. `threads` may start threads and wait.
fn answer<R: Threads + Wait + Sync>(rt: &HostRuntime, threads: &R) -> Result<Status, Memory> {
    let alloc = rt.alloc();
    let mut nemeses: Vec<Box<dyn Nemesis + Send>> = Vec::new(alloc);
    nemeses.push(Box::new(alloc, Killer::new())?)?;
    nemeses.push(Box::new(alloc, Doubler::new())?)?;
    nemeses.push(Box::new(alloc, Loser::new())?)?;
    let words = words_of(rt)?;
    let Ok(out) = BufWriter::new(alloc, rt.stdout()) else {
        return Err(Memory);
    };
    let mut source = StdSource::new(rt.stdin());
    let mut sink = StdSink::new(out);
    let status = call::<Cluster, _, _, _>(
        threads,
        alloc,
        words.as_slice(),
        &mut source,
        &mut sink,
        nemeses,
    );
    // What the buffer kept is written now, and where that fails the text isn't whole.
    if sink.flush() {
        Ok(status)
    } else {
        Ok(Status::WriteFault)
    }
}

fn main(rt: HostRuntime) -> ExitCode {
    let status = match answer(&rt, &rt) {
        Ok(status) => status,
        Err(_) => Status::Memory,
    };
    ExitCode::from(status.code())
}
